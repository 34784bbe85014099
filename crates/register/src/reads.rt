//! Reading a register limb by limb.
ghost use Rattle.std.specs.Prelude.{◌≡◌, ◌/◌, ◌%◌, ◌^◌, ◌<◌, pos, int_lt, nat_lt, slice_index, unsigned_abs};
ghost use Rattle.register.specs.Limbs.{LeastBits, Rounded};
ghost use Rattle.register.specs.Value.{value, bits};

use crate::Register;

impl Register {
    // The limb at a place, and 0 past the highest.
    fn limb(&self, i: usize) -> u64
        ensures { result ≡ slice_index self.now.limbs i }
    {
        self.limbs.get(i).copied().unwrap_or(0)
    }

    /// Whether the value is below 0.
    #[tactic(auto, using(crate::proofs::Splits::negative_is))]
    pub fn is_negative(&self) -> bool
        ensures { result ≡ int_lt (value self.now) (pos 0) }
    {
        self.limbs[33] > i64::MAX as u64
    }

    /// The register's magnitude, whose bits are read with no sign.
    #[tactic(auto, using(crate::proofs::Splits::magnitude_same, crate::proofs::Splits::magnitude_opposite))]
    pub fn magnitude(&self) -> Register
        ensures { bits result ≡ unsigned_abs (value self.now) }
    {
        if self.is_negative() {
            let mut opposite = Register::zero();
            opposite.subtract(self);
            opposite
        } else {
            *self
        }
    }

    /// The 64 bits from bit `at` on, with no sign.
    #[tactic(auto, using(crate::proofs::Splits::window_is))]
    pub fn window(&self, at: u32) -> u64
        ensures { result ≡ bits self.now / 2 ^ at % 2 ^ 64 }
    {
        let i = (at / 64) as usize;
        let pair = u128::from(self.limb(i)) + (u128::from(self.limb(i + 1)) << 64);
        ((pair >> (at % 64)) % (1 << 64)) as u64
    }

    /// Whether a bit below bit `at` is set.
    #[tactic(auto, using(crate::proofs::Splits::none_below))]
    pub fn any_below(&self, at: u32) -> bool
        ensures { result ≡ nat_lt 0 (bits self.now % 2 ^ at) }
    {
        let whole = (at / 64) as usize;
        self.limbs.iter().take(whole).any(|limb| *limb > 0)
            || self.limb(whole) % (1 << (at % 64)) > 0
    }

    /// The number of bits, with no sign.
    #[tactic(auto, using(crate::proofs::Splits::no_bits))]
    pub fn bit_length(&self) -> u32
        ensures { LeastBits (bits self.now) result }
    {
        match self.limbs.iter().rposition(|limb| *limb > 0) {
            Some(i) => 64 * (i as u32) + (64 - self.limbs[i].leading_zeros()),
            None => 0,
        }
    }

    /// The bits in units of 2^at, rounded to the nearest whole number and from halfway to the even one.
    #[tactic(auto, using(crate::proofs::Rounds::nearest))]
    pub fn rounded_at(&self, at: u32) -> u64
        requires place { 0 < at }
        requires size { bits self.now / 2 ^ at < 2 ^ 63 }
        ensures { Rounded (bits self.now) (2 ^ at) result }
    {
        let whole = self.window(at);
        let half = self.window(at - 1) % 2 == 1;
        let up = half && (whole % 2 == 1 || self.any_below(at - 1));
        whole + u64::from(up)
    }
}
