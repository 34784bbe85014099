//! Sums limb by limb, which wrap at the register's width.
ghost use Rattle.std.specs.Prelude.{◌≡◌, ◌+◌, ◌*◌, ◌^◌, ◌<◌, ◌≤◌, ℕ, length, slice_index, pos, ◌+ℤ◌, ◌-ℤ◌};
ghost use Rattle.register.specs.Limbs.{nat_of};
ghost use Rattle.register.specs.Value.{value, meant};
ghost use Rattle.register.specs.Sum.{register_of};
ghost use Rattle.register.specs.Wrap.{signed_by};

use crate::signs::{Minus, Plus, Sign};
use crate::{Register, Scaled};

// Adds the others under a sign, and goes on past them only as far as a carry does.
fn add_limbs<S: Sign>(limbs: &mut [u64], others: &[u64])
    requires room { length others.now ≤ length limbs.old }
    requires small { (k : ℕ) → slice_index limbs.old k < 2 ^ 64 }
    ensures small { (k : ℕ) → slice_index limbs.new k < 2 ^ 64 }
    ensures sum { (out : ℕ) × (pos (nat_of limbs.new) +ℤ signed_by S.negative (out * 2 ^ (64 * length limbs.old)) ≡ pos (nat_of limbs.old) +ℤ signed_by S.negative (nat_of others.now)) }
{
    let mut carry = false;
    for (i, limb) in limbs.iter_mut().enumerate() {
        if i >= others.len() && !carry {
            break;
        }
        // By index, since an invariant cannot name what a loop over a `zip` has written.
        let other = others.get(i).copied().unwrap_or(0);
        (*limb, carry) = S::step(*limb, other, carry);
    }
}

impl Register {
    /// The register of value 0.
    pub fn zero() -> Register
        ensures { result ≡ register_of (pos 0) }
    {
        Register { limbs: [0; 34] }
    }

    // Adds limbs from a place on, under a sign.
    fn add_at<S: Sign>(&mut self, place: usize, limbs: &[u64])
        requires { place + length limbs.now ≤ 34 }
        ensures { self.new ≡ register_of (value self.old +ℤ signed_by S.negative (nat_of limbs.now * 2 ^ (64 * place))) }
    {
        add_limbs::<S>(&mut self.limbs[place..], limbs);
    }

    /// Adds another register.
    #[tactic(auto, using(crate::proofs::Carries::added))]
    pub fn add(&mut self, other: &Register)
        ensures { self.new ≡ register_of (value self.old +ℤ value other.now) }
    {
        self.add_at::<Plus>(0, &other.limbs);
    }

    /// Takes another register away.
    #[tactic(auto, using(crate::proofs::Carries::taken))]
    pub fn subtract(&mut self, other: &Register)
        ensures { self.new ≡ register_of (value self.old -ℤ value other.now) }
    {
        self.add_at::<Minus>(0, &other.limbs);
    }

    /// Adds a scaled number: writes the two limbs that it reaches, and goes on only as far as a carry or a borrow does.
    #[tactic(auto, using(crate::proofs::Carries::spread))]
    pub fn add_scaled(&mut self, number: Scaled)
        ensures { self.new ≡ register_of (value self.old +ℤ meant number) }
    {
        let place = (number.shift / 64) as usize;
        let (low, high) = number.magnitude.carrying_mul(1 << (number.shift % 64), 0);
        if number.negative {
            self.add_at::<Minus>(place, &[low, high]);
        } else {
            self.add_at::<Plus>(place, &[low, high]);
        }
    }
}
