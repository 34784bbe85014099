//! The sign under which limbs are added, and what one limb does under it.
ghost use Rattle.std.specs.Prelude.{◌≡◌, ◌+◌, ◌*◌, ◌^◌, Bool, true, false, pos, ◌+ℤ◌};
ghost use Rattle.std.specs.Int.{from_bool};
ghost use Rattle.register.specs.Wrap.{signed_by};

// A sum adds under `Plus` and takes away under `Minus`.
pub(crate) trait Sign {
    ghost negative: { Bool };

    // The new limb, and whether it carries to the next place: under `Minus`, whether it borrows there.
    fn step(limb: u64, other: u64, carry: bool) -> (u64, bool)
        ensures { pos result.0 +ℤ signed_by negative (from_bool result.1 * 2 ^ 64) ≡ pos limb +ℤ signed_by negative (other + from_bool carry) };
}

pub(crate) struct Plus;

impl Sign for Plus {
    ghost negative = { false };

    fn step(limb: u64, other: u64, carry: bool) -> (u64, bool) {
        limb.carrying_add(other, carry)
    }
}

pub(crate) struct Minus;

impl Sign for Minus {
    ghost negative = { true };

    fn step(limb: u64, other: u64, carry: bool) -> (u64, bool) {
        limb.borrowing_sub(other, carry)
    }
}
