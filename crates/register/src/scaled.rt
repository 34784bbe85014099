ghost use Rattle.std.specs.Prelude.{◌<◌};

/// A whole number told by a sign, a magnitude and a power of two: one that a register adds by two limbs and a carry.
#[derive(Clone, Copy)]
pub struct Scaled {
    // The sign stands beside the magnitude, by which limbs are moved: a signed word of 64 bits takes fewer numbers, and a wider one is two limbs.
    pub negative: bool,
    pub magnitude: u64,
    pub shift: u32,
    ghost low: { shift < 2112 },
}
