//! The two binary formats.
ghost use Rattle.std.specs.Prelude.{◌≡◌, ℕ, refl};
ghost use Rattle.numbers.specs.Format.{Format};
ghost use Rattle.numbers.specs.Binary.{sign_bit, binary64, binary32};
ghost use Rattle.binary.specs.Layout.{Layout, top_code, layout_64, layout_32};

use std::marker::PhantomData;

/// A binary format that fits words of 64 bits.
pub trait Binary {
    ghost format: { Format };

    ghost FRACTION: { ℕ };

    ghost SCALES: { ℕ };

    /// The bits of the fraction field.
    const FRACTION: u32;

    /// The greatest scale.
    const SCALES: u32;

    ghost layout: { Layout format FRACTION };

    ghost greatest: { SCALES ≡ format.scales };

    /// How many fractions there are, which is the least coefficient that needs its scale.
    final fn lead() -> u64
        ensures { result ≡ format.lead }
    {
        1 << Self::FRACTION
    }

    /// The sign bit.
    final fn sign_bit() -> u64
        ensures { result ≡ sign_bit format }
    {
        Self::lead() * (Self::SCALES as u64 + 3)
    }

    /// The pattern of the greatest number: the one below infinity's, whose exponent field is the first that is all ones.
    final fn top() -> u64
        ensures { result ≡ top_code format }
    {
        Self::sign_bit() - Self::lead() - 1
    }
}

/// The kind of a format's numbers.
pub struct Float<F> {
    pub format: PhantomData<F>,
}

// A kind's name stands for its format too.
impl<F: Binary> Binary for Float<F> {
    ghost format = { F.Binary.format };

    ghost FRACTION = { F.Binary.FRACTION };

    ghost SCALES = { F.Binary.SCALES };

    const FRACTION: u32 = F::FRACTION;

    const SCALES: u32 = F::SCALES;

    ghost layout = { F.Binary.layout };

    ghost greatest = { F.Binary.greatest };
}

/// Numbers of 64 bits, in units of 2^-1074 cubic metre.
pub type Binary64 = Float<Double>;

/// Numbers of 32 bits, in units of 2^-149 cubic metre.
pub type Binary32 = Float<Single>;

/// The format of 64 bits.
pub struct Double;

impl Binary for Double {
    ghost format = { binary64 };

    ghost FRACTION = { 52 };

    ghost SCALES = { 2045 };

    const FRACTION: u32 = 52;

    const SCALES: u32 = 2045;

    ghost layout = { layout_64 };

    ghost greatest = { refl };
}

/// The format of 32 bits.
pub struct Single;

impl Binary for Single {
    ghost format = { binary32 };

    ghost FRACTION = { 23 };

    ghost SCALES = { 253 };

    const FRACTION: u32 = 23;

    const SCALES: u32 = 253;

    ghost layout = { layout_32 };

    ghost greatest = { refl };
}
