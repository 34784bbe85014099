//! An exact accumulator: a register of 2,176 bits in two's complement, wide enough for every sum that an account can reach.
#![tactic(auto)]

ghost use Rattle.std.specs.Prelude.{◌≡◌, ℕ, ◌^◌, ◌<◌, length, slice_index};

mod joins;
mod reads;
mod scaled;
mod signs;
mod sums;

pub use scaled::Scaled;

/// A whole number from -2^2175 on and below 2^2175, in two's complement: 34 limbs of 64 bits, the lowest first.
#[derive(Clone, Copy)]
pub struct Register {
    limbs: [u64; 34],
    ghost long: { length limbs ≡ 34 },
    ghost small: { (k : ℕ) → slice_index limbs k < 2 ^ 64 },
}
