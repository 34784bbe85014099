//! The machine's own arithmetic on patterns.
use binary::format::{Binary32, Binary64};
use std::num::{
    f32_from_bits_with_nan, f32_to_bits_with_nan, f64_from_bits_with_nan, f64_to_bits_with_nan,
};
use std::ops::{Add, Sub};

/// A width in which the machine adds.
pub(crate) trait Machine {
    /// The first pattern whose exponent field is 1.
    const LEAD: u64;

    /// The exponent field that is all ones; it is no number's.
    const ONES: u64;

    /// The machine's sum, and what it leaves.
    fn two_sum(a: u64, b: u64) -> (u64, u64);
}

// The sum, and what it leaves by the classic sequence of six operations.
fn two_sum<F: Copy + Add<F, Output = F> + Sub<F, Output = F>>(x: F, y: F) -> (F, F)
    requires adds { (a b : F) → F.can_add a b }
    requires subtracts { (a b : F) → F.can_sub a b }
{
    let s = x + y;
    let t = s - x;
    (s, (x - (s - t)) + (y - t))
}

impl Machine for Binary64 {
    const LEAD: u64 = 0x0010_0000_0000_0000;

    const ONES: u64 = 0x7FF;

    fn two_sum(a: u64, b: u64) -> (u64, u64) {
        let (s, r) = two_sum(f64_from_bits_with_nan(a), f64_from_bits_with_nan(b));
        (f64_to_bits_with_nan(s), f64_to_bits_with_nan(r))
    }
}

// A pattern of 32 bits, of the low half.
fn low(p: u64) -> u32 {
    (p & 0xFFFF_FFFF) as u32
}

impl Machine for Binary32 {
    const LEAD: u64 = 0x0080_0000;

    const ONES: u64 = 0xFF;

    fn two_sum(a: u64, b: u64) -> (u64, u64) {
        let (s, r) = two_sum(
            f32_from_bits_with_nan(low(a)),
            f32_from_bits_with_nan(low(b)),
        );
        (
            f32_to_bits_with_nan(s) as u64,
            f32_to_bits_with_nan(r) as u64,
        )
    }
}
