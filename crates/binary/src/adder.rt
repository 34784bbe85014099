//! The adder: the nearest number to a sum, and what remains, in integers of 128 bits. Casts that only widen are written `as`, which is as plain as `From`.
ghost use Rattle.std.specs.Prelude.{◌≡◌, ◌*◌, ◌/◌, ◌^◌, ◌<◌, ◌≤◌, T, pos, ◌+ℤ◌, ◌-ℤ◌, ◌*ℤ◌, int_lt, unsigned_abs};
ghost use Rattle.std.specs.Float.Ieee.Nearest.{closest};
ghost use Rattle.numbers.specs.Nearest.{nearest_ℕ, nearest};
ghost use Rattle.numbers.specs.Binary.{is_number, code, binary};
ghost use Rattle.numbers.specs.Coding.{adder};
ghost use Rattle.register.specs.Value.{meant};
ghost use Rattle.register.specs.Wrap.{signed_by};
ghost use Rattle.binary.specs.Canonical.{Canonical};
ghost use Rattle.binary.specs.Layout.{nearest_of, Settled};
ghost use Rattle.binary.specs.Sums.{Sums};

use crate::format::Binary;
use crate::patterns::{fits, signed, worth, written};
use register::Scaled;

// m in units of 2^drop, rounded to the nearest whole number, from halfway to the even one.
#[tactic(auto, using(crate::proofs::Rounds::rounds))]
fn rounded(m: u128, drop: u32) -> u64
    requires size { m < 2 ^ 126 }
    requires place { (0 < drop) × (drop < 126) }
    requires word { m / 2 ^ drop < 2 ^ 63 }
    ensures { result ≡ closest m (2 ^ drop) }
{
    let half = 1u128 << (drop - 1);
    let odd = (m >> drop) % 2;
    ((m + (half - 1) + odd) >> drop) as u64
}

// The number nearest to a magnitude: its pattern, and how many of the magnitude's units it is.
#[derive(Clone, Copy)]
struct Near {
    code: u64,
    units: u128,
}

#[tactic(auto, using(crate::proofs::Steps::steps))]
fn nearest_to<B: Binary>(m: u128, shift: u32) -> Near
    requires { (m < 2 ^ 110) × (shift ≤ B.Binary.format.scales) }
    ensures code { result.code ≡ code B.Binary.format (nearest_ℕ B.Binary.format (m * 2 ^ shift)) }
    ensures units { result.units * 2 ^ shift ≡ nearest_ℕ B.Binary.format (m * 2 ^ shift) }
{
    if m == 0 {
        return Near { code: 0, units: 0 };
    }
    let fraction = B::FRACTION;
    let lead = B::lead();
    let highest = m.ilog2();
    if highest <= fraction {
        let up = (fraction - highest).min(shift);
        return Near {
            code: (shift - up) as u64 * lead + ((m as u64) << up),
            units: m,
        };
    }
    let drop = highest - fraction;
    let n = rounded(m, drop);
    let code = (shift + drop) as u64 * lead + n;
    if fits::<B>(code) {
        return Near {
            code,
            units: (n as u128) << drop,
        };
    }
    Near {
        code: B::top(),
        units: ((2 * lead - 1) as u128) << (B::SCALES - shift),
    }
}

// A magnitude with a sign.
fn with_sign(negative: bool, magnitude: u128) -> i128
    requires { magnitude < 2 ^ 127 }
    ensures value { result ≡ signed_by negative magnitude }
    ensures size { unsigned_abs result ≡ magnitude }
{
    let m = magnitude as i128;
    if negative { -m } else { m }
}

// What is left of a sum when so many units of its own sign are taken away.
fn left(sum: i128, units: u128) -> i128
    requires { (unsigned_abs sum < 2 ^ 126) × (units < 2 ^ 126) }
    ensures { result ≡ sum -ℤ signed_by (int_lt sum (pos 0)) units }
{
    if sum < 0 {
        sum + units as i128
    } else {
        sum - units as i128
    }
}

// The pattern of the number nearest to a sum in units of 2^shift, and how many of the units it leaves.
fn nearest<B: Binary>(sum: i128, shift: u32) -> (u64, i128)
    requires { (unsigned_abs sum < 2 ^ 110) × (shift ≤ B.Binary.format.scales) }
    ensures pattern { result.0 ≡ nearest_of B.Binary.format (sum *ℤ pos (2 ^ shift)) }
    ensures rest { result.1 *ℤ pos (2 ^ shift) ≡ sum *ℤ pos (2 ^ shift) -ℤ nearest B.Binary.format (sum *ℤ pos (2 ^ shift)) }
    ensures size { unsigned_abs result.1 ≤ unsigned_abs sum }
{
    let found = nearest_to::<B>(sum.unsigned_abs(), shift);
    (signed::<B>(sum < 0, found.code), left(sum, found.units))
}

// The number nearest to a sum, and the one that remains.
fn settled<B: Binary>(sum: i128, shift: u32) -> (u64, u64)
    requires { (unsigned_abs sum < 2 ^ 110) × (shift ≤ B.Binary.format.scales) }
    ensures { Settled B.Binary.format (sum *ℤ pos (2 ^ shift)) result.0 result.1 }
{
    let (pattern, rest) = nearest::<B>(sum, shift);
    (pattern, nearest::<B>(rest, shift).0)
}

// The adder on worths, of which the first has the greater shift. That they are canonical stays a clause: a type of such worths would be made and taken apart between two calls.
fn joined<B: Binary>(x: Scaled, y: Scaled) -> (u64, u64)
    requires first { Canonical B.Binary.format x.magnitude x.shift }
    requires second { Canonical B.Binary.format y.magnitude y.shift }
    requires order { y.shift ≤ x.shift }
    ensures { Settled B.Binary.format (meant x +ℤ meant y) result.0 result.1 }
{
    let gap = x.shift - y.shift;
    if gap > B::FRACTION + 2 {
        return (written::<B>(x), written::<B>(y));
    }
    let sum = with_sign(x.negative, (x.magnitude as u128) << gap)
        + with_sign(y.negative, y.magnitude as u128);
    settled::<B>(sum, y.shift)
}

// The adder on worths.
fn summed<B: Binary>(x: Scaled, y: Scaled) -> (u64, u64)
    requires first { Canonical B.Binary.format x.magnitude x.shift }
    requires second { Canonical B.Binary.format y.magnitude y.shift }
    ensures { Settled B.Binary.format (meant x +ℤ meant y) result.0 result.1 }
{
    // One call, which the compiler takes in: of two it makes a function of its own, and hands it the worths in memory.
    let (first, second) = if y.shift <= x.shift { (x, y) } else { (y, x) };
    joined::<B>(first, second)
}

/// The number nearest to the sum of two, and the number that remains of it.
pub fn add<B: Binary>(a: u64, b: u64) -> (u64, u64)
    requires { (T (is_number B.Binary.format a)) × (T (is_number B.Binary.format b)) }
    ensures value { result ≡ adder (binary B.Binary.format) a b }
    ensures relation { Sums B.Binary.format a b result.0 result.1 }
{
    summed::<B>(worth::<B>(a), worth::<B>(b))
}
