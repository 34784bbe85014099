//! Patterns and what they are worth.
ghost use Rattle.std.specs.Prelude.{◌≡◌, ◌<◌, T, nat_le};
ghost use Rattle.numbers.specs.Binary.{sign_bit, is_number, worth, pattern, binary, BinaryPatterns};
ghost use Rattle.numbers.specs.Coding.{opposite as opposite_of};
ghost use Rattle.register.specs.Value.{meant};
ghost use Rattle.binary.specs.Canonical.{Canonical};
ghost use Rattle.binary.specs.Layout.{signed_code, top_code};

use crate::format::Binary;
use register::Scaled;

/// Whether a pattern is a number: its exponent field is not all ones, and no bit above the sign is set.
#[tactic(auto, using(crate::proofs::Fields::fields))]
pub fn is_number<B: Binary>(p: u64) -> bool
    ensures { result ≡ is_number B.Binary.format p }
{
    let sign = B::sign_bit();
    p / 2 < sign && p % sign / B::lead() < B::SCALES as u64 + 2
}

/// What a number is worth, at the smallest scale that it has. Patterns and worths are inverse but for the negative zero, and a tie's even coefficient is a pattern that ends in a 0 bit.
#[tactic(auto, using(crate::proofs::Fields::parts))]
pub fn worth<B: Binary>(p: u64) -> Scaled
    requires { T (is_number B.Binary.format p) }
    ensures worth { meant result ≡ worth B.Binary.format p }
    ensures canonical { Canonical B.Binary.format result.magnitude result.shift }
    ensures patterns { BinaryPatterns B.Binary.format }
{
    let sign = B::sign_bit();
    let lead = B::lead();
    let negative = p >= sign;
    let field = p % sign / lead;
    let fraction = p % sign % lead;
    // A number with an exponent field of 0 has no leading 1.
    if field == 0 {
        return Scaled {
            negative,
            magnitude: fraction,
            shift: 0,
        };
    }
    Scaled {
        negative,
        magnitude: lead + fraction,
        shift: (field - 1) as u32,
    }
}

/// Whether a pattern without a sign is no more than the greatest number's.
pub fn fits<B: Binary>(code: u64) -> bool
    ensures { result ≡ nat_le code (top_code B.Binary.format) }
{
    code <= B::top()
}

// The sign is a field of the pattern, not a word that says whether there is one.
/// A pattern without a sign given one; zero takes none.
pub fn signed<B: Binary>(negative: bool, code: u64) -> u64
    requires { code < sign_bit B.Binary.format }
    ensures { result ≡ signed_code B.Binary.format negative code }
{
    if negative && code > 0 {
        B::sign_bit() + code
    } else {
        code
    }
}

// The pattern of a coefficient at a scale.
#[tactic(auto, using(crate::proofs::Joins::writes))]
pub(crate) fn written<B: Binary>(w: Scaled) -> u64
    requires { Canonical B.Binary.format w.magnitude w.shift }
    ensures { result ≡ pattern B.Binary.format (meant w) }
{
    signed::<B>(w.negative, w.shift as u64 * B::lead() + w.magnitude)
}

/// The pattern of the opposite number.
#[tactic(auto, using(crate::proofs::Signs::turned))]
pub fn opposite<B: Binary>(p: u64) -> u64
    requires { T (is_number B.Binary.format p) }
    ensures { result ≡ opposite_of (binary B.Binary.format) p }
{
    let mut w = worth::<B>(p);
    w.negative = !w.negative;
    written::<B>(w)
}
