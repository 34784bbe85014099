//! The binary kinds: numbers of 64 and of 32 bits, by one piece of code over the format.
ghost use Rattle.std.specs.Prelude.{◌≡◌, nat_le};
ghost use Rattle.std.specs.Bool.{then_some};
ghost use Rattle.numbers.specs.Binary.{binary};
ghost use Rattle.numbers.specs.Coding.{opposite, adder, outcome};
ghost use Rattle.register.specs.Value.{value, bits};
ghost use Rattle.binary.specs.Layout.{top_code};
ghost use Rattle.kinds.specs.Answer.{answered};
ghost use Rattle.kinds.specs.Range.{code_in_range};
ghost use Rattle.numbers.proofs.Binary.{codes};
ghost use Rattle.numbers.proofs.Laws;

use crate::kind::Kind;
use crate::range::past;
use binary::format::{Binary, Float};
use binary::{adder, patterns};
use refusals::Refusal;
use register::{Register, Scaled};

// A pattern without a sign, if it is a number's.
fn in_range<B: Binary>(code: u64) -> Option<u64>
    ensures { result ≡ then_some (nat_le code (top_code B.Binary.format)) code }
{
    patterns::fits::<B>(code).then_some(code)
}

// The pattern of the number nearest to a magnitude, if that is in range.
#[tactic(auto, using(crate::proofs::Ranges::ranges))]
fn rounded<B: Binary>(m: &Register) -> Option<u64>
    ensures { result ≡ code_in_range B.Binary.format (bits m.now) }
{
    let digits = B::FRACTION + 1;
    let size = m.bit_length();
    if size <= digits {
        return Some(m.window(0));
    }
    let at = size - digits;
    if at > B::SCALES {
        return None;
    }
    in_range::<B>(at as u64 * B::lead() + m.rounded_at(at))
}

// What a sum reads.
#[tactic(auto, using(crate::proofs::Ranges::readings))]
fn read<B: Binary>(sum: &Register) -> Result<u64, Refusal>
    ensures { result ≡ answered (outcome (binary B.Binary.format) (value sum.now)) }
{
    let negative = sum.is_negative();
    let code = rounded::<B>(&sum.magnitude()).ok_or(past(negative))?;
    Ok(patterns::signed::<B>(negative, code))
}

// For a format's own type, and not for every `Binary`: that impl might fit `Count` too, and the check would refuse a function that names slips of `Count`.
impl<B: Binary> Kind for Float<B> {
    ghost number = { (binary B.Binary.format).number };

    ghost worth = { (binary B.Binary.format).worth };

    ghost opposite = { opposite (binary B.Binary.format) };

    ghost adder = { adder (binary B.Binary.format) };

    ghost outcome = { outcome (binary B.Binary.format) };

    ghost lawful = { let f = B.Binary.format in
        let lay = B.Binary.layout in
        Laws.lawful (binary f) (codes f lay.binary lay.low) };

    fn is_number(p: u64) -> bool {
        patterns::is_number::<B>(p)
    }

    fn worth(p: u64) -> Scaled {
        patterns::worth::<B>(p)
    }

    fn opposite(p: u64) -> u64 {
        patterns::opposite::<B>(p)
    }

    fn add(a: u64, b: u64) -> (u64, u64) {
        adder::add::<B>(a, b)
    }

    fn outcome(sum: &Register) -> Result<u64, Refusal> {
        read::<B>(sum)
    }
}
