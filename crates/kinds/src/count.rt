//! The kind count: whole litres in 32 bits.
ghost use Rattle.std.specs.Prelude.{◌≡◌, ◌^◌, ◌<◌, unsigned_abs};
ghost use Rattle.numbers.specs.Coding.{opposite, adder, outcome};
ghost use Rattle.kinds.specs.Count.{counts};
ghost use Rattle.numbers.proofs.Laws;
ghost use Rattle.kinds.specs.Counting.{codes};

use crate::kind::Kind;
use crate::range::past;
use refusals::Refusal;
use register::{Register, Scaled};

/// Litres in two's complement. Every pattern of 32 bits is a number but 80000000, the sensor's mark for no echo.
pub struct Count;

// The greatest worth.
const TOP: i64 = i32::MAX as i64;

// What a pattern of 32 bits says.
#[tactic(auto, using(crate::specs::Counting::worth_is))]
fn signed(p: u64) -> i64
    requires { p < 2 ^ 32 }
    ensures { result ≡ counts.worth p }
{
    i64::from((p as u32).cast_signed())
}

#[tactic(auto, using(crate::specs::Counting::pattern_is))]
fn pattern(z: i64) -> u64
    requires { unsigned_abs z < 2 ^ 31 }
    ensures { result ≡ counts.pattern z }
{
    u64::from((z as i32).cast_unsigned())
}

impl Kind for Count {
    ghost number = { counts.number };

    ghost worth = { counts.worth };

    ghost opposite = { opposite counts };

    ghost adder = { adder counts };

    ghost outcome = { outcome counts };

    ghost lawful = { Laws.lawful counts codes };

    fn is_number(p: u64) -> bool {
        p < 0x1_0000_0000 && p != 0x8000_0000
    }

    #[tactic(auto, using(crate::specs::Counting::counting))]
    fn worth(p: u64) -> Scaled {
        let z = signed(p);
        Scaled {
            negative: z < 0,
            magnitude: z.unsigned_abs(),
            shift: 0,
        }
    }

    #[tactic(auto, using(crate::specs::Counting::counting))]
    fn opposite(p: u64) -> u64 {
        pattern(-signed(p))
    }

    #[tactic(auto, using(crate::specs::Counting::counting))]
    fn add(a: u64, b: u64) -> (u64, u64) {
        let total = signed(a) + signed(b);
        let sum = total.clamp(-TOP, TOP);
        (pattern(sum), pattern(total - sum))
    }

    #[tactic(auto, using(crate::specs::Counting::counting))]
    fn outcome(sum: &Register) -> Result<u64, Refusal> {
        let negative = sum.is_negative();
        let magnitude = sum.magnitude();
        if magnitude.bit_length() > 31 {
            return Err(past(negative));
        }
        // Both answers by name: of a signed word that two branches set, the proof has the bits and not the value.
        let z = magnitude.window(0) as i64;
        if negative {
            Ok(pattern(-z))
        } else {
            Ok(pattern(z))
        }
    }
}
