ghost use Rattle.std.specs.Prelude.{◌≡◌, ℕ, Bool, T, ℤ};
ghost use Rattle.numbers.specs.Lawful.{Lawful};
ghost use Rattle.numbers.specs.Outcome.{Outcome};
ghost use Rattle.register.specs.Value.{value, meant};
ghost use Rattle.kinds.specs.Answer.{answered};

use refusals::Refusal;
use register::{Register, Scaled};

/// A kind of number: it says which bit patterns are numbers, and gives each a worth, a whole number of the kind's unit.
/// Code above a kind uses these calls and laws, and nothing else of it.
// A number stays a plain word: slots, columns and lines hold patterns, and a type of its own would be put on and taken off at each of them.
pub trait Kind {
    ghost number: { ℕ → Bool };

    ghost worth: { ℕ → ℤ };

    ghost opposite: { ℕ → ℕ };

    ghost adder: { ℕ → ℕ → ℕ × ℕ };

    ghost outcome: { ℤ → Outcome ℕ };

    /// Whether the pattern is a number.
    fn is_number(p: u64) -> bool
        ensures { result ≡ number p };

    /// What the number is worth, as a register adds it.
    fn worth(p: u64) -> Scaled
        requires { T (number p) }
        ensures { meant result ≡ worth p };

    /// The number of the negated worth.
    fn opposite(p: u64) -> u64
        requires { T (number p) }
        ensures { result ≡ opposite p };

    /// The nearest number to the sum of two, and the number that remains of it.
    fn add(a: u64, b: u64) -> (u64, u64)
        requires { (T (number a)) × (T (number b)) }
        ensures { result ≡ adder a b };

    /// What a sum reads: a number, or a refusal that says it is above or below the kind's range.
    fn outcome(sum: &Register) -> Result<u64, Refusal>
        ensures { result ≡ answered (outcome (value sum.now)) };

    ghost lawful: { Lawful number worth opposite adder outcome };
}
