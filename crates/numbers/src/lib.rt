//! The theory of number formats: the nearest number, outcomes, what an adder leaves over, and the laws of every kind.
//! It has no arithmetic of its own; each public function exists to carry a theorem on its contract.
#![tactic(auto)]

ghost use Rattle.numbers.specs.Format.{Format};
ghost use Rattle.numbers.specs.Coding.{Coding};
ghost use Rattle.numbers.specs.Theorems.{OneNearest, OrderedOutcomes, HeldRemainder, LawfulCoding};

mod proved;

/// Every whole number has exactly one nearest number in a format, and it is the computed one.
pub fn nearest_is_one()
    ensures { (f : Format) → OneNearest f }
{
    proved::one_nearest();
}

/// A sum's outcome is its nearest number, or above or below from the edge on, and a greater sum never has a lesser outcome.
pub fn outcomes_keep_order()
    ensures { (f : Format) → OrderedOutcomes f }
{
    proved::ordered_outcomes();
}

/// What the nearest number leaves of the sum of two numbers is held, and no greater than either.
pub fn remainder_is_held()
    ensures { (f : Format) → HeldRemainder f }
{
    proved::held_remainder();
}

/// Whoever writes a format's numbers as patterns and reads them back has a kind with all its laws.
pub fn codings_are_lawful()
    ensures { (k : Coding) → LawfulCoding k }
{
    proved::lawful_coding();
}
