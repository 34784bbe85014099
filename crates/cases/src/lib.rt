//! The worked examples of docs/RULES.md, proved together.
#![tactic(auto)]

ghost use Rattle.cases.specs.Examples.{OfNumbers, OfSums, OfSettling};

mod proved;

/// The worked examples, all at once. The function exists to carry them on its contract.
pub fn worked_examples()
    ensures numbers { OfNumbers }
    ensures sums { OfSums }
    ensures settling { OfSettling }
{
    proved::of_numbers();
    proved::of_sums();
    proved::of_settling();
}
