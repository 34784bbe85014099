//! The examples, each group proved by the lemmas of proofs/. The public call stands apart, so that an edit of it is refused for its meaning.
ghost use Rattle.cases.specs.Examples.{OfNumbers, OfSums, OfSettling};

pub(crate) fn of_numbers()
    ensures { OfNumbers }
{}

pub(crate) fn of_sums()
    ensures { OfSums }
{}

pub(crate) fn of_settling()
    ensures { OfSettling }
{}
