//! The theorems, each proved by the lemmas of proofs/. The public calls stand apart, so that an edit of one is refused for its meaning.
ghost use Rattle.numbers.specs.Format.{Format};
ghost use Rattle.numbers.specs.Coding.{Coding};
ghost use Rattle.numbers.specs.Theorems.{OneNearest, OrderedOutcomes, HeldRemainder, LawfulCoding};

pub(crate) fn one_nearest()
    ensures { (f : Format) → OneNearest f }
{}

pub(crate) fn ordered_outcomes()
    ensures { (f : Format) → OrderedOutcomes f }
{}

pub(crate) fn held_remainder()
    ensures { (f : Format) → HeldRemainder f }
{}

pub(crate) fn lawful_coding()
    ensures { (k : Coding) → LawfulCoding k }
{}
