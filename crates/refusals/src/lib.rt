//! Why a call says no: one case for each reason, told by its number and its place.
#![tactic(auto)]

ghost use Rattle.std.specs.Prelude.{◌≡◌};
ghost use Rattle.refusals.specs.Told.{told};

/// A reason to refuse a call. Where several things were asked about, it has the place of the first that failed, counted from 0.
#[derive(Clone, Copy, PartialEq, Eq, Debug)]
pub enum Refusal {
    /// The pattern is no number of the kind.
    NotANumber,
    /// The entries have reached the account's limit.
    Full,
    /// The outcome lies above the kind's range.
    AboveRange,
    /// The outcome lies below the kind's range.
    BelowRange,
    /// The blade is loaded where it should be empty.
    BladeLoaded,
    /// The blade is empty where it should be loaded.
    BladeEmpty,
    /// There are too few or too many items.
    WrongCount,
    /// The slot at this place holds no number.
    SlotNotANumber(usize),
    /// The column is shorter than the slots.
    ColumnTooShort,
    /// The plan has not the number of bytes that its slots ask for.
    WrongPlanLength,
    /// No plan begins with more than this many bytes of the text.
    NotAPlan(usize),
    /// The register at this place is out of the range that a fleet total takes.
    RegisterTooLarge(usize),
    /// The budget is too large.
    BudgetTooLarge,
    /// The line is no form, or none in its turn.
    NotAForm,
}

impl Refusal {
    // In the code a refusal is its case. That it tells a number and a place, 0 where it has none, is a rule of the project: lines and exported calls tell the number.
    /// The number of the question that was answered no.
    pub fn number(&self) -> u8
        ensures { result ≡ (told self.now).number }
    {
        match self {
            Refusal::NotANumber => 1,
            Refusal::Full => 2,
            Refusal::AboveRange => 3,
            Refusal::BelowRange => 4,
            Refusal::BladeLoaded => 5,
            Refusal::BladeEmpty => 6,
            Refusal::WrongCount => 7,
            Refusal::SlotNotANumber(_) => 8,
            Refusal::ColumnTooShort => 9,
            Refusal::WrongPlanLength => 10,
            Refusal::NotAPlan(_) => 11,
            Refusal::RegisterTooLarge(_) => 12,
            Refusal::BudgetTooLarge => 13,
            Refusal::NotAForm => 14,
        }
    }

    /// The place that the refusal names, and 0 where it names none.
    pub fn place(&self) -> usize
        ensures { result ≡ (told self.now).place }
    {
        match self {
            Refusal::SlotNotANumber(at) | Refusal::NotAPlan(at) | Refusal::RegisterTooLarge(at) =>
                *at,
            _ => 0,
        }
    }
}
