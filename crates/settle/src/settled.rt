use refusals::Refusal;

/// What told an outcome.
#[derive(Clone, Copy, PartialEq, Eq, Debug)]
pub enum Teller {
    Test,
    Register,
}

/// What a settle comes to.
#[derive(Clone, Copy, PartialEq, Eq, Debug)]
pub struct Settled {
    /// A number, or the refusal that says it is above or below the range.
    pub outcome: Result<u64, Refusal>,
    /// How many passes were made.
    pub passes: u8,
    pub by: Teller,
}
