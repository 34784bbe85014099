//! What is asked of a ledger, and what it answers where it grants that.

/// The side of a ledger: the left or the right piste.
#[derive(Clone, Copy, PartialEq, Eq, Debug)]
pub enum Side {
    Left,
    Right,
}

/// A visit: one call on a ledger, given as data. A number stands as its pattern.
#[derive(Clone, Copy, PartialEq, Eq, Debug)]
pub enum Visit {
    Post(Side, u64),
    Withdraw(Side, u64),
    Take(Side, u64),
    Put(Side),
    WriteOff,
    Read(Side),
}

/// What a granted visit is answered: that it is done, a number, or the number that was written off.
#[derive(Clone, Copy, PartialEq, Eq, Debug)]
pub enum Reply {
    Done,
    Number(u64),
    Off(u64),
}
