//! What the lines speak of. These are not the visits of `books`: a session has the left side and three calls today.

/// A kind that a session can be opened for.
#[derive(Clone, Copy, PartialEq, Eq, Debug)]
pub enum KindName {
    Binary64,
    Binary32,
    Count,
}

/// The piste that a line speaks of. The right one comes with its account.
#[derive(Clone, Copy, PartialEq, Eq, Debug)]
pub enum Side {
    Left,
}

/// What a line asks of the accounts. A number stands as the pattern that the line shows.
#[derive(Clone, Copy, PartialEq, Eq, Debug)]
pub enum Visit {
    Post(Side, u64),
    Withdraw(Side, u64),
    Read(Side),
}

/// What a granted line is answered: that it is done, or a number.
#[derive(Clone, Copy, PartialEq, Eq, Debug)]
pub enum Reply {
    Done,
    Number(u64),
}

/// The first word of a line that asks for a visit.
#[derive(Clone, Copy)]
pub(crate) enum Word {
    Post,
    Withdraw,
    Read,
}
