ghost use Rattle.std.specs.Prelude.{◌≤◌};

use accounts::account::Account;
use kinds::kind::Kind;
use std::marker::PhantomData;

/// A layer that lowers the limit: the smaller of its own and the limit below.
#[derive(Drop)]
pub struct Quota<K: Kind, A: Account<K>> {
    pub(crate) below: A,
    pub(crate) most: u32,
    pub(crate) kind: PhantomData<K>,
    ghost few: { (A.Account.meaning below).entries ≤ most },
}

// A `PhantomData` of the kind owns nothing: a quota crosses threads as the account below does, whatever the kind.
unsafe impl<K: Kind, A: Account<K> + Send> Send for Quota<K, A> {}

unsafe impl<K: Kind, A: Account<K> + Sync> Sync for Quota<K, A> {}

/// What a fresh quota is told: how many entries it accepts at most, and what the account below is told.
#[derive(Drop)]
pub struct QuotaSetup<S> {
    pub most: u32,
    pub below: S,
}
