ghost use Rattle.std.specs.Prelude.{◌+◌, ◌≤◌, T, length, take, All};
ghost use Rattle.std.proofs.Props.{props};

use accounts::account::Account;
use kinds::kind::Kind;
use std::marker::PhantomData;

/// A table of up to sixteen kept entries, the oldest first. Words from `len` on mean nothing.
// No `ArrayVec`, whose clauses see its items and not these words: a refused entry leaves every word.
#[derive(Drop)]
pub struct Tray {
    pub(crate) kept: [u64; 16],
    pub(crate) len: usize,
    ghost few: { len ≤ 16 },
}

/// A layer that keeps up to sixteen accepted entries, the oldest first, before it hands them down.
#[derive(Drop)]
pub struct Staged<K: Kind, A: Account<K>> {
    pub(crate) below: A,
    pub(crate) tray: Tray,
    pub(crate) kind: PhantomData<K>,
    ghost numbers: { All (λ p. T (K.Kind.number p)) (take tray.len tray.kept) } by { Prim.hlevel props },
    ghost within: { (A.Account.meaning below).entries + length (take tray.len tray.kept) ≤ (A.Account.meaning below).limit },
}

// A `PhantomData` of the kind owns nothing: a staged account crosses threads as the account below does, whatever the kind.
unsafe impl<K: Kind, A: Account<K> + Send> Send for Staged<K, A> {}

unsafe impl<K: Kind, A: Account<K> + Sync> Sync for Staged<K, A> {}
