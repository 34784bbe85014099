//! The ledger's calls.
ghost use Rattle.std.specs.Prelude.{◌≡◌};
ghost use Rattle.accounts.specs.Meaning.{fresh, after_post, after_withdraw, read_answer};
ghost use Rattle.books.specs.Both.{at, on_side};
ghost use Rattle.books.specs.Blade.{TakeAnswer, PutAnswer};
ghost use Rattle.books.specs.Meant.{both_of, side_answer, LedgerOpens, EntryLeaves, Asked, ReadLeaves};

use crate::blade::{EmptyBlade, LoadedBlade};
use crate::ledger::Ledger;
use crate::visit::Side;
use accounts::account::Account;
use kinds::kind::Kind;
use refusals::Refusal;
use std::marker::PhantomData;

// A match on the side in each call: the accounts are of two types, and `Account` is not made for `dyn`.
impl<K: Kind, L: Account<K>, R: Account<K>> Ledger<K, L, R> {
    /// A fresh ledger, with nothing in its accounts, and its empty blade.
    pub fn open(left: L::Setup, right: R::Setup) -> (Ledger<K, L, R>, EmptyBlade)
        ensures fresh { both_of L.Account R.Account result.0 ≡ record { left = fresh (L.Account.agreed left); right = fresh (R.Account.agreed right) } }
        ensures opened { LedgerOpens L.Account R.Account left right result.0 }
    {
        let ledger = Ledger {
            left: L::open(left),
            right: R::open(right),
            kind: PhantomData,
        };
        (ledger, EmptyBlade { mark: () })
    }

    /// Posts a number on one side.
    pub fn post(&mut self, side: Side, p: u64) -> Result<(), Refusal>
        ensures answer { result ≡ side_answer K.Kind L.Account R.Account side p self.old }
        ensures after { both_of L.Account R.Account self.new ≡ on_side side (after_post K.Kind p) (both_of L.Account R.Account self.old) }
        ensures leaves { EntryLeaves L.Account R.Account side p self.old self.new result }
    {
        match side {
            Side::Left => self.left.post(p),
            Side::Right => self.right.post(p),
        }
    }

    /// Withdraws a number from one side.
    pub fn withdraw(&mut self, side: Side, p: u64) -> Result<(), Refusal>
        ensures answer { result ≡ side_answer K.Kind L.Account R.Account side p self.old }
        ensures after { both_of L.Account R.Account self.new ≡ on_side side (after_withdraw K.Kind p) (both_of L.Account R.Account self.old) }
        ensures leaves { EntryLeaves L.Account R.Account side (K.Kind.opposite p) self.old self.new result }
    {
        match side {
            Side::Left => self.left.withdraw(p),
            Side::Right => self.right.withdraw(p),
        }
    }

    /// Reads one side.
    pub fn read(&mut self, side: Side) -> Result<u64, Refusal>
        ensures answer { result ≡ read_answer K.Kind (at side (both_of L.Account R.Account self.old)) }
        ensures after { both_of L.Account R.Account self.new ≡ both_of L.Account R.Account self.old }
        ensures leaves { ReadLeaves L.Account R.Account side self.old self.new }
    {
        match side {
            Side::Left => self.left.read(),
            Side::Right => self.right.read(),
        }
    }

    /// Withdraws a number from one side and loads it.
    pub fn take(
        &mut self,
        side: Side,
        blade: EmptyBlade,
        p: u64,
    ) -> Result<LoadedBlade, (EmptyBlade, Refusal)>
        ensures answer { TakeAnswer p (side_answer K.Kind L.Account R.Account side p self.old) result }
        ensures after { both_of L.Account R.Account self.new ≡ on_side side (after_withdraw K.Kind p) (both_of L.Account R.Account self.old) }
        ensures leaves { Asked K.Kind L.Account R.Account side p (K.Kind.opposite p) self.old self.new }
    {
        self.withdraw(side, p)
            .map(|()| LoadedBlade { pattern: p })
            .map_err(|why| (blade, why))
    }

    /// Posts the load on one side.
    pub fn put(
        &mut self,
        side: Side,
        blade: LoadedBlade,
    ) -> Result<EmptyBlade, (LoadedBlade, Refusal)>
        ensures answer { PutAnswer blade.pattern (side_answer K.Kind L.Account R.Account side blade.pattern self.old) result }
        ensures after { both_of L.Account R.Account self.new ≡ on_side side (after_post K.Kind blade.pattern) (both_of L.Account R.Account self.old) }
        ensures leaves { Asked K.Kind L.Account R.Account side blade.pattern blade.pattern self.old self.new }
    {
        let LoadedBlade { pattern } = blade;
        self.post(side, pattern)
            .map(|()| EmptyBlade { mark: () })
            .map_err(|why| (LoadedBlade { pattern }, why))
    }

    /// How many entries one side has accepted.
    pub fn entries(&self, side: Side) -> u32
        ensures { result ≡ (at side (both_of L.Account R.Account self.now)).entries }
    {
        match side {
            Side::Left => self.left.entries(),
            Side::Right => self.right.entries(),
        }
    }
}
