//! The staged account's calls.
ghost use Rattle.std.specs.Prelude.{◌≡◌, ◌+◌, ◌≤◌, T, length, All};
ghost use Rattle.layers.specs.Tray.{entries_kept};
ghost use Rattle.layers.specs.Staged.{staged};
ghost use Rattle.std.proofs.Common.{rules};

use crate::staged::{Staged, Tray};
use accounts::account::Account;
use accounts::asked::asked;
use kinds::kind::Kind;
use refusals::Refusal;
use std::marker::PhantomData;

impl<K: Kind, A: Account<K>> Staged<K, A> {
    /// The same account, for numbers of another kind that the account below keeps too: what is kept has to be numbers of that kind as well, for which it has room by that kind.
    pub fn of_kind<J: Kind>(self) -> Staged<J, A>
    where
        A: Account<J>,
        requires numbers { All (λ p. T (J.Kind.number p)) (entries_kept self.tray) }
        requires within { (A.Account-2.meaning self.below).entries + length (entries_kept self.tray) ≤ (A.Account-2.meaning self.below).limit }
        ensures below { result.below ≡ self.below }
        ensures tray { result.tray ≡ self.tray }
    {
        Staged {
            below: self.below,
            tray: self.tray,
            kind: PhantomData,
        }
    }
}

impl<K: Kind, A: Account<K>> Account<K> for Staged<K, A> {
    type Setup = A::Setup;

    ghost meaning = { (staged K.Kind A.Account).meaning };

    ghost agreed = { (staged K.Kind A.Account).agreed };

    ghost opens = { (staged K.Kind A.Account).opens };

    ghost enters = { (staged K.Kind A.Account).enters };

    ghost reads = { (staged K.Kind A.Account).reads };

    ghost limited = { Prim.search rules };

    fn open(setup: A::Setup) -> Staged<K, A> {
        Staged {
            below: A::open(setup),
            tray: Tray::empty(),
            kind: PhantomData,
        }
    }

    fn post(&mut self, p: u64) -> Result<(), Refusal> {
        asked::<K>(p, self.entries(), self.limit())?;
        self.keep(p)
    }

    fn withdraw(&mut self, p: u64) -> Result<(), Refusal> {
        asked::<K>(p, self.entries(), self.limit())?;
        self.keep(K::opposite(p))
    }

    fn read(&mut self) -> Result<u64, Refusal> {
        self.read_below()
    }

    fn entries(&self) -> u32 {
        self.below.entries() + self.tray.count() as u32
    }

    fn limit(&self) -> u32 {
        self.below.limit()
    }
}
