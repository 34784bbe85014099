//! The quota's calls.
ghost use Rattle.std.specs.Prelude.{◌≡◌, ◌≤◌};
ghost use Rattle.accounts.specs.Meaning.{questions};
ghost use Rattle.layers.specs.Quota.{quota};
ghost use Rattle.std.proofs.Common.{rules};

use crate::quota::{Quota, QuotaSetup};
use accounts::account::Account;
use accounts::asked::asked;
use kinds::kind::Kind;
use refusals::Refusal;
use std::marker::PhantomData;

impl<K: Kind, A: Account<K>> Quota<K, A> {
    // The two questions of an entry, with the quota for the limit.
    fn within(&self, p: u64) -> Result<(), Refusal>
        ensures { result ≡ questions K.Kind p (A.Account.meaning self.now.below).entries self.now.most }
    {
        asked::<K>(p, self.below.entries(), self.most)
    }

    /// The same quota, for numbers of another kind that the account below keeps too: by that kind as well it has to have no more entries than the quota.
    pub fn of_kind<J: Kind>(self) -> Quota<J, A>
    where
        A: Account<J>,
        requires few { (A.Account-2.meaning self.below).entries ≤ self.most }
        ensures below { result.below ≡ self.below }
        ensures most { result.most ≡ self.most }
    {
        Quota {
            below: self.below,
            most: self.most,
            kind: PhantomData,
        }
    }
}

impl<K: Kind, A: Account<K>> Account<K> for Quota<K, A> {
    type Setup = QuotaSetup<A::Setup>;

    ghost meaning = { (quota K.Kind A.Account).meaning };

    ghost agreed = { (quota K.Kind A.Account).agreed };

    ghost opens = { (quota K.Kind A.Account).opens };

    ghost enters = { (quota K.Kind A.Account).enters };

    ghost reads = { (quota K.Kind A.Account).reads };

    ghost limited = { Prim.search rules };

    fn open(setup: QuotaSetup<A::Setup>) -> Quota<K, A> {
        let QuotaSetup { most, below } = setup;
        Quota {
            below: A::open(below),
            most,
            kind: PhantomData,
        }
    }

    #[tactic(auto, using(crate::proofs::Passed::quota_leaves))]
    fn post(&mut self, p: u64) -> Result<(), Refusal> {
        self.within(p)?;
        self.below.post(p)
    }

    #[tactic(auto, using(crate::proofs::Passed::quota_leaves))]
    fn withdraw(&mut self, p: u64) -> Result<(), Refusal> {
        self.within(p)?;
        self.below.withdraw(p)
    }

    fn read(&mut self) -> Result<u64, Refusal> {
        self.below.read()
    }

    fn entries(&self) -> u32 {
        self.below.entries()
    }

    fn limit(&self) -> u32 {
        self.below.limit().min(self.most)
    }
}
