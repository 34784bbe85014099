//! Visits: calls that come as data.
ghost use Rattle.std.specs.Prelude.{◌≡◌};
ghost use Rattle.books.specs.Logbook.{Logbook, answer_of, after};
ghost use Rattle.books.specs.Agree.{Agrees, load_of};
ghost use Rattle.books.specs.Leaves.{VisitLeaves};

use crate::blade::Blade;
use crate::ledger::Ledger;
use crate::visit::{Reply, Visit};
use accounts::account::Account;
use kinds::kind::Kind;
use refusals::Refusal;

impl<K: Kind, L: Account<K>, R: Account<K>> Ledger<K, L, R> {
    /// Makes one visit: the call that it asks for. Take, put and write off ask first what the blade carries.
    /// Whatever logbook the ledger and the blade agree with tells the answer, and they agree with it after the visit.
    #[tactic(auto, unfolding(crate::specs::Logbook::answer_of, crate::specs::Logbook::after))]
    pub fn visit(&mut self, blade: Blade, v: Visit) -> (Blade, Result<Reply, Refusal>)
        ensures leaves { VisitLeaves K.Kind L.Account R.Account v (load_of blade) self.old self.new }
        ensures follows { (b : Logbook) → Agrees L.Account R.Account self.old blade b → (result.1 ≡ answer_of K.Kind v b) × Agrees L.Account R.Account self.new result.0 (after K.Kind v b) }
    {
        match (v, blade) {
            (Visit::Post(side, p), blade) => (blade, self.post(side, p).map(|()| Reply::Done)),
            (Visit::Withdraw(side, p), blade) => {
                (blade, self.withdraw(side, p).map(|()| Reply::Done))
            }
            (Visit::Take(side, p), Blade::Empty(empty)) => match self.take(side, empty, p) {
                Ok(loaded) => (Blade::Loaded(loaded), Ok(Reply::Done)),
                Err((empty, why)) => (Blade::Empty(empty), Err(why)),
            },
            (Visit::Put(side), Blade::Loaded(loaded)) => match self.put(side, loaded) {
                Ok(empty) => (Blade::Empty(empty), Ok(Reply::Done)),
                Err((loaded, why)) => (Blade::Loaded(loaded), Err(why)),
            },
            (Visit::WriteOff, Blade::Loaded(loaded)) => {
                let (empty, p) = loaded.write_off::<K>();
                (Blade::Empty(empty), Ok(Reply::Off(p)))
            }
            (Visit::Read(side), blade) => (blade, self.read(side).map(Reply::Number)),
            (Visit::Take(..), loaded) => (loaded, Err(Refusal::BladeLoaded)),
            (Visit::Put(_) | Visit::WriteOff, empty) => (empty, Err(Refusal::BladeEmpty)),
        }
    }
}
