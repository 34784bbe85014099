//! A whole list of visits, and the theorem of the ledger.
ghost use Rattle.std.specs.Prelude.{IfOk};
ghost use Rattle.books.specs.Agree.{Agrees};
ghost use Rattle.books.specs.Logbook.{blank, after_all};
ghost use Rattle.books.specs.Theorem.{LedgerTheorem};

use crate::blade::Blade;
use crate::finished::Finished;
use crate::ledger::Ledger;
use crate::visit::Visit;
use accounts::account::Account;
use kinds::kind::Kind;
use std::alloc::{AllocError, Global};

/// Opens a ledger and makes the visits. Where there is no memory for the answers, nothing is opened.
#[tactic(auto, using(std::proofs::lemmas::Grind::common_steps, crate::proofs::Scans::scan_append))]
pub fn run<K: Kind, L: Account<K>, R: Account<K>>(
    heap: Global,
    left: L::Setup,
    right: R::Setup,
    visits: &[Visit],
) -> Result<Finished<K, L, R>, AllocError>
    ensures agrees { IfOk result (λ f. Agrees L.Account R.Account f.ledger f.blade (after_all K.Kind visits.now (blank (L.Account.agreed left) (R.Account.agreed right)))) }
    ensures theorem { IfOk result (λ f. LedgerTheorem K.Kind L.Account R.Account (blank (L.Account.agreed left) (R.Account.agreed right)) visits.now f.ledger f.blade f.answers.items) }
{
    // Room for every answer first: a push that failed in between would let a loaded blade go.
    let mut answers = Vec::with_capacity(heap, visits.len())?;
    let (mut ledger, empty) = Ledger::<K, L, R>::open(left, right);
    let mut blade = Blade::Empty(empty);
    for v in visits {
        let (next, answer) = ledger.visit(blade, *v);
        blade = next;
        answers.push_reserved(answer);
    }
    Ok(Finished {
        ledger,
        blade,
        answers,
    })
}
