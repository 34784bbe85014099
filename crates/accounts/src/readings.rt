//! What two accounts read: equal exact sums read alike, whatever the accounts are made of and whichever order their entries had.
ghost use Rattle.std.specs.Prelude.{◌≡◌, ℕ, List, ℤ};
ghost use Rattle.std.specs.Iterator.{Drains, IsFinite};
ghost use Rattle.kinds.specs.Answer.{answered};
ghost use Rattle.accounts.specs.Entries.{sum_of, meant, entered_by, accepted, AnyOrder, Readings};
ghost use Rattle.accounts.specs.declared.readings.Entry.{Entry};

use crate::account::Account;
use kinds::kind::Kind;
use refusals::Refusal;

/// An entry for an account: a number that is posted or withdrawn, as its pattern.
#[derive(Clone, Copy, PartialEq, Eq, Debug)]
pub enum Entry {
    Post(u64),
    Withdraw(u64),
}

// Asks for one entry; a refused one leaves the account as it is.
#[tactic(auto, using(crate::proofs::Entries::entered_means))]
fn enter<K: Kind, A: Account<K>>(account: &mut A, entry: Entry)
    ensures { (most : ℕ) (ws : List ℤ) → A.Account.meaning account.old ≡ meant most ws → A.Account.meaning account.new ≡ meant most (entered_by K.Kind most ws entry) }
{
    let _ = match entry {
        Entry::Post(p) => account.post(p),
        Entry::Withdraw(p) => account.withdraw(p),
    };
}

/// Opens an account, asks it for the entries in their order, and reads it.
pub fn reading<K: Kind, A: Account<K> + Drop, I: Iterator<Item = Entry> + Drop>(
    setup: A::Setup,
    entries: I,
) -> Result<u64, Refusal>
    requires can { I.can_next entries }
    requires ends { IsFinite (I.remaining entries) }
    ensures { (es : List Entry) × Drains I.next_gives entries es × (result ≡ answered (K.Kind.outcome (sum_of (accepted K.Kind (A.Account.agreed setup) es)))) }
{
    let mut account = A::open(setup);
    for entry in entries {
        enter::<K, A>(&mut account, entry);
    }
    account.read()
}

/// Opens two accounts of one kind, asks each for its entries in their order, and reads both.
#[tactic(auto, using(crate::proofs::Entries::any_order_lem))]
pub fn readings<K: Kind, A: Account<K> + Drop, B: Account<K> + Drop>(
    one: A::Setup,
    first: &[Entry],
    other: B::Setup,
    second: &[Entry],
) -> (Result<u64, Refusal>, Result<u64, Refusal>)
    ensures alike { Readings K.Kind (A.Account.agreed one) (B.Account.agreed other) first.now second.now result.0 result.1 }
    ensures order { AnyOrder }
{
    (
        reading::<K, A, _>(one, first.iter().copied()),
        reading::<K, B, _>(other, second.iter().copied()),
    )
}
