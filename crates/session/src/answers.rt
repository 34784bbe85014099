//! What a line is answered.
ghost use Rattle.std.specs.Prelude.{◌≡◌, ◌≤◌, Some};
ghost use Rattle.accounts.specs.Exact.{exact_meaning};
ghost use Rattle.session.specs.Agree.{Agrees, Stands, Standing, meant};
ghost use Rattle.session.specs.Book.{Book, told, opened, digits_of, digits, entries, answer_to, heard};
ghost use Rattle.session.specs.Logbook.{Logbook, answer_of, after};

use crate::books::Books;
use crate::session::Session;
use accounts::account::Account;
use accounts::register_account::RegisterAccount;
use binary::format::{Binary32, Binary64};
use forms::reads::{read_kind, read_visit};
use forms::words::{KindName, Reply, Visit};
use kinds::count::Count;
use kinds::kind::Kind;
use refusals::Refusal;

// Visits an account whose numbers are of the kind.
#[tactic(auto, using(accounts::proofs::Entries::meant_push))]
fn visit<K: Kind>(left: &mut RegisterAccount, v: Visit) -> Result<Reply, Refusal>
    ensures { (b : Logbook) → exact_meaning left.old ≡ meant b → (result ≡ answer_of K.Kind v b) × (exact_meaning left.new ≡ meant (after K.Kind v b)) }
{
    match v {
        Visit::Post(_, p) => Account::<K>::post(left, p).map(|()| Reply::Done),
        Visit::Withdraw(_, p) => Account::<K>::withdraw(left, p).map(|()| Reply::Done),
        Visit::Read(_) => Account::<K>::read(left).map(Reply::Number),
    }
}

impl Books {
    // The books of a kind, with nothing in them. A fresh register account is the same for every kind.
    fn open(kind: KindName) -> Books
        ensures { Agrees (Some result) (told kind opened) }
    {
        Books {
            kind,
            left: <RegisterAccount as Account<Count>>::open(()),
        }
    }

    // Answers a whole line.
    fn hear(&mut self, line: &[u8]) -> Result<Reply, Refusal>
        ensures { (b : Book) → Agrees (Some self.old) b → Agrees (Some self.new) (heard b line.now) × (result ≡ answer_to b line.now) }
    {
        let v = read_visit(self.digits(), line).ok_or(Refusal::NotAForm)?;
        match self.kind {
            KindName::Binary64 => visit::<Binary64>(&mut self.left, v),
            KindName::Binary32 => visit::<Binary32>(&mut self.left, v),
            KindName::Count => visit::<Count>(&mut self.left, v),
        }
    }

    // The digits of a number.
    fn digits(&self) -> usize
        ensures few { result ≤ 16 }
        ensures value { result ≡ digits_of self.now.kind }
    {
        match self.kind {
            KindName::Binary64 => 16,
            KindName::Binary32 | KindName::Count => 8,
        }
    }

    // The left account's entries, counted alike for every kind.
    fn entries(&self) -> u32
        ensures { result ≡ (exact_meaning self.now.left).entries }
    {
        Account::<Count>::entries(&self.left)
    }
}

impl Session {
    // The digits of a number.
    pub(crate) fn digits(&self) -> usize
        ensures few { result ≤ 16 }
        ensures value { Standing self.now (λ b _. result ≡ digits b) }
    {
        match &self.books {
            Some(books) => books.digits(),
            None => 8,
        }
    }

    // The left account's entries.
    pub(crate) fn entries(&self) -> u32
        ensures { Standing self.now (λ b _. result ≡ entries b) }
    {
        match &self.books {
            Some(books) => books.entries(),
            None => 0,
        }
    }

    // The answer to the line, which has ended.
    pub(crate) fn answer(&mut self) -> Result<Reply, Refusal>
        ensures answers { Standing self.old (λ b line. Stands self.new (heard b line) line × (result ≡ answer_to b line)) }
        ensures line { self.new.line ≡ self.old.line }
    {
        match &mut self.books {
            Some(books) => books.hear(self.line.as_slice()),
            None => {
                let kind = read_kind(self.line.as_slice()).ok_or(Refusal::NotAForm)?;
                self.books = Some(Books::open(kind));
                Ok(Reply::Done)
            }
        }
    }
}
