ghost use Rattle.std.specs.Prelude.{◌≡◌, ℕ, ◌^◌, ◌<◌, ◌≤◌};
ghost use Rattle.accounts.specs.Meaning.{Meaning, fresh, entry_answer, after_post, after_withdraw, read_answer, Leaves};

use kinds::kind::Kind;
use refusals::Refusal;

/// An account of a kind of number. It means a total, a number of entries and a limit, and its calls are told by the meaning alone; what else keeps it sound its type says.
/// What it promises beyond the meaning it says by `opens`, `enters` and `reads`: what a fresh account is, what one granted entry makes of an account, and what a reading leaves of it.
pub trait Account<K: Kind>: Sized {
    /// What a fresh account is told.
    type Setup: Drop;

    ghost meaning: { Self → Meaning };

    // The limit that a fresh account has by what it is told.
    ghost agreed: { Self.Setup → ℕ };

    ghost opens: { Self.Setup → Self → Type 0 };

    ghost enters: { Self → ℕ → Self → Type 0 };

    ghost reads: { Self → Self → Type 0 };

    /// A fresh account, with nothing in it.
    fn open(setup: Self::Setup) -> Self
        ensures fresh { meaning result ≡ fresh (agreed setup) }
        ensures opened { opens setup result };

    /// Adds the number's worth to the total and 1 to the entries.
    fn post(&mut self, p: u64) -> Result<(), Refusal>
        ensures answer { result ≡ entry_answer K.Kind p (meaning self.old) }
        ensures after { meaning self.new ≡ after_post K.Kind p (meaning self.old) }
        ensures leaves { Leaves (enters self.old p) self.old self.new result };

    // A call of its own by a rule of the project, though it differs from a post by one opposite.
    /// Takes the number's worth from the total and adds 1 to the entries: the number is accepted as its opposite.
    fn withdraw(&mut self, p: u64) -> Result<(), Refusal>
        ensures answer { result ≡ entry_answer K.Kind p (meaning self.old) }
        ensures after { meaning self.new ≡ after_withdraw K.Kind p (meaning self.old) }
        ensures leaves { Leaves (enters self.old (K.Kind.opposite p)) self.old self.new result };

    /// The outcome of the total.
    fn read(&mut self) -> Result<u64, Refusal>
        ensures answer { result ≡ read_answer K.Kind (meaning self.old) }
        ensures after { meaning self.new ≡ meaning self.old }
        ensures leaves { reads self.old self.new };

    /// How many entries were accepted.
    fn entries(&self) -> u32
        ensures { result ≡ (meaning self.now).entries };

    /// How many entries are accepted at most.
    fn limit(&self) -> u32
        ensures { result ≡ (meaning self.now).limit };

    ghost limited: { (s : Self) → ((meaning s).limit < 2 ^ 32) × ((meaning s).entries ≤ (meaning s).limit) };
}
