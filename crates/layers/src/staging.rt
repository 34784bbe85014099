//! How entries are kept, and how they are handed down.
ghost use Rattle.std.specs.Prelude.{◌≡◌, ◌<◌, T, length, Ok};
ghost use Rattle.accounts.specs.Meaning.{with_entry, read_answer};
ghost use Rattle.layers.specs.Tray.{entries_kept};
ghost use Rattle.layers.specs.Staged.{staged_meaning, HandedDown, Roomy, StagedEnters, StagedReads};

use crate::staged::Staged;
use accounts::account::Account;
use kinds::kind::Kind;
use refusals::Refusal;

impl<K: Kind, A: Account<K>> Staged<K, A> {
    // Posts the kept entries below, in the order in which they came. By a rule of the project a refusal below comes up by `?`, and each of these functions tells that none does.
    fn hand_down(&mut self) -> Result<(), Refusal>
        ensures answer { result ≡ Ok tt }
        ensures after { staged_meaning K.Kind A.Account self.new ≡ staged_meaning K.Kind A.Account self.old }
        ensures handed { HandedDown K.Kind A.Account self.old self.new }
    {
        let tray = self.tray.take();
        for i in 0..tray.count() {
            self.below.post(tray.entry(i))?;
        }
        Ok(())
    }

    // Hands the entries down where sixteen are kept.
    fn make_room(&mut self) -> Result<(), Refusal>
        ensures answer { result ≡ Ok tt }
        ensures after { staged_meaning K.Kind A.Account self.new ≡ staged_meaning K.Kind A.Account self.old }
        ensures len { length (entries_kept self.new.tray) < 16 }
        ensures roomy { Roomy K.Kind A.Account self.old self.new }
    {
        if self.tray.count() == 16 {
            self.hand_down()
        } else {
            Ok(())
        }
    }

    // Keeps an accepted entry.
    pub(crate) fn keep(&mut self, p: u64) -> Result<(), Refusal>
        requires number { T (K.Kind.number p) }
        requires within { (staged_meaning K.Kind A.Account self.old).entries < (staged_meaning K.Kind A.Account self.old).limit }
        ensures answer { result ≡ Ok tt }
        ensures after { staged_meaning K.Kind A.Account self.new ≡ with_entry (K.Kind.worth p) (staged_meaning K.Kind A.Account self.old) }
        ensures kept { StagedEnters K.Kind A.Account self.old p self.new }
    {
        self.make_room()?;
        self.tray.push(p);
        Ok(())
    }

    // Reads the account below once nothing is kept.
    pub(crate) fn read_below(&mut self) -> Result<u64, Refusal>
        ensures answer { result ≡ read_answer K.Kind (staged_meaning K.Kind A.Account self.old) }
        ensures after { staged_meaning K.Kind A.Account self.new ≡ staged_meaning K.Kind A.Account self.old }
        ensures handed { StagedReads K.Kind A.Account self.old self.new }
    {
        self.hand_down()?;
        self.below.read()
    }
}
