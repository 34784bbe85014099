//! Readings by a settle.
ghost use Rattle.std.specs.Prelude.{◌≡◌};
ghost use Rattle.plans.specs.Plan.{IsPlan};
ghost use Rattle.accounts.specs.Meaning.{read_answer};
ghost use Rattle.slips.specs.Slips.{slips_meaning, SettledBy};

use crate::slips::Slips;
use kinds::kind::Kind;
use refusals::Refusal;
use settle::budget::Settings;
use settle::settle::settle;

impl<K: Kind> Slips<K> {
    // What the entries add up to, by a settle of the slots. It may rewrite them, but keeps the sum of their worths.
    pub(crate) fn settled(&mut self, plan: &[u8], settings: &Settings) -> Result<u64, Refusal>
        requires plan { IsPlan 63 plan.now }
        ensures answer { result ≡ read_answer K.Kind (slips_meaning K.Kind self.old) }
        ensures means { slips_meaning K.Kind self.new ≡ slips_meaning K.Kind self.old }
        ensures left { SettledBy K.Kind plan.now settings.now.budget self.old self.new }
    {
        settle::<K>(&mut self.slots, &mut self.column, plan, settings)?.outcome
    }
}
