//! What can be set for a settle.
ghost use Rattle.std.specs.Prelude.{◌≡◌};
ghost use Rattle.settle.specs.Budget.{BudgetAnswer};

use crate::budget::Settings;
use refusals::Refusal;

impl Settings {
    /// Fresh settings.
    pub fn new() -> Settings
        ensures { result.budget ≡ 8 }
    {
        Settings { budget: 8 }
    }

    /// How many passes a settle makes at most.
    pub fn budget(&self) -> u8
        ensures { result ≡ self.now.budget }
    {
        self.budget
    }

    /// Sets the budget, if it is at most 8.
    pub fn set_budget(&mut self, budget: u8) -> Result<(), Refusal>
        ensures { BudgetAnswer budget self.old self.new result }
    {
        if budget > 8 {
            return Err(Refusal::BudgetTooLarge);
        }
        *self = Settings { budget };
        Ok(())
    }
}
