//! What the register account's calls are made of.
ghost use Rattle.std.specs.Prelude.{◌≡◌, ◌^◌, ◌<◌, pos, unsigned_abs};
ghost use Rattle.register.specs.Sum.{zero_register};
ghost use Rattle.register.specs.Value.{value, meant};
ghost use Rattle.accounts.specs.Meaning.{with_entry};
ghost use Rattle.accounts.specs.Exact.{exact_meaning, Entered};

use crate::register_account::RegisterAccount;
use register::{Register, Scaled};

impl RegisterAccount {
    // An account of total 0 after so many entries.
    pub(crate) fn balanced(count: u32) -> RegisterAccount
        ensures total { (value result.sum ≡ pos 0) × (result.count ≡ count) }
        ensures register { result.sum ≡ zero_register }
    {
        RegisterAccount {
            sum: Register::zero(),
            count,
        }
    }

    // One more entry.
    pub(crate) fn enter(&mut self, worth: Scaled)
        requires room { self.old.count < 4294967295 }
        requires small { unsigned_abs (meant worth) < 2 ^ 2098 }
        ensures means { exact_meaning self.new ≡ with_entry (meant worth) (exact_meaning self.old) }
        ensures entered { Entered (meant worth) self.old self.new }
    {
        self.sum.add_scaled(worth);
        self.count += 1;
    }
}
