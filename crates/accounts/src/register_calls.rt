//! The register account's calls.
ghost use Rattle.std.specs.Prelude.{◌≡◌};
ghost use Rattle.accounts.specs.Exact.{exact};
ghost use Rattle.std.proofs.Common.{rules};

use crate::account::Account;
use crate::asked::asked;
use crate::register_account::RegisterAccount;
use kinds::kind::Kind;
use refusals::Refusal;
use register::Register;

impl RegisterAccount {
    /// A copy of the register.
    pub fn register(&self) -> Register
        ensures { result ≡ self.now.sum }
    {
        self.sum
    }
}

impl<K: Kind> Account<K> for RegisterAccount {
    type Setup = ();

    ghost meaning = { (exact K.Kind).meaning };

    ghost agreed = { (exact K.Kind).agreed };

    ghost opens = { (exact K.Kind).opens };

    ghost enters = { (exact K.Kind).enters };

    ghost reads = { (exact K.Kind).reads };

    ghost limited = { Prim.search rules };

    fn open(_setup: ()) -> RegisterAccount {
        RegisterAccount::balanced(0)
    }

    fn post(&mut self, p: u64) -> Result<(), Refusal> {
        asked::<K>(p, self.count, u32::MAX)?;
        self.enter(K::worth(p));
        Ok(())
    }

    fn withdraw(&mut self, p: u64) -> Result<(), Refusal> {
        asked::<K>(p, self.count, u32::MAX)?;
        self.enter(K::worth(K::opposite(p)));
        Ok(())
    }

    fn read(&mut self) -> Result<u64, Refusal> {
        K::outcome(&self.sum)
    }

    fn entries(&self) -> u32 {
        self.count
    }

    fn limit(&self) -> u32 {
        u32::MAX
    }
}
