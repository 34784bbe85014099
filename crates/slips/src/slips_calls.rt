//! The calls of slips.
ghost use Rattle.std.specs.Prelude.{◌≡◌, ◌≤◌};
ghost use Rattle.slots.specs.Pass.{Numbers, in_use};
ghost use Rattle.slips.specs.Slips.{slips};
ghost use Rattle.std.proofs.Common.{rules};

use crate::slips::Slips;
use accounts::account::Account;
use accounts::asked::asked;
use kinds::kind::Kind;
use plans::writes::write_halving;
use refusals::Refusal;
use settle::budget::Settings;
use std::marker::PhantomData;

// Each slot but slot 0 has room for one entry.
const LIMIT: u32 = 63;

// The plan has a dot for each slot but slot 0.
const DOTS: usize = 63;

// Its text has a byte for each dot, and two for each pair of brackets.
const PLAN_BYTES: usize = 3 * DOTS - 2;

impl<K: Kind> Slips<K> {
    /// The same slips, for numbers of another kind: their slots have to be numbers of that kind too, and no more of them in use by it than there are entries.
    pub fn of_kind<J: Kind>(self) -> Slips<J>
        requires numbers { Numbers J.Kind self.slots }
        requires few { in_use J.Kind self.slots ≤ self.count }
        ensures slots { result.slots ≡ self.slots }
        ensures column { result.column ≡ self.column }
        ensures count { result.count ≡ self.count }
    {
        let Slips {
            slots,
            column,
            count,
            kind: _,
        } = self;
        Slips {
            slots,
            column,
            count,
            kind: PhantomData,
        }
    }
}

impl<K: Kind> Account<K> for Slips<K> {
    type Setup = ();

    ghost meaning = { (slips K.Kind).meaning };

    ghost agreed = { (slips K.Kind).agreed };

    ghost opens = { (slips K.Kind).opens };

    ghost enters = { (slips K.Kind).enters };

    ghost reads = { (slips K.Kind).reads };

    ghost limited = { Prim.search rules };

    fn open(_setup: ()) -> Slips<K> {
        Slips {
            slots: [0; 64],
            column: [0; 64],
            count: 0,
            kind: PhantomData,
        }
    }

    fn post(&mut self, p: u64) -> Result<(), Refusal> {
        asked::<K>(p, self.count, LIMIT)?;
        self.lodge(p);
        Ok(())
    }

    fn withdraw(&mut self, p: u64) -> Result<(), Refusal> {
        asked::<K>(p, self.count, LIMIT)?;
        self.lodge(K::opposite(p));
        Ok(())
    }

    fn read(&mut self) -> Result<u64, Refusal> {
        // No heap: the plan stands in fixed memory, as long as its text.
        let mut plan = [b'.'; PLAN_BYTES];
        write_halving(&mut plan, DOTS);
        self.settled(&plan, &Settings::new())
    }

    fn entries(&self) -> u32 {
        self.count
    }

    fn limit(&self) -> u32 {
        LIMIT
    }
}
