//! The settle.
ghost use Rattle.std.specs.Prelude.{◌≤◌, length};
ghost use Rattle.slots.specs.Asked.{Granted};
ghost use Rattle.slots.specs.Pass.{Cleared};
ghost use Rattle.settle.specs.Test.{TestTells};
ghost use Rattle.settle.specs.Settle.{SettleMeans, SettleAnswer};

use crate::adding::sum_of;
use crate::budget::Settings;
use crate::settled::{Settled, Teller};
use crate::test::test;
use kinds::kind::Kind;
use refusals::Refusal;
use slots::asked::asked;
use slots::moves::{clear, pass_by};

// Thin, so that an edit of the call is refused for its meaning and not in a proof file.
/// The outcome of all slots: the test, then a pass and the test in turn until it accepts or the budget is used, else the register.
/// Whatever the test accepts, on any slots, is the outcome of their exact sum.
pub fn settle<K: Kind>(
    slots: &mut [u64],
    column: &mut [u64],
    plan: &[u8],
    settings: &Settings,
) -> Result<Settled, Refusal>
    ensures answer { SettleAnswer K.Kind plan.now settings.now.budget slots.old column.old slots.new column.new result }
    ensures tells { TestTells K.Kind }
{
    asked_settle::<K>(slots, column, plan, settings.budget)
}

fn asked_settle<K: Kind>(
    slots: &mut [u64],
    column: &mut [u64],
    plan: &[u8],
    budget: u8,
) -> Result<Settled, Refusal>
    requires { budget ≤ 8 }
    ensures answer { SettleAnswer K.Kind plan.now budget slots.old column.old slots.new column.new result }
    ensures tells { TestTells K.Kind }
{
    asked::<K>(slots, column.len(), plan)?;
    Ok(settle_by::<K>(slots, column, plan, budget))
}

fn settle_by<K: Kind>(slots: &mut [u64], column: &mut [u64], plan: &[u8], budget: u8) -> Settled
    requires granted { Granted K.Kind slots.old (length column.old) plan.now }
    requires most { budget ≤ 8 }
    ensures answer { SettleMeans K.Kind plan.now budget slots.old slots.new result }
    ensures column { Cleared (length slots.old) column.old column.new }
{
    clear(column, slots.len());
    for passes in 0..budget {
        if let Some(outcome) = test::<K>(slots) {
            return Settled {
                outcome,
                passes,
                by: Teller::Test,
            };
        }
        pass_by::<K>(slots, column, plan);
    }
    match test::<K>(slots) {
        Some(outcome) => Settled {
            outcome,
            passes: budget,
            by: Teller::Test,
        },
        None => Settled {
            outcome: K::outcome(&sum_of::<K>(slots)),
            passes: budget,
            by: Teller::Register,
        },
    }
}
