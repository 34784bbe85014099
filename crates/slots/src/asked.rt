//! The questions in front of a pass.
ghost use Rattle.slots.specs.Asked.{NumbersAnswer, AskedAnswer};

use kinds::kind::Kind;
use plans::reads::read_plan;
use refusals::Refusal;

fn all_numbers<K: Kind>(slots: &[u64]) -> Result<(), Refusal>
    ensures { NumbersAnswer K.Kind slots.now result }
{
    match slots.iter().position(|&p| !K::is_number(p)) {
        Some(i) => Err(Refusal::SlotNotANumber(i)),
        None => Ok(()),
    }
}

// Thin, so that an edit of the call is refused for its meaning and not in a proof file.
/// Asks everything before anything moves: of the slots, of a column of so many words and of the plan.
pub fn asked<K: Kind>(slots: &[u64], column: usize, plan: &[u8]) -> Result<(), Refusal>
    ensures { AskedAnswer K.Kind slots.now column plan.now result }
{
    questions::<K>(slots, column, plan)
}

fn questions<K: Kind>(slots: &[u64], column: usize, plan: &[u8]) -> Result<(), Refusal>
    ensures { AskedAnswer K.Kind slots.now column plan.now result }
{
    let count = slots.len();
    // Two comparisons, which are the two facts that the answer names.
    if count < 2 || count > 4096 {
        return Err(Refusal::WrongCount);
    }
    all_numbers::<K>(slots)?;
    if column < count {
        return Err(Refusal::ColumnTooShort);
    }
    read_plan(plan, count - 1)
}
