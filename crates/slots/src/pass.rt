//! The pass.
ghost use Rattle.slots.specs.Asked.{PassAnswer};
ghost use Rattle.slots.specs.Pass.{PassKeeps};

use crate::asked::asked;
use crate::moves::pass_by;
use kinds::kind::Kind;
use refusals::Refusal;

// Thin, so that an edit of the call is refused for its meaning and not in a proof file.
/// One pass over the slots by a plan. The column is the only memory that it takes.
/// Under every plan a pass keeps the exact sum and every slot a number, and puts no more slots in use.
pub fn pass<K: Kind>(slots: &mut [u64], column: &mut [u64], plan: &[u8]) -> Result<(), Refusal>
    ensures answer { PassAnswer K.Kind plan.now slots.old column.old slots.new column.new result }
    ensures keeps { PassKeeps K.Kind }
{
    asked_pass::<K>(slots, column, plan)
}

// Asks first, and then moves.
fn asked_pass<K: Kind>(slots: &mut [u64], column: &mut [u64], plan: &[u8]) -> Result<(), Refusal>
    ensures answer { PassAnswer K.Kind plan.now slots.old column.old slots.new column.new result }
    ensures keeps { PassKeeps K.Kind }
{
    asked::<K>(slots, column.len(), plan)?;
    pass_by::<K>(slots, column, plan);
    Ok(())
}
