//! Where an entry goes.
ghost use Rattle.std.specs.Prelude.{◌≡◌, ◌+◌, ◌<◌, ◌≤◌, T, length, ◌+ℤ◌};
ghost use Rattle.slots.specs.Pass.{Numbers, exact_sum, in_use};
ghost use Rattle.accounts.specs.Meaning.{with_entry};
ghost use Rattle.slips.specs.Slips.{slips_meaning, Filled, Lodged};

use crate::slips::Slips;
use kinds::kind::Kind;
use kinds::zero::is_zero;

// Puts the number into the highest free slot. There is one, since fewer slots are in use than there are above slot 0.
fn fill<K: Kind>(slots: &mut [u64], p: u64)
    requires number { T (K.Kind.number p) }
    requires numbers { Numbers K.Kind slots.old }
    requires room { in_use K.Kind slots.old + 1 < length slots.old }
    ensures filled { Filled K.Kind slots.old p slots.new }
    ensures numbers { Numbers K.Kind slots.new }
    ensures few { in_use K.Kind slots.new ≤ in_use K.Kind slots.old + 1 }
    ensures sum { exact_sum K.Kind slots.new ≡ exact_sum K.Kind slots.old +ℤ K.Kind.worth p }
{
    // A rule of the project: a loop downward yields the slot by `break`.
    let mut at = slots.len() - 1;
    let slot = loop {
        if is_zero::<K>(slots[at]) {
            break at;
        }
        at -= 1;
    };
    slots[slot] = p;
}

impl<K: Kind> Slips<K> {
    // One more entry.
    pub(crate) fn lodge(&mut self, p: u64)
        requires number { T (K.Kind.number p) }
        requires room { self.old.count < 63 }
        ensures means { slips_meaning K.Kind self.new ≡ with_entry (K.Kind.worth p) (slips_meaning K.Kind self.old) }
        ensures lodged { Lodged K.Kind self.old p self.new }
    {
        fill::<K>(&mut self.slots, p);
        self.count += 1;
    }
}
