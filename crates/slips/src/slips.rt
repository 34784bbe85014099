ghost use Rattle.std.specs.Prelude.{◌≤◌};
ghost use Rattle.std.proofs.Props.{props};
ghost use Rattle.slots.specs.Pass.{Numbers, in_use};

use kinds::kind::Kind;
use std::marker::PhantomData;

/// An account that keeps its entries in 64 slots, each a number, with the column in which a reading settles them. No more slots are in use than there are entries.
#[derive(Drop)]
pub struct Slips<K: Kind> {
    // Fixed memory: always 64 words, however many are in use.
    pub(crate) slots: [u64; 64],
    pub(crate) column: [u64; 64],
    pub(crate) count: u32,
    pub(crate) kind: PhantomData<K>,
    ghost numbers: { Numbers K.Kind slots } by { Prim.hlevel props },
    ghost few: { in_use K.Kind slots ≤ count },
    ghost most: { count ≤ 63 },
}

// A `PhantomData` of the kind owns nothing: slips cross threads whatever the kind.
unsafe impl<K: Kind> Send for Slips<K> {}

unsafe impl<K: Kind> Sync for Slips<K> {}
