//! The test.
ghost use Rattle.std.specs.Prelude.{◌≤◌, length};
ghost use Rattle.slots.specs.Pass.{Numbers};
ghost use Rattle.settle.specs.Test.{Ceiling, Spread, TestAnswer};

use crate::adding::sum_of;
use crate::gauging::gauge_of;
use kinds::kind::Kind;
use refusals::Refusal;
use register::Scaled;

// The exponent of the least power of two that is at least the count.
#[tactic(auto, using(crate::proofs::Powers::power_of_log, crate::proofs::Powers::ceiling_of))]
fn ceiling(count: u32) -> u32
    requires { count ≤ 4096 }
    ensures { Ceiling count result }
{
    count.next_power_of_two().ilog2()
}

// What the highest and the lowest sum read that the slots can have, by the first two and the gauge of the others.
fn ends<K: Kind>(slots: &[u64]) -> (Result<u64, Refusal>, Result<u64, Refusal>)
    requires { (Numbers K.Kind slots.now) × ((2 ≤ length slots.now) × (length slots.now ≤ 4096)) }
    ensures { Spread K.Kind slots.now result.0 result.1 }
{
    let gauge = gauge_of::<K>(&slots[2..]);
    let mut high = sum_of::<K>(&slots[..2]);
    let mut low = high;
    if gauge.count > 0 {
        let shift = ceiling(gauge.count) + gauge.peak;
        // Written out twice: a closure needs a clause of its own, which says that the shift is small.
        high.add_scaled(Scaled {
            negative: false,
            magnitude: 1,
            shift,
        });
        low.add_scaled(Scaled {
            negative: true,
            magnitude: 1,
            shift,
        });
    }
    (K::outcome(&high), K::outcome(&low))
}

// The outcome of the sum of all slots, if the test accepts them.
pub(crate) fn test<K: Kind>(slots: &[u64]) -> Option<Result<u64, Refusal>>
    requires { (Numbers K.Kind slots.now) × ((2 ≤ length slots.now) × (length slots.now ≤ 4096)) }
    ensures { TestAnswer K.Kind slots.now result }
{
    let (high, low) = ends::<K>(slots);
    (high == low).then_some(high)
}
