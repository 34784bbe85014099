//! The gauges of slots.
ghost use Rattle.std.specs.Prelude.{◌≤◌, T, length};
ghost use Rattle.slots.specs.Pass.{Numbers};
ghost use Rattle.settle.specs.Seen.{One, Many};

use crate::adding::sum_of;
use crate::gauge::Gauge;
use arrayvec::ArrayVec;
use join::fold;
use kinds::kind::Kind;

// The gauge of one number.
fn gauge_of_number<K: Kind>(p: u64) -> Gauge
    requires { T (K.Kind.number p) }
    ensures { One K.Kind p result }
{
    let peak = sum_of::<K>(&[p]).magnitude().bit_length();
    Gauge {
        count: u32::from(peak > 0),
        peak,
    }
}

// The gauge of many numbers, by the one fold.
pub(crate) fn gauge_of<K: Kind>(numbers: &[u64]) -> Gauge
    requires { (Numbers K.Kind numbers.now) × (length numbers.now ≤ 4096) }
    ensures { Many K.Kind numbers.now result }
{
    // A rule of the project: the one fold goes over a slice, so the gauges stand in fixed memory.
    let mut gauges = ArrayVec::<Gauge, 4096>::new();
    for &p in numbers {
        gauges.push(gauge_of_number::<K>(p));
    }
    fold(gauges.as_slice())
}
