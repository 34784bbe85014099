//! The adder of any kind, on any patterns.
ghost use Rattle.std.specs.Prelude.{◌≡◌};
ghost use Rattle.exports.specs.Exports.{sums};

use kinds::kind::Kind;

// Two numbers' sum and what remains of it, or two zeros where a pattern is no number.
pub(crate) fn sum<K: Kind>(a: u64, b: u64) -> (u64, u64)
    ensures { result ≡ sums K.Kind a b }
{
    if K::is_number(a) && K::is_number(b) {
        K::add(a, b)
    } else {
        (0, 0)
    }
}
