//! Exact sums of slots.
ghost use Rattle.std.specs.Prelude.{◌≡◌, ◌≤◌, length};
ghost use Rattle.register.specs.Value.{value};
ghost use Rattle.slots.specs.Pass.{Numbers, exact_sum};

use kinds::kind::Kind;
use register::Register;

// The sum of the numbers' worths.
pub(crate) fn sum_of<K: Kind>(numbers: &[u64]) -> Register
    requires { (Numbers K.Kind numbers.now) × (length numbers.now ≤ 4096) }
    ensures { value result ≡ exact_sum K.Kind numbers.now }
{
    let mut sum = Register::zero();
    for &p in numbers {
        sum.add_scaled(K::worth(p));
    }
    sum
}
