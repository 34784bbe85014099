//! Which numbers are worth nothing.
ghost use Rattle.std.specs.Prelude.{◌≡◌, true, false, T, pos, ◌≢◌};

use crate::kind::Kind;

/// Whether a number has a worth of 0.
#[tactic(auto, using(crate::proofs::Zeros::zeros))]
pub fn is_zero<K: Kind>(p: u64) -> bool
    requires { T (K.Kind.number p) }
    ensures yes { result ≡ true → K.Kind.worth p ≡ pos 0 }
    ensures no { result ≡ false → K.Kind.worth p ≢ pos 0 }
{
    K::worth(p).magnitude == 0
}
