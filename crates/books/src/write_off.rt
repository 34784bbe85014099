//! Writing a load off.
ghost use Rattle.std.specs.Prelude.{◌≡◌};
ghost use Rattle.books.specs.Blade.{shown};

use crate::blade::{EmptyBlade, LoadedBlade};
use kinds::kind::Kind;
use kinds::zero::is_zero;

// A pattern as it is answered.
fn shown_pattern<K: Kind>(p: u64) -> u64
    ensures { result ≡ shown K.Kind p }
{
    if K::is_number(p) && is_zero::<K>(p) {
        return 0;
    }
    p
}

impl LoadedBlade {
    /// Empties the blade and answers its load, all zeros for a worth of 0.
    pub fn write_off<K: Kind>(self) -> (EmptyBlade, u64)
        ensures { result.1 ≡ shown K.Kind self.pattern }
    {
        let LoadedBlade { pattern } = self;
        (EmptyBlade { mark: () }, shown_pattern::<K>(pattern))
    }
}
