//! The two questions of an entry.
ghost use Rattle.std.specs.Prelude.{◌≡◌};
ghost use Rattle.accounts.specs.Meaning.{questions};

use kinds::kind::Kind;
use refusals::Refusal;

/// Asks of an entry whether it is a number, and then whether the entries are below the limit.
pub fn asked<K: Kind>(p: u64, entries: u32, limit: u32) -> Result<(), Refusal>
    ensures { result ≡ questions K.Kind p entries limit }
{
    if !K::is_number(p) {
        return Err(Refusal::NotANumber);
    }
    if entries >= limit {
        return Err(Refusal::Full);
    }
    Ok(())
}
