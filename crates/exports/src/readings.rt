//! What an account of any kind reads, on any patterns.
ghost use Rattle.std.specs.Prelude.{◌≡◌};
ghost use Rattle.exports.specs.Exports.{marked, reads};

use accounts::account::Account;
use accounts::readings::{Entry, reading};
use kinds::kind::Kind;
use refusals::Refusal;

// A number, or all ones less the number of a refusal: C has no Result.
fn word(answer: Result<u64, Refusal>) -> u64
    ensures { result ≡ marked answer }
{
    answer.unwrap_or_else(|why| u64::MAX - why.number() as u64)
}

// What a fresh account reads once these patterns have been posted, in one word; a refused one changes nothing.
pub(crate) fn read<K: Kind, A: Account<K> + Drop>(setup: A::Setup, patterns: &[u64]) -> u64
    ensures { result ≡ reads K.Kind (A.Account.agreed setup) patterns.now }
{
    let posts = patterns.iter().map(|&p| Entry::Post(p));
    word(reading::<K, A, _>(setup, posts))
}
