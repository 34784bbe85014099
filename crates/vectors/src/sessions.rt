//! Two accounts of one kind, by different arithmetic, on the same entries.
use crate::tally::Tally;
use accounts::account::Account;
use kinds::kind::Kind;
use rand_core::Rng;
use rand_xoshiro::SplitMix64;

/// One session: 63 posts and withdrawals of patterns up to a greatest on each account, with readings between.
pub(crate) fn compare<K: Kind, L: Account<K> + Drop, R: Account<K> + Drop>(
    left: L::Setup,
    right: R::Setup,
    greatest: u64,
    words: &mut SplitMix64,
    tally: &mut Tally,
) {
    let mut one = L::open(left);
    let mut other = R::open(right);
    // Half of a session's patterns lie within a window that is drawn, so that sizes are near each other.
    let window = words.next_u64();
    for _ in 0..63 {
        let choice = words.next_u64();
        let drawn = words.next_u64() & greatest;
        let p = if choice & 4 == 0 {
            drawn
        } else {
            drawn & window
        };
        if choice & 1 == 0 {
            let _ = one.post(p);
            let _ = other.post(p);
        } else {
            let _ = one.withdraw(p);
            let _ = other.withdraw(p);
        }
        if choice & 2 == 0 {
            tally.note(one.read() == other.read());
        }
    }
    tally.note(one.read() == other.read());
}
