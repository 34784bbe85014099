//! The adder against the machine's addition.
use crate::machine::Machine;
use crate::tally::Tally;
use kinds::kind::Kind;
use rand_core::Rng;
use rand_xoshiro::SplitMix64;

/// Both answers of the adder, each with its tally.
#[derive(Clone, Copy)]
pub(crate) struct Tallies {
    pub(crate) sums: Tally,
    pub(crate) remainders: Tally,
}

fn sign<M: Machine>() -> u64 {
    M::LEAD.wrapping_mul(M::ONES.wrapping_add(1))
}

// A number with this exponent field, or the next lower one if it is all ones; sign and fraction are drawn.
fn number<M: Machine>(exponent: u64, words: &mut SplitMix64) -> u64 {
    let low = words.next_u64() & M::LEAD.wrapping_sub(1);
    let field = exponent.min(M::ONES.wrapping_sub(1));
    let size = M::LEAD.wrapping_mul(field).wrapping_add(low);
    if words.next_u64() & 1 == 0 {
        size
    } else {
        size | sign::<M>()
    }
}

// Two numbers: of any exponents, of near ones, that nearly cancel, that make a tie or nearly one, or subnormal.
fn pair<M: Machine>(i: u32, words: &mut SplitMix64) -> (u64, u64) {
    let exponent = words.next_u64() & M::ONES;
    let a = number::<M>(exponent, words);
    let b = match i % 5 {
        0 => number::<M>(words.next_u64() & M::ONES, words),
        1 => number::<M>(exponent.saturating_sub(words.next_u64() & 63), words),
        2 => a ^ sign::<M>() ^ (words.next_u64() & 15),
        3 => {
            let digits = M::LEAD.trailing_zeros() as u64 + 1;
            let half = M::LEAD.wrapping_mul(exponent.saturating_sub(digits));
            half.wrapping_add(words.next_u64() & 1)
                | (words.next_u64() & 1).wrapping_mul(sign::<M>())
        }
        _ => number::<M>(words.next_u64() & 1, words),
    };
    if i % 5 == 4 {
        (number::<M>(words.next_u64() & 1, words), b)
    } else {
        (a, b)
    }
}

// The machine has two zeros; we answer one.
fn plain<M: Machine>(p: u64) -> u64 {
    if p == sign::<M>() { 0 } else { p }
}

/// Adds pairs by our adder and by the machine. Where the machine's sum is infinite, ours is the greatest number, whose pattern stands before the infinity's; what is left is then not compared.
pub(crate) fn compare<K: Kind + Machine>(pairs: u32, words: &mut SplitMix64) -> Tallies {
    let mut sums = Tally::default();
    let mut remainders = Tally::default();
    for i in 0..pairs {
        let (a, b) = pair::<K>(i, words);
        if K::is_number(a) && K::is_number(b) {
            let (s, r) = K::add(a, b);
            let (sum, rest) = K::two_sum(a, b);
            if K::is_number(sum) {
                sums.note(s == plain::<K>(sum));
                if K::is_number(rest) {
                    remainders.note(r == plain::<K>(rest));
                }
            } else {
                sums.note(s == sum.wrapping_sub(1));
            }
        }
    }
    Tallies { sums, remainders }
}
