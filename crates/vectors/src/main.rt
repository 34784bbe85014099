//! Compares the ledger's arithmetic with arithmetic that is not ours, and prints for each family of cases how many were compared and how many differ.
#![tactic(auto)]

mod examples;
mod machine;
mod pairs;
mod published;
mod sessions;
mod tally;

use crate::tally::Tally;
use accounts::register_account::RegisterAccount;
use binary::format::{Binary32, Binary64};
use kinds::count::Count;
use kinds::kind::Kind;
use layers::quota::{Quota, QuotaSetup};
use layers::staged::Staged;
use rand_core::SeedableRng;
use rand_xoshiro::SplitMix64;
use slips::slips::Slips;
use std::io;
use std::io::Read;

const PAIRS: u32 = 250_000;

const SESSIONS: u32 = 400;

// The greatest pattern of 32 bits.
const HALF: u64 = 0xFFFF_FFFF;

fn print(rt: &HostRuntime, family: &str, tally: Tally) -> io::Result<()> {
    println!(rt;
        "{family}: {} compared, {} differ",
        tally.compared, tally.differ
    )
}

// Sessions of one kind: a staged register account beside slips under a quota.
fn both_accounts<K: Kind>(greatest: u64, words: &mut SplitMix64) -> Tally {
    let mut tally = Tally::default();
    for _ in 0..SESSIONS {
        sessions::compare::<K, Staged<K, RegisterAccount>, Quota<K, Slips<K>>>(
            (),
            QuotaSetup {
                most: 63,
                below: (),
            },
            greatest,
            words,
            &mut tally,
        );
    }
    tally
}

fn main(rt: HostRuntime) -> io::Result<()> {
    let mut words = SplitMix64::seed_from_u64(2026);
    print(&rt, "worked examples", examples::compare())?;
    let wide = pairs::compare::<Binary64>(PAIRS, &mut words);
    print(&rt, "binary64, sum against the machine's", wide.sums)?;
    print(
        &rt,
        "binary64, remainder against six operations of the machine's",
        wide.remainders,
    )?;
    let narrow = pairs::compare::<Binary32>(PAIRS, &mut words);
    print(&rt, "binary32, sum against the machine's", narrow.sums)?;
    print(
        &rt,
        "binary32, remainder against six operations of the machine's",
        narrow.remainders,
    )?;
    let mut table = String::new(rt.alloc());
    rt.stdin().read_to_string(&mut table)?;
    print(
        &rt,
        "published sums",
        published::compare(rt.alloc(), table.as_str())?,
    )?;
    print(
        &rt,
        "binary64, slips against the register",
        both_accounts::<Binary64>(u64::MAX, &mut words),
    )?;
    print(
        &rt,
        "binary32, slips against the register",
        both_accounts::<Binary32>(HALF, &mut words),
    )?;
    print(
        &rt,
        "count, slips against the register",
        both_accounts::<Count>(HALF, &mut words),
    )
}
