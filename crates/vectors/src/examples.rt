//! The worked examples of docs/RULES.md, by the public calls.
use crate::tally::Tally;
use accounts::readings::{Entry, readings};
use accounts::register_account::RegisterAccount;
use binary::format::{Binary32, Binary64};
use kinds::count::Count;
use kinds::kind::Kind;
use refusals::Refusal;
use settle::budget::Settings;
use settle::settle::settle;
use settle::settled::{Settled, Teller};
use slips::slips::Slips;
use slots::pass::pass;

const TOP: u64 = 0x7FEF_FFFF_FFFF_FFFF;

// What a register account and slips read of these entries, if it is the same.
fn read<K: Kind>(entries: &[Entry], want: Result<u64, Refusal>) -> bool {
    let (one, other) = readings::<K, RegisterAccount, Slips<K>>((), entries, (), entries);
    one == want && other == want
}

fn settled() -> bool {
    let mut slots = [0, 0x4340_0000_0000_0000, 0x3FF0_0000_0000_0000, 1];
    let mut column = [7; 4];
    let want = Settled {
        outcome: Ok(0x4340_0000_0000_0001),
        passes: 8,
        by: Teller::Register,
    };
    settle::<Binary64>(&mut slots, &mut column, b"((..).)", &Settings::new()) == Ok(want)
}

fn no_plan() -> bool {
    let mut slots = [0; 4];
    let mut column = [0; 4];
    pass::<Binary64>(&mut slots, &mut column, b"(.)(..)").is_err_and(|why| why.number() == 11
        && why.place() == 2)
}

// Whether the adder gives these two.
fn adds<K: Kind>(a: u64, b: u64, want: (u64, u64)) -> bool {
    K::is_number(a) && K::is_number(b) && K::add(a, b) == want
}

pub(crate) fn compare() -> Tally {
    let mut tally = Tally::default();
    tally.note(!Binary64::is_number(0x7FF0_0000_0000_0000));
    tally.note(read::<Binary64>(&[Entry::Post(TOP)], Ok(TOP)));
    tally.note(!Count::is_number(0x8000_0000));
    tally.note(read::<Count>(&[Entry::Post(0x8000_0001), Entry::Post(0x7FFF_FFFF)], Ok(0)));
    tally.note(adds::<Binary64>(
        0x4340_0000_0000_0000,
        0x4008_0000_0000_0000,
        (0x4340_0000_0000_0002, 0xBFF0_0000_0000_0000),
    ));
    tally.note(adds::<Count>(0x7FFF_FFFF, 1, (0x7FFF_FFFF, 1)));
    tally.note(read::<Binary64>(
        &[Entry::Post(TOP), Entry::Post(0x7C90_0000_0000_0000)],
        Err(Refusal::AboveRange),
    ));
    tally.note(read::<Binary64>(
        &[Entry::Post(TOP), Entry::Post(0x7C8F_FFFF_FFFF_FFFF)],
        Ok(TOP),
    ));
    tally.note(read::<Binary32>(
        &[
            Entry::Post(0x3F80_0000),
            Entry::Post(0x3380_0000),
            Entry::Post(0x2180_0000),
        ],
        Ok(0x3F80_0001),
    ));
    tally.note(settled());
    tally.note(no_plan());
    tally
}
