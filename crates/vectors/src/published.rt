//! Sums with their correctly rounded results, as they were published. A line names a source, after `#`, or has a result and the numbers of its sum, by their patterns.
use crate::tally::Tally;
use accounts::readings::{Entry, reading};
use accounts::register_account::RegisterAccount;
use binary::format::Binary64;
use layers::staged::Staged;
use refusals::Refusal;
use std::alloc::{AllocError, Global};

// A pattern by its hexadecimal digits; what is none reads as no number.
fn pattern(word: &str) -> u64 {
    u64::from_str_radix(word, 16).unwrap_or(u64::MAX)
}

fn result(word: &str) -> Result<u64, Refusal> {
    match word {
        "above" => Err(Refusal::AboveRange),
        "below" => Err(Refusal::BelowRange),
        _ => Ok(pattern(word)),
    }
}

// One sum, in its order and backwards, on two accounts.
fn line(heap: Global, text: &str, tally: &mut Tally) -> Result<(), AllocError> {
    let mut words = text.split(' ');
    let Some(first) = words.next() else {
        return Ok(());
    };
    let entries: Vec<Entry> = words.map(|word| Entry::Post(pattern(word))).collect(heap)?;
    let one = reading::<Binary64, RegisterAccount, _>((), entries.iter().copied());
    let other = reading::<Binary64, Staged<Binary64, RegisterAccount>, _>(
        (),
        entries.iter().rev().copied(),
    );
    tally.note(one == result(first) && other == result(first));
    Ok(())
}

pub(crate) fn compare(heap: Global, table: &str) -> Result<Tally, AllocError> {
    let mut tally = Tally::default();
    for text in table.lines() {
        if !text.starts_with('#') {
            line(heap, text, &mut tally)?;
        }
    }
    Ok(tally)
}
