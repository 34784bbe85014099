//! The exported calls. They ask nothing of a caller but what their types say. C takes no generic function, so there is one for each width.
ghost use Rattle.std.specs.Prelude.{◌≡◌};
ghost use Rattle.numbers.specs.Binary.{binary, binary32, binary64};
ghost use Rattle.exports.specs.Exports.{sums_by, reads_by};

use crate::readings::read;
use crate::sums::sum;
use accounts::register_account::RegisterAccount;
use binary::format::{Binary32, Binary64};
use slips::slips::Slips;

/// The sum of two numbers of 64 bits, and in `rest` what remains of it; both 0 where a pattern is no number.
#[unsafe(no_mangle)]
pub extern "C" fn gatimbol_add64(a: u64, b: u64, rest: &mut u64) -> u64
    ensures { (result, rest.new) ≡ sums_by (binary binary64) a b }
{
    let (s, r) = sum::<Binary64>(a, b);
    *rest = r;
    s
}

/// The same for numbers of 32 bits, each in the low half of a word.
#[unsafe(no_mangle)]
pub extern "C" fn gatimbol_add32(a: u64, b: u64, rest: &mut u64) -> u64
    ensures { (result, rest.new) ≡ sums_by (binary binary32) a b }
{
    let (s, r) = sum::<Binary32>(a, b);
    *rest = r;
    s
}

/// What a fresh register account reads after these posts of numbers of 64 bits: a number, or all ones less the number of the refusal.
#[unsafe(no_mangle)]
pub extern "C" fn gatimbol_read64(patterns: &[u64]) -> u64
    ensures { result ≡ reads_by (binary binary64) 4294967295 patterns.now }
{
    read::<Binary64, RegisterAccount>((), patterns)
}

/// The same for numbers of 32 bits, each in the low half of a word.
#[unsafe(no_mangle)]
pub extern "C" fn gatimbol_read32(patterns: &[u64]) -> u64
    ensures { result ≡ reads_by (binary binary32) 4294967295 patterns.now }
{
    read::<Binary32, RegisterAccount>((), patterns)
}

/// What fresh slips read after these posts of numbers of 64 bits, of which they accept the first 63.
#[unsafe(no_mangle)]
pub extern "C" fn gatimbol_slips64(patterns: &[u64]) -> u64
    ensures { result ≡ reads_by (binary binary64) 63 patterns.now }
{
    read::<Binary64, Slips<Binary64>>((), patterns)
}
