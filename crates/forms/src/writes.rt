//! The lines of answer, written where there is room for them.
ghost use Rattle.std.specs.Prelude.{◌≡◌, ◌+◌, ◌<◌, ◌≤◌, ◌++◌, length, vec_len, vec_capacity};
ghost use Rattle.forms.specs.Text.{digit_text, hex_text};
ghost use Rattle.forms.specs.Replies.{answer_text, end_text, answer_most, end_most};

use crate::words::Reply;
use arrayvec::ArrayVec;
use itoa::Buffer;
use refusals::Refusal;

/// Writes the line of an answer, a number by so many of its last hexadecimal digits.
#[tactic(auto, using(crate::proofs::Hexes::length_hex))]
pub fn write_answer(digits: usize, answer: Result<Reply, Refusal>, out: &mut Vec<u8>)
    requires few { digits ≤ 16 }
    requires room { vec_len out.old + answer_most ≤ vec_capacity out.old }
    ensures items { out.new.items ≡ out.old.items ++ answer_text digits answer }
    ensures len { vec_len out.new ≤ vec_len out.old + answer_most }
    ensures capacity { vec_capacity out.old ≤ vec_capacity out.new }
{
    match answer {
        Ok(Reply::Done) => write_text(b"(ok)\n", out),
        Ok(Reply::Number(p)) => {
            write_text(b"(number ", out);
            write_text(hex(digits, p).as_slice(), out);
            write_text(b")\n", out);
        }
        Err(why) => {
            write_text(b"(refused ", out);
            write_text(Buffer::new().format(why.number()).as_bytes(), out);
            write_text(b")\n", out);
        }
    }
}

/// Writes the last line of a session, the counts of the entries on the left and on the right.
pub fn write_end(left: u32, right: u32, out: &mut Vec<u8>)
    requires { vec_len out.old + end_most ≤ vec_capacity out.old }
    ensures items { out.new.items ≡ out.old.items ++ end_text left right }
    ensures len { vec_len out.new ≤ vec_len out.old + end_most }
    ensures capacity { vec_capacity out.old ≤ vec_capacity out.new }
{
    write_text(b"(end ", out);
    write_text(Buffer::new().format(left).as_bytes(), out);
    write_text(b" ", out);
    write_text(Buffer::new().format(right).as_bytes(), out);
    write_text(b")\n", out);
}

// The last digits of n, by hand: the kit's `hex` writes whole bytes, in small letters.
#[tactic(auto, using(crate::proofs::Hexes::length_hex))]
fn hex(digits: usize, n: u64) -> ArrayVec<u8, 16>
    requires { digits ≤ 16 }
    ensures { result.items ≡ hex_text digits n }
{
    if digits == 0 {
        return ArrayVec::new();
    }
    let mut text = hex(digits - 1, n / 16);
    text.push(digit_byte((n % 16) as u8));
    text
}

// The capital digit: `char::from_digit` gives a small letter.
fn digit_byte(d: u8) -> u8
    requires { d < 16 }
    ensures { result ≡ digit_text d }
{
    if d < 10 { b'0' + d } else { b'A' + (d - 10) }
}

// There is room, so nothing is allocated and nothing refused.
fn write_text(text: &[u8], out: &mut Vec<u8>)
    requires { vec_len out.old + length text.now ≤ vec_capacity out.old }
    ensures items { out.new.items ≡ out.old.items ++ text.now }
    ensures capacity { vec_capacity out.old ≤ vec_capacity out.new }
{
    let _ = out.extend_from_slice(text);
}
