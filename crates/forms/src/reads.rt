//! What a line asks for.
ghost use Rattle.std.specs.Prelude.{◌≡◌, ◌≤◌, ◌++◌, MatchOption};
ghost use Rattle.forms.specs.Text.{word_text, side_text, hex_text, number_text, NoFront, DigitMeans, NumberMeans, VisitMeans, KindMeans};
ghost use Rattle.forms.specs.Read.{read_visit, read_kind, VisitsExact, KindsExact};

use crate::words::{KindName, Side, Visit, Word};

// Thin, as `read_kind` is, so that an edit of the call is refused for its meaning and not in a proof file.
/// The visit that a line asks for, where a number has so many capital hexadecimal digits.
/// None where the line is the text of no visit.
#[tactic(auto, using(crate::proofs::Reading::visits_exact, crate::proofs::Reading::visit_value))]
pub fn read_visit(digits: usize, line: &[u8]) -> Option<Visit>
    requires { digits ≤ 16 }
    ensures means { VisitMeans digits line.now result }
    ensures value { result ≡ read_visit digits line.now }
    ensures exact { VisitsExact }
{
    visit_of(digits, line)
}

/// The kind that a line names. None where the line is the text of no kind.
#[tactic(auto, using(crate::proofs::Reading::kinds_exact, crate::proofs::Reading::kind_value))]
pub fn read_kind(line: &[u8]) -> Option<KindName>
    ensures means { KindMeans line.now result }
    ensures value { result ≡ read_kind line.now }
    ensures exact { KindsExact }
{
    kind_of(line)
}

// The digits stay a number with a bound: a type of them would be narrower than what the public calls take.
#[tactic(auto, using(crate::proofs::Numbers::no_visit))]
fn visit_of(digits: usize, line: &[u8]) -> Option<Visit>
    requires { digits ≤ 16 }
    ensures { VisitMeans digits line.now result }
{
    let (word, rest) = split_word(line)?;
    let (side, rest) = split_side(rest)?;
    match (word, rest) {
        (Word::Post, _) => Some(Visit::Post(side, last_number(digits, rest)?)),
        (Word::Withdraw, _) => Some(Visit::Withdraw(side, last_number(digits, rest)?)),
        (Word::Read, b")") => Some(Visit::Read(side)),
        (Word::Read, _) => None,
    }
}

// The whole line, so that no bare name is left to convert.
fn kind_of(line: &[u8]) -> Option<KindName>
    ensures { KindMeans line.now result }
{
    match line {
        b"(kind binary64)" => Some(KindName::Binary64),
        b"(kind binary32)" => Some(KindName::Binary32),
        b"(kind count)" => Some(KindName::Count),
        _ => None,
    }
}

// The first word, which its first byte tells apart, and what follows it.
fn split_word(line: &[u8]) -> Option<(Word, &[u8])>
    ensures { MatchOption result (NoFront word_text line.now) (λ p. line.now ≡ word_text p.0 ++ p.1.now) }
{
    match line {
        [b'(', b'p', rest @ ..] => Some((Word::Post, rest.strip_prefix(b"ost ")?)),
        [b'(', b'w', rest @ ..] => Some((Word::Withdraw, rest.strip_prefix(b"ithdraw ")?)),
        [b'(', b'r', rest @ ..] => Some((Word::Read, rest.strip_prefix(b"ead ")?)),
        _ => None,
    }
}

// The side, and what follows it.
fn split_side(text: &[u8]) -> Option<(Side, &[u8])>
    ensures { MatchOption result (NoFront side_text text.now) (λ p. text.now ≡ side_text p.0 ++ p.1.now) }
{
    Some((Side::Left, text.strip_prefix(b"left")?))
}

// A blank, a number and the closing bracket.
fn last_number(digits: usize, text: &[u8]) -> Option<u64>
    requires { digits ≤ 16 }
    ensures { NumberMeans number_text digits text.now result }
{
    hex_number(digits, text.strip_prefix(b" ")?.strip_suffix(b")")?)
}

// A number in so many hexadecimal digits: by hand, since `from_str_radix` takes small letters and a plus as well.
#[tactic(auto, using(crate::proofs::Hexes::length_hex))]
fn hex_number(digits: usize, text: &[u8]) -> Option<u64>
    requires { digits ≤ 16 }
    ensures { NumberMeans hex_text digits text.now result }
{
    if text.len() != digits {
        return None;
    }
    let mut n = 0u64;
    for b in text {
        let d = digit(*b)?;
        n = n * 16 + d as u64;
    }
    Some(n)
}

// What a hexadecimal digit is worth, where letters are capital ones: `char::to_digit` takes small ones too.
fn digit(b: u8) -> Option<u8>
    ensures { DigitMeans b result }
{
    match b {
        b'0'..=b'9' => Some(b - b'0'),
        b'A'..=b'F' => Some(b - b'A' + 10),
        _ => None,
    }
}
