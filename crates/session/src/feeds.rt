//! Bytes in, bytes out.
ghost use Rattle.std.specs.Prelude.{◌≡◌, ◌+◌, ◌*◌, [], ◌∷◌, ◌++◌, length, MatchResult, OnOk};
ghost use Rattle.forms.specs.Replies.{answer_most, end_most};
ghost use Rattle.session.specs.Agree.{Stands, Standing, Hears};
ghost use Rattle.session.specs.Book.{untold, reply, heard, unfinished, ending, Shown};
ghost use Rattle.session.specs.Fed.{Cuts, Only};
ghost use Rattle.session.specs.Room.{HasRoom, Uses};

use crate::session::Session;
use forms::writes::{write_answer, write_end};
use refusals::Refusal;
use std::alloc::{AllocError, AllocFailed, Global};

// The most bytes that the answer to a line has, and that the end of a session has.
const ANSWER: usize = 26;

const ENDING: usize = 54;

// A last line that has no end is refused.
fn write_unfinished(line: &[u8], out: &mut Vec<u8>)
    requires { HasRoom (answer_most + end_most) out.old }
    ensures items { out.new.items ≡ out.old.items ++ unfinished line.now }
    ensures room { HasRoom end_most out.new }
{
    if !line.is_empty() {
        write_answer(8, Err(Refusal::NotAForm), out);
    }
}

impl Session {
    // Answers the line, which has ended.
    #[tactic(auto, using(crate::proofs::Hearing::cleared))]
    fn end_line(&mut self, out: &mut Vec<u8>)
        requires { HasRoom answer_most out.old }
        ensures heard { Standing self.old (λ b line. (out.new.items ≡ out.old.items ++ reply b line) × Stands self.new (heard b line) []) }
        ensures line { Uses 0 self.old.line self.new.line }
        ensures room { Uses answer_most out.old out.new }
    {
        let digits = self.digits();
        let answer = self.answer();
        self.line.clear();
        write_answer(digits, answer, out);
    }

    // Takes one byte in.
    #[tactic(auto, using(crate::proofs::Hearing::hears_end, crate::proofs::Hearing::hears_byte))]
    fn byte(&mut self, b: u8, out: &mut Vec<u8>)
        requires line { HasRoom 1 self.old.line }
        requires room { HasRoom answer_most out.old }
        ensures hears { Standing self.old (λ a line. Hears self.new a line (b ∷ []) out.old.items out.new.items) }
        ensures line { Uses 1 self.old.line self.new.line }
        ensures room { Uses answer_most out.old out.new }
    {
        if b == b'\n' {
            self.end_line(out);
        } else {
            self.line.push_reserved(b);
        }
    }

    // Makes room for so many more bytes and for their answers.
    fn make_room(&mut self, n: usize, out: &mut Vec<u8>) -> Result<(), AllocError>
        ensures stands { Standing self.old (Stands self.new) }
        ensures items { out.new.items ≡ out.old.items }
        ensures line { OnOk result (HasRoom n self.new.line) }
        ensures room { OnOk result (HasRoom (answer_most * n) out.new) }
    {
        let most = n.checked_mul(ANSWER).ok_or(AllocError)?;
        self.line.reserve(n)?;
        out.reserve(most)
    }

    // Takes all the bytes in, one after the other.
    #[tactic(auto, using(crate::proofs::Hearing::hears_none))]
    fn hear_all(&mut self, chunk: &[u8], out: &mut Vec<u8>)
        requires line { HasRoom (length chunk.now) self.old.line }
        requires room { HasRoom (answer_most * length chunk.now) out.old }
        ensures { Standing self.old (λ b line. Hears self.new b line chunk.now out.old.items out.new.items) }
    {
        for b in chunk {
            self.byte(*b, out);
        }
    }

    // Writes what ends a session.
    fn write_ending(&self, out: &mut Vec<u8>)
        requires { HasRoom (answer_most + end_most) out.old }
        ensures { Standing self.now (λ b line. out.new.items ≡ out.old.items ++ ending b line) }
    {
        write_unfinished(self.line.as_slice(), out);
        write_end(self.entries(), 0, out);
    }

    /// A session that has heard nothing.
    pub fn new(heap: Global) -> Session
        ensures { Stands result untold [] }
    {
        Session {
            line: Vec::new(heap),
            books: None,
        }
    }

    /// Answers each line that the chunk ends. Where memory is short, nothing is heard and nothing written.
    #[tactic(auto, using(crate::proofs::Lines::cuts, crate::proofs::Digits::shown))]
    pub fn feed(&mut self, chunk: &[u8], out: &mut Vec<u8>) -> Result<(), AllocError>
        ensures fed { Standing self.old (λ b line. MatchResult result (λ _. Hears self.new b line chunk.now out.old.items out.new.items) (λ _. Stands self.new b line × (out.new.items ≡ out.old.items))) }
        ensures cuts { Cuts }
        ensures only { Only }
        ensures shown { Shown }
    {
        self.make_room(chunk.len(), out)?;
        self.hear_all(chunk, out);
        Ok(())
    }

    /// Ends the session. Where memory is short, nothing is written and the session comes back.
    pub fn finish(self, out: &mut Vec<u8>) -> Result<(), AllocFailed<Session>>
        ensures { Standing self (λ b line. MatchResult result (λ _. out.new.items ≡ out.old.items ++ ending b line) (λ e. Stands e.value b line × (out.new.items ≡ out.old.items))) }
    {
        // By hand, since in a `map_err` the session would move before it is written.
        if out.reserve(ENDING).is_err() {
            return Err(AllocFailed { value: self });
        }
        self.write_ending(out);
        Ok(())
    }
}
