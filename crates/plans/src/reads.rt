//! Whether a text is a plan, and if not, up to where it could be one.
ghost use Rattle.std.specs.Prelude.{◌≡◌, ◌+◌, ◌*◌, ◌<◌, ◌≤◌, length};
ghost use Rattle.plans.specs.Plan.{PlanAnswer, OnePlan, PlanBytes};
ghost use Rattle.plans.specs.Goals.{PartAnswer, WholeAnswer};

use refusals::Refusal;

// Where the reader stands, and how many dots are still to come.
#[derive(Clone, Copy)]
struct Stand {
    at: usize,
    left: usize,
}

/// Asks whether a text has the bytes of a plan with so many dots, and then whether it is one.
/// A text that is none is refused with the length of its longest start that begins such a plan.
pub fn read_plan(text: &[u8], dots: usize) -> Result<(), Refusal>
    requires { (1 ≤ dots) × (dots ≤ 4095) }
    ensures answer { PlanAnswer dots text.now result }
    ensures one { OnePlan }
    ensures bytes { PlanBytes }
{
    if text.len() != plan_bytes(dots) {
        return Err(Refusal::WrongPlanLength);
    }
    whole_plan(text, dots).map_err(Refusal::NotAPlan)
}

// The dots stay a number with a bound: a type of them would be narrower than what the public calls take.
// How many bytes each plan with so many dots has: one for each dot, and two brackets for each dot but one.
pub(crate) fn plan_bytes(dots: usize) -> usize
    requires { (1 ≤ dots) × (dots ≤ 4095) }
    ensures value { result + 2 ≡ 3 * dots }
    ensures one { OnePlan }
    ensures bytes { PlanBytes }
{
    3 * dots - 2
}

fn whole_plan(text: &[u8], dots: usize) -> Result<(), usize>
    requires { (1 ≤ dots) × ((dots ≤ 4095) × (length text.now + 2 ≡ 3 * dots)) }
    ensures { WholeAnswer dots text.now result }
{
    // Every plan of so many dots is as long as the text, so nothing is left behind this one.
    part(text, Stand { at: 0, left: dots }, 0)?;
    Ok(())
}

// Reads one part, behind which so many more parts are owed. The error is no code but the place where the text stops being a plan.
fn part(text: &[u8], from: Stand, owed: usize) -> Result<Stand, usize>
    requires { (from.at ≤ length text.now) × ((owed < from.left) × (from.left ≤ 4095)) }
    ensures { PartAnswer text.now from.at from.left owed result }
{
    let at = from.at;
    let left = from.left;
    if at >= text.len() {
        return Err(at);
    }
    match text[at] as char {
        '.' => {
            // The last part has all the dots that are left.
            if owed == 0 && left != 1 {
                return Err(at);
            }
            Ok(Stand {
                at: at + 1,
                left: left - 1,
            })
        }
        '(' => {
            // A pair has two dots at least, and each part that is owed has one.
            if left < owed + 2 {
                return Err(at);
            }
            let first = part(text, Stand { at: at + 1, left }, owed + 1)?;
            let second = part(text, first, owed)?;
            let end = second.at;
            if end >= text.len() {
                return Err(end);
            }
            match text[end] as char {
                ')' => Ok(Stand {
                    at: end + 1,
                    left: second.left,
                }),
                _ => Err(end),
            }
        }
        _ => Err(at),
    }
}
