//! The halving plan, whose two parts share the dots evenly.
ghost use Rattle.std.specs.Prelude.{◌≡◌, ◌+◌, ◌*◌, ◌/◌, ◌≤◌, length};
ghost use Rattle.plans.specs.Plan.{text as written};
ghost use Rattle.plans.specs.Halving.{halving, HalvingRule};

use crate::reads::plan_bytes;

// Thin, so that an edit of the call is refused for its meaning and not in a proof file.
/// Fills a text with the halving plan of so many dots.
pub fn write_halving(text: &mut [u8], dots: usize)
    requires { (1 ≤ dots) × ((dots ≤ 4095) × (length text.old + 2 ≡ 3 * dots)) }
    ensures filled { text.new ≡ written (halving dots) }
    ensures rule { HalvingRule }
{
    fill(text, dots);
}

fn fill(text: &mut [u8], dots: usize)
    requires { (1 ≤ dots) × ((dots ≤ 4095) × (length text.old + 2 ≡ 3 * dots)) }
    ensures filled { text.new ≡ written (halving dots) }
    ensures rule { HalvingRule }
{
    if dots == 1 {
        text[0] = b'.';
        return;
    }
    let (left, right) = halves(dots);
    let middle = 1 + plan_bytes(left);
    let end = text.len() - 1;
    text[0] = b'(';
    fill(&mut text[1..middle], left);
    fill(&mut text[middle..end], right);
    text[end] = b')';
}

// The dots of the left part and of the right part; the left one has the odd dot.
fn halves(dots: usize) -> (usize, usize)
    requires { dots ≤ 4095 }
    ensures left { result.0 ≡ (dots + 1) / 2 }
    ensures right { result.1 ≡ dots / 2 }
{
    (dots.div_ceil(2), dots / 2)
}
