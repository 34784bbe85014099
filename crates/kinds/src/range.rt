//! Sums that are out of a kind's range.
ghost use Rattle.std.specs.Prelude.{◌≡◌, if◌then◌else◌};
ghost use Rattle.refusals.specs.declared.Refusal.TheVariants.{AboveRange, BelowRange};

use refusals::Refusal;

// Why a sum of this sign is refused.
pub(crate) fn past(negative: bool) -> Refusal
    ensures { result ≡ (if negative then BelowRange else AboveRange) }
{
    if negative {
        Refusal::BelowRange
    } else {
        Refusal::AboveRange
    }
}
