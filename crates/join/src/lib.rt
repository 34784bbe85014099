//! What can be joined in any order and any bracketing.
#![tactic(auto)]

ghost use Rattle.std.specs.Prelude.{◌≡◌, fold};
ghost use Rattle.join.specs.Orders.{EveryWay};

/// A join, in algebra a commutative monoid: it has a neutral item, and the order and the bracketing of the items don't matter.
pub trait Join: Sized {
    ghost neutral: { Self };

    ghost joined: { Self → Self → Self };

    fn neutral() -> Self
        ensures { result ≡ neutral };

    fn join(&mut self, other: &Self)
        ensures { self.new ≡ joined self.old other.now };

    ghost assoc: { (a b c : Self) → joined (joined a b) c ≡ joined a (joined b c) };

    ghost comm: { (a b : Self) → joined a b ≡ joined b a };

    ghost unit: { (a : Self) → joined a neutral ≡ a };
}

// The items joined one after the other.
fn left_to_right<J: Join>(items: &[J]) -> J
    ensures value { result ≡ fold J.joined J.neutral items.now }
    ensures every { EveryWay J.joined J.neutral items.now result }
{
    let mut all = J::neutral();
    for item in items {
        all.join(item);
    }
    all
}

// Thin, so that an edit of the call is refused for its meaning and not in a proof file.
/// All items joined, from the left to the right; every bracketing of every order of them comes to the same.
pub fn fold<J: Join>(items: &[J]) -> J
    ensures value { result ≡ fold J.joined J.neutral items.now }
    ensures every { EveryWay J.joined J.neutral items.now result }
{
    left_to_right(items)
}
