//! Gauges join: their counts are added, and the larger peak is kept.
ghost use Rattle.std.specs.Prelude.{◌≡◌};
ghost use Rattle.settle.specs.Both.{none_seen, both};
ghost use Rattle.settle.specs.Laws.{both_assoc, both_comm, both_none};

use crate::gauge::Gauge;
use join::Join;

// By hand, since no derive makes a struct with a ghost field.
impl Default for Gauge {
    ghost is_default = { λ gauge. gauge ≡ none_seen };

    fn default() -> Gauge {
        Gauge { count: 0, peak: 0 }
    }
}

impl Gauge {
    fn with(&self, other: &Gauge) -> Gauge
        ensures { result ≡ both self.now other.now }
    {
        Gauge {
            count: self.count.saturating_add(other.count),
            peak: self.peak.max(other.peak),
        }
    }
}

impl Join for Gauge {
    ghost neutral = { none_seen };

    ghost joined = { both };

    ghost assoc = { both_assoc };

    ghost comm = { both_comm };

    ghost unit = { both_none };

    fn neutral() -> Gauge {
        Gauge::default()
    }

    fn join(&mut self, other: &Gauge) {
        *self = self.with(other);
    }
}
