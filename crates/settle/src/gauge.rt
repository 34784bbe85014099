ghost use Rattle.std.specs.Prelude.{◌≤◌};

/// The gauge of some numbers: how many have a worth other than 0, counted up to 4,294,967,295, and their peak, the least number of bits that each magnitude goes into.
#[derive(Clone, Copy)]
pub struct Gauge {
    pub count: u32,
    pub peak: u32,
    ghost fits: { count ≤ 4294967295 },
}
