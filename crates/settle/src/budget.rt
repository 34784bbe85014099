ghost use Rattle.std.specs.Prelude.{◌≤◌};

/// The settings of a settle: its budget, which is at most 8.
#[derive(Clone, Copy)]
pub struct Settings {
    pub(crate) budget: u8,
    ghost most: { budget ≤ 8 },
}
