ghost use Rattle.std.specs.Prelude.{◌*◌, ◌≤◌, unsigned_abs};
ghost use Rattle.register.specs.Value.{value};
ghost use Rattle.accounts.specs.Reach.{reach};

use register::Register;

/// An account that keeps its total exactly, in a register. So many entries never reach the register's width.
#[derive(Drop)]
pub struct RegisterAccount {
    pub(crate) sum: Register,
    pub(crate) count: u32,
    ghost few: { count ≤ 4294967295 },
    ghost within: { unsigned_abs (value sum) ≤ count * reach },
}
