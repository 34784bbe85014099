//! The total of a fleet: the registers of many vehicles, added.
ghost use Rattle.accounts.specs.Fleet.{ReachAnswer, FleetAnswer};

use join::fold;
use kinds::kind::Kind;
use refusals::Refusal;
use register::Register;

// Asks whether each register lies strictly between -2^2131 and 2^2131. By a loop, since a `position` leaves open what its test tells of a register's bits.
fn all_in_reach(registers: &[Register]) -> Result<(), Refusal>
    ensures { ReachAnswer registers.now result }
{
    for (i, register) in registers.iter().enumerate() {
        if register.magnitude().bit_length() > 2131 {
            return Err(Refusal::RegisterTooLarge(i));
        }
    }
    Ok(())
}

/// The outcome of the sum of at most 1,024 registers, whose accounts were all of this kind.
pub fn fleet_total<K: Kind>(registers: &[Register]) -> Result<u64, Refusal>
    ensures { FleetAnswer K.Kind registers.now result }
{
    if registers.len() > 1024 {
        return Err(Refusal::WrongCount);
    }
    all_in_reach(registers)?;
    K::outcome(&fold(registers))
}
