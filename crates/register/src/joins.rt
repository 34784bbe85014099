//! Registers join by addition.
ghost use Rattle.register.specs.Sum.{zero_register, plus};
ghost use Rattle.register.specs.Laws.{plus_assoc, plus_comm, plus_zero};

use crate::Register;
use join::Join;

impl Join for Register {
    ghost neutral = { zero_register };

    ghost joined = { plus };

    ghost assoc = { plus_assoc };

    ghost comm = { plus_comm };

    ghost unit = { plus_zero };

    // The lemma is for the edit of this body, which is refused for its value and not for want of a step.
    #[tactic(auto, using(crate::specs::Laws::value_zero))]
    fn neutral() -> Register {
        Register::zero()
    }

    fn join(&mut self, other: &Register) {
        self.add(other);
    }
}
