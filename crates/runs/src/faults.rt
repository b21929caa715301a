// Why a run gives no step, and why it takes no outcome.
ghost use Rattle.std.specs.Prelude.{◌≡◌};
ghost use Rattle.runs.specs.Faults.{release_refusal, tell_refusal};
ghost use Rattle.runs.specs.declared.faults.ReleaseFault.TheVariants.{InMemory};

use crate::Token;
use plans::MemoryFault;
use refusals::Refusal;

#[derive(Clone, Copy, PartialEq, Eq, Debug)]
pub enum ReleaseFault {
    InMemory(MemoryFault),
    // the run was opened for another number of points or letters
    OtherPlan,
    // every point is released
    NoneLeft,
    // the outcome of this letter is seen at the step, and not yet told
    Waits(u8),
}

impl From<ReleaseFault> for Refusal {
    ghost from_gives = { λ f r. r ≡ release_refusal f };

    fn from(fault: ReleaseFault) -> Refusal {
        match fault {
            ReleaseFault::InMemory(fault) => Refusal::from(fault),
            ReleaseFault::OtherPlan => Refusal::at(14, 0),
            ReleaseFault::NoneLeft => Refusal::at(15, 0),
            ReleaseFault::Waits(letter) => Refusal::at(16, usize::from(letter)),
        }
    }
}

impl From<MemoryFault> for ReleaseFault {
    ghost from_gives = { λ f r. r ≡ InMemory f };

    fn from(fault: MemoryFault) -> ReleaseFault {
        ReleaseFault::InMemory(fault)
    }
}

// A token that was not taken, to be used again.
pub struct HandedBack {
    pub token: Token,
}

// A token that is handed back is to be used again, so its refusal is made without it.
impl From<&HandedBack> for Refusal {
    ghost from_gives = { λ f r. r ≡ tell_refusal f.now };

    fn from(_fault: &HandedBack) -> Refusal {
        Refusal::at(17, 0)
    }
}
