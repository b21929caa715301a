// Why a pair is not shifted.
ghost use Rattle.std.specs.Prelude.{◌≡◌};
ghost use Rattle.shifts.specs.Faults.{shift_fault};
ghost use Rattle.shifts.specs.declared.faults.ShiftFault.TheVariants.{InMemory};

use plans::MemoryFault;
use refusals::{NoRoom, Refusal};

#[derive(Clone, Copy, PartialEq, Eq, Debug)]
pub enum ShiftFault {
    InMemory(MemoryFault),
    // too many points or limits, or a time that is too late
    TooLarge,
    // the array for limits
    ShortLimits(NoRoom),
    // the array for times
    ShortTimes(NoRoom),
}

impl From<ShiftFault> for Refusal {
    ghost from_gives = { λ f r. r ≡ shift_fault f };

    fn from(fault: ShiftFault) -> Refusal {
        match fault {
            ShiftFault::InMemory(fault) => Refusal::from(fault),
            ShiftFault::TooLarge => Refusal::at(18, 0),
            ShiftFault::ShortLimits(fault) => Refusal::from(fault),
            ShiftFault::ShortTimes(fault) => Refusal::from(fault),
        }
    }
}

impl From<MemoryFault> for ShiftFault {
    ghost from_gives = { λ f r. r ≡ InMemory f };

    fn from(fault: MemoryFault) -> ShiftFault {
        ShiftFault::InMemory(fault)
    }
}
