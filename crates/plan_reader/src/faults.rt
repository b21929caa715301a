// Why a plan file is not read.
ghost use Rattle.std.specs.Prelude.{◌≡◌};
ghost use Rattle.plan_reader.specs.Faults.{plan_refusal};
ghost use Rattle.plan_reader.specs.declared.faults.PlanFault.TheVariants.{InHeader, InRecord, NoRoom};

use files::headers::HeaderFault;
use plan_records::RecordFault;
use refusals::{NoRoom, Refusal};

#[derive(Clone, Copy, PartialEq, Eq, Debug)]
pub enum PlanFault {
    InHeader(HeaderFault),
    // the array is shorter than this number of limits
    NoRoom(NoRoom),
    InRecord(RecordFault),
}

impl From<PlanFault> for Refusal {
    ghost from_gives = { λ f r. r ≡ plan_refusal f };

    fn from(fault: PlanFault) -> Refusal {
        match fault {
            PlanFault::InHeader(fault) => Refusal::from(fault),
            PlanFault::InRecord(fault) => Refusal::from(fault),
            PlanFault::NoRoom(fault) => Refusal::from(fault),
        }
    }
}

impl From<HeaderFault> for PlanFault {
    ghost from_gives = { λ f r. r ≡ InHeader f };

    fn from(fault: HeaderFault) -> PlanFault {
        PlanFault::InHeader(fault)
    }
}

// A record's fault keeps its number and place, and with it that of a bound.
impl From<RecordFault> for PlanFault {
    ghost from_gives = { λ f r. r ≡ InRecord f };

    fn from(fault: RecordFault) -> PlanFault {
        PlanFault::InRecord(fault)
    }
}

impl From<NoRoom> for PlanFault {
    ghost from_gives = { λ f r. r ≡ NoRoom f };

    fn from(fault: NoRoom) -> PlanFault {
        PlanFault::NoRoom(fault)
    }
}
