// Why a plan is not written.
ghost use Rattle.std.specs.Prelude.{◌≡◌};
ghost use Rattle.plan_writer.specs.Faults.{write_fault};
ghost use Rattle.plan_writer.specs.declared.faults.PlanWriteFault.TheVariants.{InMemory, InNames, NoRoom};

use plan_records::RecordFault;
use plans::MemoryFault;
use refusals::{NoRoom, Refusal};

#[derive(Clone, Copy, PartialEq, Eq, Debug)]
pub enum PlanWriteFault {
    // the number of limits, or one of them
    InMemory(MemoryFault),
    // a place in the run of names
    InNames(RecordFault),
    // the array is shorter than the file, whose length this is
    NoRoom(NoRoom),
}

impl From<PlanWriteFault> for Refusal {
    ghost from_gives = { λ f r. r ≡ write_fault f };

    fn from(fault: PlanWriteFault) -> Refusal {
        match fault {
            PlanWriteFault::InMemory(fault) => Refusal::from(fault),
            PlanWriteFault::InNames(fault) => Refusal::from(fault),
            PlanWriteFault::NoRoom(fault) => Refusal::from(fault),
        }
    }
}

impl From<MemoryFault> for PlanWriteFault {
    ghost from_gives = { λ f r. r ≡ InMemory f };

    fn from(fault: MemoryFault) -> PlanWriteFault {
        PlanWriteFault::InMemory(fault)
    }
}

impl From<RecordFault> for PlanWriteFault {
    ghost from_gives = { λ f r. r ≡ InNames f };

    fn from(fault: RecordFault) -> PlanWriteFault {
        PlanWriteFault::InNames(fault)
    }
}

impl From<NoRoom> for PlanWriteFault {
    ghost from_gives = { λ f r. r ≡ NoRoom f };

    fn from(fault: NoRoom) -> PlanWriteFault {
        PlanWriteFault::NoRoom(fault)
    }
}
