// Why a table file is not read, and why a table is not written.
ghost use Rattle.std.specs.Prelude.{◌≡◌};
ghost use Rattle.table_files.specs.Faults.{table_refusal, write_fault};
ghost use Rattle.table_files.specs.declared.faults.TableFault.TheVariants.{InHeader, InTime};
ghost use Rattle.table_files.specs.declared.faults.TableFault.TheVariants as read;
ghost use Rattle.table_files.specs.declared.faults.WriteFault.TheVariants.{InMemory};
ghost use Rattle.table_files.specs.declared.faults.WriteFault.TheVariants as write;

use files::headers::HeaderFault;
use plans::MemoryFault;
use refusals::{NoRoom, Refusal};
use times::TimeFault;

#[derive(Clone, Copy, PartialEq, Eq, Debug)]
pub enum TableFault {
    InHeader(HeaderFault),
    // the array is shorter than this number of times
    NoRoom(NoRoom),
    InTime(TimeFault),
    // bytes follow the last time, from this place on
    Trailing(usize),
}

impl From<TableFault> for Refusal {
    ghost from_gives = { λ f r. r ≡ table_refusal f };

    fn from(fault: TableFault) -> Refusal {
        match fault {
            TableFault::InHeader(fault) => Refusal::from(fault),
            TableFault::InTime(fault) => Refusal::from(fault),
            TableFault::NoRoom(fault) => Refusal::from(fault),
            TableFault::Trailing(place) => Refusal::at(10, place),
        }
    }
}

impl From<HeaderFault> for TableFault {
    ghost from_gives = { λ f r. r ≡ InHeader f };

    fn from(fault: HeaderFault) -> TableFault {
        TableFault::InHeader(fault)
    }
}

// A time's fault keeps its number and place.
impl From<TimeFault> for TableFault {
    ghost from_gives = { λ f r. r ≡ InTime f };

    fn from(fault: TimeFault) -> TableFault {
        TableFault::InTime(fault)
    }
}

#[derive(Clone, Copy, PartialEq, Eq, Debug)]
pub enum WriteFault {
    // the number of times, or one of them
    InMemory(MemoryFault),
    // the array is shorter than the file, whose length this is
    NoRoom(NoRoom),
}

impl From<WriteFault> for Refusal {
    ghost from_gives = { λ f r. r ≡ write_fault f };

    fn from(fault: WriteFault) -> Refusal {
        match fault {
            WriteFault::InMemory(fault) => Refusal::from(fault),
            WriteFault::NoRoom(fault) => Refusal::from(fault),
        }
    }
}

impl From<MemoryFault> for WriteFault {
    ghost from_gives = { λ f r. r ≡ InMemory f };

    fn from(fault: MemoryFault) -> WriteFault {
        WriteFault::InMemory(fault)
    }
}

impl From<NoRoom> for TableFault {
    ghost from_gives = { λ f r. r ≡ read.NoRoom f };

    fn from(fault: NoRoom) -> TableFault {
        TableFault::NoRoom(fault)
    }
}

impl From<NoRoom> for WriteFault {
    ghost from_gives = { λ f r. r ≡ write.NoRoom f };

    fn from(fault: NoRoom) -> WriteFault {
        WriteFault::NoRoom(fault)
    }
}
