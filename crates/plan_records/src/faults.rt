// Why a record is not read.
ghost use Rattle.std.specs.Prelude.{◌≡◌};
ghost use Rattle.plan_records.specs.Faults.{record_refusal};
ghost use Rattle.plan_records.specs.declared.faults.RecordFault.TheVariants.{InBound};

use refusals::Refusal;
use times::TimeFault;

#[derive(Clone, Copy, PartialEq, Eq, Debug)]
pub enum RecordFault {
    // the bytes end before a field does; their length
    Ended(usize),
    // the name whose length byte is here
    Name(usize),
    // the test at this place
    Test(usize),
    // the points or letters of the limit at this place
    Limit(usize),
    InBound(TimeFault),
    // bytes follow the last record, from this place on
    Trailing(usize),
}

impl From<RecordFault> for Refusal {
    ghost from_gives = { λ f r. r ≡ record_refusal f };

    fn from(fault: RecordFault) -> Refusal {
        match fault {
            RecordFault::InBound(fault) => Refusal::from(fault),
            RecordFault::Ended(length) => Refusal::at(1, length),
            RecordFault::Name(place) => Refusal::at(6, place),
            RecordFault::Test(place) => Refusal::at(7, place),
            RecordFault::Limit(place) => Refusal::at(8, place),
            RecordFault::Trailing(place) => Refusal::at(10, place),
        }
    }
}

// The fault of a bound keeps its number and place.
impl From<TimeFault> for RecordFault {
    ghost from_gives = { λ f r. r ≡ InBound f };

    fn from(fault: TimeFault) -> RecordFault {
        RecordFault::InBound(fault)
    }
}
