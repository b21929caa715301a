// Why what a call is lent is refused.
ghost use Rattle.std.specs.Prelude.{◌≡◌};
ghost use Rattle.plans.specs.Faults.{memory_fault};

use refusals::Refusal;

#[derive(Clone, Copy, PartialEq, Eq, Debug)]
pub enum MemoryFault {
    // more limits than a plan may have
    ManyLimits,
    // not a time for each point in each row
    CountOfTimes,
    // the limit with this number: its points or its letters
    Limit(usize),
    // the bound of the limit with this number
    Bound(usize),
    // the time with this number
    Time(usize),
}

impl From<MemoryFault> for Refusal {
    ghost from_gives = { λ f r. r ≡ memory_fault f };

    fn from(fault: MemoryFault) -> Refusal {
        match fault {
            MemoryFault::ManyLimits => Refusal::at(4, 0),
            MemoryFault::CountOfTimes => Refusal::at(4, 1),
            MemoryFault::Limit(j) => Refusal::at(8, j),
            MemoryFault::Bound(j) => Refusal::at(9, j),
            MemoryFault::Time(i) => Refusal::at(9, i),
        }
    }
}
