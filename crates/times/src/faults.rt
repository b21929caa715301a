// Why a time is not read.
ghost use Rattle.std.specs.Prelude.{◌≡◌};
ghost use Rattle.times.specs.Coding.{time_refusal};

use refusals::Refusal;

#[derive(Clone, Copy, PartialEq, Eq, Debug)]
pub enum TimeFault {
    // The file, of so many bytes, ends before the time does.
    Ended(usize),
    // The time that begins at this place breaks its rule.
    OutOfRule(usize),
}

impl From<TimeFault> for Refusal {
    ghost from_gives = { λ f r. r ≡ time_refusal f };

    fn from(fault: TimeFault) -> Refusal {
        match fault {
            TimeFault::Ended(length) => Refusal::at(1, length),
            TimeFault::OutOfRule(place) => Refusal::at(9, place),
        }
    }
}
