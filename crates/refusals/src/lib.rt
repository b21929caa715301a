// What a call answers where it refuses: the number of the refusal and its places.
// Every enum of faults in the crates above is turned into this one shape by one numbering of its own.
#![tactic(auto)]

ghost use Rattle.std.specs.Prelude.{◌≡◌};
ghost use Rattle.refusals.specs.Answers.{refusal_at};

mod rooms;

pub use rooms::{NoRoom, check_room};

// A place that a refusal does not name is 0.
#[derive(Clone, Copy, PartialEq, Eq, Debug)]
pub struct Refusal {
    pub number: u16,
    pub first: usize,
    pub second: usize,
    pub third: usize,
}

impl Refusal {
    // The refusal with a number and one place.
    pub fn at(number: u16, place: usize) -> Refusal
        ensures { result ≡ refusal_at number place }
    {
        Refusal {
            number,
            first: place,
            second: 0,
            third: 0,
        }
    }
}
