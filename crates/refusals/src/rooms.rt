// Room in an array that a caller lends.
ghost use Rattle.std.specs.Prelude.{◌≡◌};
ghost use Rattle.refusals.specs.Answers.{answer_of};
ghost use Rattle.refusals.specs.Rooms.{no_room_refusal, room_answer};

use crate::Refusal;

// An array is shorter than what is to be put into it, whose length this is.
#[derive(Clone, Copy, PartialEq, Eq, Debug)]
pub struct NoRoom(pub usize);

impl From<NoRoom> for Refusal {
    ghost from_gives = { λ f r. r ≡ no_room_refusal f };

    fn from(fault: NoRoom) -> Refusal {
        Refusal::at(11, fault.0)
    }
}

// Whether an array of so much room can take so many.
pub fn check_room(room: usize, size: usize) -> Result<(), NoRoom>
    ensures { answer_of (λ u. u) no_room_refusal result ≡ room_answer room size }
{
    if room < size {
        return Err(NoRoom(size));
    }
    Ok(())
}
