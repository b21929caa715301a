// Why a head is not made.
ghost use Rattle.std.specs.Prelude.{◌≡◌};
ghost use Rattle.heads.specs.Faults.{head_fault};

use refusals::Refusal;

#[derive(Clone, Copy, PartialEq, Eq, Debug)]
pub enum HeadFault {
    // the number of points or of tests
    Counts,
    // r or d
    Figures,
    // the test with this number
    Test(usize),
}

impl From<HeadFault> for Refusal {
    ghost from_gives = { λ f r. r ≡ head_fault f };

    fn from(fault: HeadFault) -> Refusal {
        match fault {
            HeadFault::Counts => Refusal::at(4, 0),
            HeadFault::Figures => Refusal::at(5, 0),
            HeadFault::Test(i) => Refusal::at(7, i),
        }
    }
}
