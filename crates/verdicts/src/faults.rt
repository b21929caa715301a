// Why a pair is not accepted.
ghost use Rattle.std.specs.Prelude.{◌≡◌};
ghost use Rattle.verdicts.specs.Faults.{pair_refusal};
ghost use Rattle.verdicts.specs.declared.faults.PairFault.TheVariants.{InMemory};

use offences::Offence;
use plans::MemoryFault;
use refusals::Refusal;

#[derive(Clone, Copy, PartialEq, Eq, Debug)]
pub enum PairFault {
    InMemory(MemoryFault),
    Offends(Offence),
}

impl From<PairFault> for Refusal {
    ghost from_gives = { λ f r. r ≡ pair_refusal f };

    fn from(fault: PairFault) -> Refusal {
        match fault {
            PairFault::InMemory(fault) => Refusal::from(fault),
            PairFault::Offends(offence) => Refusal::from(offence),
        }
    }
}

impl From<MemoryFault> for PairFault {
    ghost from_gives = { λ f r. r ≡ InMemory f };

    fn from(fault: MemoryFault) -> PairFault {
        PairFault::InMemory(fault)
    }
}
