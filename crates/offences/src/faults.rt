// What speaks against a pair.
ghost use Rattle.std.specs.Prelude.{◌≡◌};
ghost use Rattle.offences.specs.Faults.{offence_refusal};

use refusals::Refusal;

#[derive(Clone, Copy, PartialEq, Eq, Debug)]
pub enum Offence {
    // a row, and a limit that applies in it and is not kept
    Limit { row: u8, limit: usize },
    // two rows that see the same at the moment of a point in the first, and have it at two moments
    Early { first: u8, second: u8, point: u8 },
}

impl From<Offence> for Refusal {
    ghost from_gives = { λ f r. r ≡ offence_refusal f };

    fn from(fault: Offence) -> Refusal {
        match fault {
            Offence::Limit { row, limit } => Refusal {
                number: 12,
                first: usize::from(row),
                second: limit,
                third: 0,
            },
            Offence::Early {
                first,
                second,
                point,
            } => Refusal {
                number: 13,
                first: usize::from(first),
                second: usize::from(second),
                third: usize::from(point),
            },
        }
    }
}
