// The kind of time that has whole ticks alone. A change of how whole times are kept or coded is made here.
#![tactic(auto)]

ghost use Rattle.std.specs.Prelude.{◌≡◌};
ghost use Rattle.times.specs.declared.codings.Kind.TheVariants as kinds;
ghost use Rattle.times.specs.Moments.{whole};
ghost use Rattle.times.proofs.Words.{again};

use times::{Coded, Kind, Ticks, Time, TimeFault, difference, signed_at};

#[derive(Clone, Copy, PartialEq, Eq, PartialOrd, Ord, Debug)]
pub struct Whole {
    pub ticks: i32,
}

impl Time for Whole {
    ghost moment = { λ t. whole t.ticks };

    ghost kind = { kinds.Whole };

    ghost recoded = { again };

    fn is_earlier(self, other: Whole) -> bool {
        self < other
    }

    fn is_within(self, second: Whole, bound: Whole) -> bool {
        difference(second.ticks, self.ticks) <= i64::from(bound.ticks)
    }

    fn add_ticks(self, ticks: Ticks) -> Option<Whole> {
        let ticks = ticks.after(self.ticks)?;
        Some(Whole { ticks })
    }

    fn last_tick(self) -> i64 {
        i64::from(self.ticks)
    }

    fn kind() -> Kind {
        Kind::Whole
    }

    fn encode(self) -> Coded {
        Coded::Four(self.ticks.to_be_bytes())
    }

    fn decode(file: &[u8], at: usize) -> Result<Whole, TimeFault> {
        let ticks = signed_at(file, at)?;
        Ok(Whole { ticks })
    }
}
