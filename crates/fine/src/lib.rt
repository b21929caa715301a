// The kind of time that has ticks and grains. A change of how fine times are kept or coded is made here.
#![tactic(auto)]

ghost use Rattle.std.specs.Prelude.{◌≡◌};
ghost use Rattle.times.specs.declared.codings.Kind.TheVariants as kinds;
ghost use Rattle.times.specs.Moments.{minus, moment_of};
ghost use Rattle.times.proofs.Words.{again_twice};

use times::{Coded, Kind, Ticks, Time, TimeFault, difference, signed_at};

#[derive(Clone, Copy, PartialEq, Eq, PartialOrd, Ord, Debug)]
pub struct Fine {
    pub ticks: i32,
    pub grains: i32,
}

// Ticks and grains, with room for the difference of any two times. A struct, since the order of tuples does not prove.
#[derive(Clone, Copy, PartialEq, Eq, PartialOrd, Ord)]
struct Pair {
    ticks: i64,
    grains: i64,
}

impl Fine {
    fn pair(self) -> Pair
        ensures { moment_of result.ticks result.grains ≡ moment_of self.ticks self.grains }
    {
        Pair {
            ticks: i64::from(self.ticks),
            grains: i64::from(self.grains),
        }
    }

    fn minus(self, other: Fine) -> Pair
        ensures { moment_of result.ticks result.grains ≡ minus (moment_of self.ticks self.grains) (moment_of other.ticks other.grains) }
    {
        Pair {
            ticks: difference(self.ticks, other.ticks),
            grains: difference(self.grains, other.grains),
        }
    }
}

impl Time for Fine {
    ghost moment = { λ t. moment_of t.ticks t.grains };

    ghost kind = { kinds.Fine };

    ghost recoded = { again_twice };

    fn is_earlier(self, other: Fine) -> bool {
        self < other
    }

    fn is_within(self, second: Fine, bound: Fine) -> bool {
        second.minus(self) <= bound.pair()
    }

    fn add_ticks(self, ticks: Ticks) -> Option<Fine> {
        let ticks = ticks.after(self.ticks)?;
        let grains = self.grains;
        if !(-1_000_000..=1_000_000).contains(&grains) {
            return None;
        }
        Some(Fine { ticks, grains })
    }

    fn last_tick(self) -> i64 {
        let ticks = i64::from(self.ticks);
        if self.grains < 0 { ticks - 1 } else { ticks }
    }

    fn kind() -> Kind {
        Kind::Fine
    }

    fn encode(self) -> Coded {
        let [a, b, c, d] = self.ticks.to_be_bytes();
        let [e, f, g, h] = self.grains.to_be_bytes();
        Coded::Eight([a, b, c, d, e, f, g, h])
    }

    fn decode(file: &[u8], at: usize) -> Result<Fine, TimeFault> {
        let ticks = signed_at(file, at)?;
        let grains = signed_at(file, at + 4)?;
        Ok(Fine { ticks, grains })
    }
}
