// Counts of ticks, and differences.
ghost use Rattle.std.specs.Prelude.{◌≡◌, ◌≤◌, ◌-ℤ◌};
ghost use Rattle.std.specs.Option.{option_map};
ghost use Rattle.times.specs.Moments.{later_ticks, ticks_of};

// How many whole ticks to add to a time. They are at most 1,000,000,000, so that every count can be added.
#[derive(Clone, Copy)]
pub struct Ticks {
    count: u32,
    ghost bounded: { count ≤ 1000000000 },
}

impl Ticks {
    pub fn new(count: u32) -> Option<Ticks>
        ensures { option_map (λ (t : Ticks). t.count) result ≡ ticks_of count }
    {
        // not `then`: its closure would not know that the count is in bounds
        if count <= 1_000_000_000 {
            Some(Ticks { count })
        } else {
            None
        }
    }

    pub fn count(&self) -> u32
        ensures { result ≡ self.now.count }
    {
        self.count
    }

    // So many ticks later, or `None` where that leaves the range of ticks.
    pub fn after(&self, ticks: i32) -> Option<i32>
        ensures { result ≡ later_ticks ticks self.now.count }
    {
        let Ticks { count, .. } = *self;
        let sum = i64::from(ticks) + i64::from(count);
        if !(-1_000_000_000..=1_000_000_000).contains(&sum) {
            return None;
        }
        Some(sum as i32)
    }
}

// `a` minus `b`, with room for every difference.
pub fn difference(a: i32, b: i32) -> i64
    ensures { result ≡ a -ℤ b }
{
    i64::from(a) - i64::from(b)
}
