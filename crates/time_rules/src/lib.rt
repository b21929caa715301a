// What is asked of times of any kind, answered by the pair of ticks and grains in their bytes: the rules of bounds
// and of table times, and which times are at zero, are the same or have no grains. A change of such a rule is made here.
#![tactic(auto)]

ghost use Rattle.std.specs.Prelude.{◌≡◌, Decides};
ghost use Rattle.times.specs.Moments.{bound_rule, is_zero, moment_of, same_moment, table_rule, whole};

use times::{Coded, Time};

// The ticks and the grains of a time of any kind. Not `Fine`: a time of another kind need not be one of the fine kind.
#[derive(Clone, Copy, PartialEq, Eq)]
struct Parts {
    ticks: i32,
    grains: i32,
}

fn parts_of<T: Time>(t: T) -> Parts
    ensures { T.Time.moment t ≡ moment_of result.ticks result.grains }
{
    match t.encode() {
        Coded::Four(bytes) => Parts {
            ticks: i32::from_be_bytes(bytes),
            grains: 0,
        },
        Coded::Eight(bytes) => {
            let [a, b, c, d, e, f, g, h] = bytes;
            Parts {
                ticks: i32::from_be_bytes([a, b, c, d]),
                grains: i32::from_be_bytes([e, f, g, h]),
            }
        }
    }
}

// Does a time keep the rule of a bound?
pub fn is_bound<T: Time>(t: T) -> bool
    ensures { result ≡ bound_rule (T.Time.moment t) }
{
    let Parts { ticks, grains } = parts_of(t);
    (-1_000_000..=1_000_000).contains(&ticks) && (-1_000..=1_000).contains(&grains)
}

// Does a time keep the rule of a table's times?
pub fn is_table_time<T: Time>(t: T) -> bool
    ensures { result ≡ table_rule (T.Time.moment t) }
{
    let zero = whole_ticks::<T>(0);
    let Parts { ticks, grains } = parts_of(t);
    !t.is_earlier(zero) && ticks <= 1_000_000 && (-1_000..=1_000).contains(&grains)
}

pub fn is_at_zero<T: Time>(t: T) -> bool
    ensures { result ≡ is_zero (T.Time.moment t) }
{
    let zero = Parts {
        ticks: 0,
        grains: 0,
    };
    parts_of(t) == zero
}

// Do two times stand for one moment?
pub fn is_same<T: Time>(a: T, b: T) -> bool
    ensures value { result ≡ same_moment (T.Time.moment a) (T.Time.moment b) }
    ensures same { Decides result (T.Time.moment a ≡ T.Time.moment b) }
{
    parts_of(a) == parts_of(b)
}

// Whole ticks as a time of any kind, made from its bytes: those of the ticks, and zeros for grains.
pub fn whole_ticks<T: Time>(ticks: i32) -> T
    ensures { T.Time.moment result ≡ whole ticks }
{
    let [a, b, c, d] = ticks.to_be_bytes();
    let bytes = [a, b, c, d, 0, 0, 0, 0];
    let Ok(t) = T::decode(&bytes, 0) else {
        unreachable()
    };
    t
}
