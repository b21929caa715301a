// Which row is played, which of its steps comes next, and which outcome a step waits for. A change of one of these
// rules of a release is made here. Points and letters come as sets: the points released, the letters whose
// token is out, the letters told, and of those the ones told true.
#![tactic(auto)]

ghost use Rattle.std.specs.Prelude.{◌≡◌};
ghost use Rattle.std.specs.Option.{option_map};
ghost use Rattle.refusals.specs.Answers.{refusal_at};
ghost use Rattle.refusals.specs.Searches.{every};
ghost use Rattle.plans.specs.Lent.{plan_in, table_in};
ghost use Rattle.turns.specs.Turns.{agrees, behind, earliest, letter_of, lowest, waiting};

use plans::Pair;
use rules::Rule;
use sets::Set;
use times::Time;

// Each call takes what it asks about one by one: its promise names just that.

// The lowest row with all outcomes told.
pub fn lowest_row<T: Time>(told: Set, outcomes: Set, pair: &Pair<T>) -> Option<u8>
    ensures { result ≡ lowest (plan_in T.Time.moment pair.now) told outcomes }
{
    (0..pair.head.rows()).find(|row| is_agreeing(told, outcomes, pair, *row))
}

// Whether a row agrees with all outcomes told.
fn is_agreeing<T: Time>(told: Set, outcomes: Set, pair: &Pair<T>, row: u8) -> bool
    ensures { result ≡ agrees (plan_in T.Time.moment pair.now) told outcomes row }
{
    (0..pair.head.letters()).all(|letter| {
        !told.has(letter) || Set::from(row).has(letter) == outcomes.has(letter)
    })
}

// The earliest point of a row that is not released, and the lowest of those at its moment.
pub fn earliest_point<T: Time>(released: Set, pair: &Pair<T>, row: u8) -> Option<u8>
    ensures { result ≡ earliest (plan_in T.Time.moment pair.now) (table_in T.Time.moment pair.now) released row }
{
    (0..pair.head.points()).find(|point| {
        !released.has(*point) && is_unpreceded(released, pair, row, *point)
    })
}

// Whether no point that is not released is earlier in a row.
fn is_unpreceded<T: Time>(released: Set, pair: &Pair<T>, row: u8, point: u8) -> bool
    ensures { result ≡ every pair.now.head.now.points (behind (plan_in T.Time.moment pair.now) (table_in T.Time.moment pair.now) released row point) }
{
    (0..pair.head.points()).all(|other| {
        released.has(other) || !pair.time(row, other).is_earlier(pair.time(row, point))
    })
}

// The lowest letter that the step of a point in a row has to wait for: its token is out, it is not told, and the row
// sees it then.
pub fn find_wait<T: Time, R: Rule>(
    out: Set,
    told: Set,
    pair: &Pair<T>,
    rule: &R,
    row: u8,
    point: u8,
) -> Option<u8>
    ensures { option_map (refusal_at 16) result ≡ waiting (plan_in T.Time.moment pair.now) (table_in T.Time.moment pair.now) (R.Rule.sees rule.now) out told row point }
{
    let at = pair.time(row, point);
    (0..pair.head.letters()).find(|letter| {
        out.has(*letter)
            && !told.has(*letter)
            && rule.is_seen(*letter, pair.time(row, pair.head.point(*letter)), at)
    })
}

// The letter of a point that is a test.
pub fn find_letter<T: Time>(pair: &Pair<T>, point: u8) -> Option<u8>
    ensures { result ≡ letter_of (plan_in T.Time.moment pair.now) point }
{
    (0..pair.head.letters()).find(|letter| pair.head.point(*letter) == point)
}
