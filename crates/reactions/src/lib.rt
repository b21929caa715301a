// Which rows act on what they do not see: the first early offence, and the first offence of all, for every kind of
// time and every rule. A change of what two rows see, or of the order of offences, is made here.
#![tactic(auto)]

ghost use Rattle.std.specs.Prelude.{◌≡◌};
ghost use Rattle.std.specs.Option.{option_map};
ghost use Rattle.plans.specs.Lent.{plan_in, table_in};
ghost use Rattle.offences.specs.Faults.{offence_refusal};
ghost use Rattle.offences.specs.Verdicts.{acts_early, alike, alike_in, early_between, early_in, first_early, offence, sees};

use offences::{Offence, find_break};
use plans::Pair;
use rules::Rule;
use sets::Set;
use time_rules::is_same;
use times::Time;

// The first offence. A limit offence comes before every early offence.
pub fn find_offence<T: Time, R: Rule>(pair: &Pair<T>, rule: &R) -> Option<Offence>
    ensures { option_map offence_refusal result ≡ offence (plan_in T.Time.moment pair.now) (table_in T.Time.moment pair.now) (R.Rule.sees rule.now) }
{
    // Not `or_else`: after it nothing is known of what its closure gave, with or without a clause, and no proof closes.
    if let Some(offence) = find_break(pair) {
        return Some(offence);
    }
    Trial { pair, rule }.find_early()
}

// A plan and a table, and the rule that they are judged under.
#[derive(Drop)]
struct Trial<'a, T, R> {
    pair: &'a Pair<'a, T>,
    rule: &'a R,
}

impl<T: Time, R: Rule> Trial<'_, T, R> {
    // The first early offence, by the first row, then the second, then the point.
    fn find_early(&self) -> Option<Offence>
        ensures { option_map offence_refusal result ≡ first_early (plan_in T.Time.moment self.now.pair.now) (table_in T.Time.moment self.now.pair.now) (R.Rule.sees self.now.rule.now) }
    {
        (0..self.pair.head.rows()).find_map(|a| self.early_in(a))
    }

    fn early_in(&self, a: u8) -> Option<Offence>
        ensures { option_map offence_refusal result ≡ early_in (plan_in T.Time.moment self.now.pair.now) (table_in T.Time.moment self.now.pair.now) (R.Rule.sees self.now.rule.now) a }
    {
        (0..self.pair.head.rows()).find_map(|b| self.early_between(a, b))
    }

    fn early_between(&self, a: u8, b: u8) -> Option<Offence>
        ensures { option_map offence_refusal result ≡ early_between (plan_in T.Time.moment self.now.pair.now) (table_in T.Time.moment self.now.pair.now) (R.Rule.sees self.now.rule.now) a b }
    {
        (0..self.pair.head.points())
            .find(|point| self.is_early(a, b, *point))
            .map(|point| Offence::Early {
                first: a,
                second: b,
                point,
            })
    }

    // Whether row `a` acts at a point on what it does not see. Equal times cost no question to the rule.
    fn is_early(&self, a: u8, b: u8, point: u8) -> bool
        ensures { result ≡ acts_early (plan_in T.Time.moment self.now.pair.now) (table_in T.Time.moment self.now.pair.now) (R.Rule.sees self.now.rule.now) a b point }
    {
        let at = self.pair.time(a, point);
        !is_same(at, self.pair.time(b, point)) && self.is_alike(a, b, at)
    }

    // Whether two rows see the same letters with the same values.
    fn is_alike(&self, a: u8, b: u8, at: T) -> bool
        ensures { result ≡ alike (plan_in T.Time.moment self.now.pair.now) (table_in T.Time.moment self.now.pair.now) (R.Rule.sees self.now.rule.now) a b (T.Time.moment at) }
    {
        (0..self.pair.head.letters()).all(|letter| self.is_alike_in(a, b, at, letter))
    }

    // Whether two rows see a letter with one value, or neither sees it.
    fn is_alike_in(&self, a: u8, b: u8, at: T, letter: u8) -> bool
        ensures { result ≡ alike_in (plan_in T.Time.moment self.now.pair.now) (table_in T.Time.moment self.now.pair.now) (R.Rule.sees self.now.rule.now) a b (T.Time.moment at) letter }
    {
        let seen = self.is_seen_in(a, at, letter);
        seen == self.is_seen_in(b, at, letter)
            && (!seen || Set::from(a).has(letter) == Set::from(b).has(letter))
    }

    // Whether a row sees a letter at a time.
    fn is_seen_in(&self, row: u8, at: T, letter: u8) -> bool
        ensures { result ≡ sees (plan_in T.Time.moment self.now.pair.now) (table_in T.Time.moment self.now.pair.now) (R.Rule.sees self.now.rule.now) row (T.Time.moment at) letter }
    {
        let taken = self.pair.time(row, self.pair.head.point(letter));
        self.rule.is_seen(letter, taken, at)
    }
}
