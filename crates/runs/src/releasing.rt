// What a run releases next.
ghost use Rattle.std.specs.Prelude.{◌≡◌, ◌<◌};
ghost use Rattle.std.specs.Option.{option_map};
ghost use Rattle.refusals.specs.Answers.{answer_of};
ghost use Rattle.plans.specs.Lent.{plan_in, table_in};
ghost use Rattle.runs.specs.Faults.{release_refusal};
ghost use Rattle.runs.specs.Runs.{chosen, letter_of, next_turn, releasing, step_at, step_of, stepped, token_of, with_out};
ghost use Rattle.runs.specs.Words.{ReleaseSays};

use crate::answers::{ReleasedStep, Turn};
use crate::faults::ReleaseFault;
use crate::{Run, Token};
use plans::{Pair, check_pair};
use rules::Rule;
use times::Time;
use turns::{earliest_point, find_letter, find_wait, lowest_row};

impl Run {
    // The next step and its time, or why there is none now.
    pub fn release<T: Time, R: Rule>(
        &mut self,
        pair: &Pair<T>,
        rule: &R,
    ) -> Result<ReleasedStep<T>, ReleaseFault>
        ensures answer { answer_of (step_of T.Time.moment) release_refusal result ≡ (releasing (plan_in T.Time.moment pair.now) (table_in T.Time.moment pair.now) (R.Rule.sees rule.now) self.old).0 }
        ensures after { self.new ≡ (releasing (plan_in T.Time.moment pair.now) (table_in T.Time.moment pair.now) (R.Rule.sees rule.now) self.old).1 }
        ensures says { ReleaseSays (plan_in T.Time.moment pair.now) (table_in T.Time.moment pair.now) (R.Rule.sees rule.now) self.old (answer_of (step_of T.Time.moment) release_refusal result) }
    {
        let turn = self.choose(pair, rule)?;
        Ok(self.take_step(pair, turn))
    }

    // The step to release, or the first refusal that applies.
    fn choose<T: Time, R: Rule>(&self, pair: &Pair<T>, rule: &R) -> Result<Turn, ReleaseFault>
        ensures { answer_of (λ t. t) release_refusal result ≡ chosen (plan_in T.Time.moment pair.now) (table_in T.Time.moment pair.now) (R.Rule.sees rule.now) self.now }
    {
        check_pair(pair)?;
        if self.points != pair.head.points() || self.letters != pair.head.letters() {
            return Err(ReleaseFault::OtherPlan);
        }
        let turn = next_turn(self, pair).ok_or(ReleaseFault::NoneLeft)?;
        // a letter is what the search finds, and only here a fault
        match find_wait(self.out, self.told, pair, rule, turn.row, turn.point) {
            Some(letter) => Err(ReleaseFault::Waits(letter)),
            None => Ok(turn),
        }
    }

    fn take_step<T: Time>(&mut self, pair: &Pair<T>, turn: Turn) -> ReleasedStep<T>
        requires { turn.point < 64 }
        ensures answer { step_of T.Time.moment result ≡ step_at (plan_in T.Time.moment pair.now) (table_in T.Time.moment pair.now) self.old turn }
        ensures after { self.new ≡ stepped (plan_in T.Time.moment pair.now) self.old turn.point }
    {
        self.released = self.released.with(turn.point);
        let token = self.hand_out(pair, turn.point);
        let at = pair.time(turn.row, turn.point);
        ReleasedStep {
            point: turn.point,
            at,
            token,
        }
    }

    // A token, if the point is a test.
    fn hand_out<T: Time>(&mut self, pair: &Pair<T>, point: u8) -> Option<Token>
        ensures answer { result ≡ option_map (token_of self.old) (letter_of (plan_in T.Time.moment pair.now) point) }
        ensures after { self.new ≡ with_out (plan_in T.Time.moment pair.now) self.old point }
    {
        let letter = find_letter(pair, point)?;
        self.out = self.out.with(letter);
        Some(Token {
            run: self.number,
            letter,
            spent: false,
        })
    }
}

// The earliest step in the lowest row with all outcomes told.
fn next_turn<T: Time>(run: &Run, pair: &Pair<T>) -> Option<Turn>
    ensures { result ≡ next_turn (plan_in T.Time.moment pair.now) (table_in T.Time.moment pair.now) run.now }
{
    let row = lowest_row(run.told, run.outcomes, pair)?;
    let point = earliest_point(run.released, pair, row)?;
    Some(Turn { row, point })
}
