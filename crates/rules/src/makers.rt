// Rules are made here, and each is promised to see by its own formula.
ghost use Rattle.std.specs.Prelude.{◌≡◌, ◌≤◌, ◌&&◌, IfOk};
ghost use Rattle.refusals.specs.Answers.{answer_of};
ghost use Rattle.rules.specs.Bases.{base_number};
ghost use Rattle.rules.specs.Meanings.{LateHistory, RoundHistory, Same, base_rule, delayed, named_rule, prompt, rounds};
ghost use Rattle.rules.specs.Parameters.{checked, is_base, is_delay, is_round, rule_refusal};
ghost use Rattle.rules.specs.Seen.{base_sees, delay_sees, named_sees, prompt_sees, rounds_sees};
ghost use Rattle.rules.specs.declared.in_rounds.Rounds.{Rounds};

use crate::at_once::Prompt;
use crate::bases::BaseRule;
use crate::faults::RuleFault;
use crate::in_rounds::Rounds;
use crate::late::Delay;
use crate::meanings::Rule;

impl Prompt {
    pub fn new() -> Prompt
        ensures { Same (prompt_sees result) prompt }
    {
        Prompt
    }
}

impl Rounds {
    // Rounds of so many ticks, from 1 to 1,000,000.
    pub fn new(ticks: u32) -> Result<Rounds, RuleFault>
        ensures value { answer_of (λ (x : Rounds). x.ticks) rule_refusal result ≡ checked (is_round ticks) ticks }
        ensures formula { IfOk result (λ x. Same (rounds_sees x) (rounds ticks)) }
        ensures history { IfOk result (λ x. RoundHistory ticks (rounds_sees x)) }
    {
        if ticks == 0 || ticks > 1_000_000 {
            return Err(RuleFault::BadRound);
        }
        Ok(Rounds::every(ticks))
    }

    fn every(ticks: u32) -> Rounds
        requires some { 1 ≤ ticks }
        requires bounded { ticks ≤ 1000000 }
        ensures value { result.ticks ≡ ticks }
        ensures history { RoundHistory ticks (rounds_sees result) }
    {
        Rounds { ticks }
    }
}

impl<R: Rule + Drop> Delay<R> {
    // A delay of so many ticks, at most 1,000,000, over a rule.
    pub fn new(ticks: u32, below: R) -> Result<Delay<R>, RuleFault>
        ensures value { answer_of (λ x. x.ticks) rule_refusal result ≡ checked (is_delay ticks) ticks }
        ensures kept { IfOk result (λ x. x.below ≡ below) }
        ensures formula { IfOk result (λ x. Same (delay_sees R.row R.Rule x) (delayed ticks (R.Rule.sees below))) }
        ensures late { IfOk result (λ x. Same (R.Rule.sees below) prompt → LateHistory ticks (delay_sees R.row R.Rule x)) }
    {
        if ticks > 1_000_000 {
            return Err(RuleFault::BadDelay);
        }
        Ok(Delay::over(ticks, below))
    }

    fn over(ticks: u32, below: R) -> Delay<R>
        requires { ticks ≤ 1000000 }
        ensures value { result.ticks ≡ ticks }
        ensures kept { result.below ≡ below }
        ensures late { Same (R.Rule.sees below) prompt → LateHistory ticks (delay_sees R.row R.Rule result) }
    {
        Delay { ticks, below }
    }
}

// The prompt rule for 0, and rounds of so many ticks for any other number up to 1,000,000.
fn base_rule(r: u32) -> Result<BaseRule, RuleFault>
    ensures value { answer_of base_number rule_refusal result ≡ checked (is_base r) r }
    ensures formula { IfOk result (λ y. Same (base_sees y) (base_rule r)) }
{
    if r == 0 {
        return Ok(BaseRule::Prompt(Prompt::new()));
    }
    Rounds::new(r).map(BaseRule::Rounds)
}

// The rule that two numbers name: a delay of `d` ticks over the rule that `r` names.
pub fn named_rule(r: u32, d: u32) -> Result<Delay<BaseRule>, RuleFault>
    ensures value { answer_of (λ y. y.ticks) rule_refusal result ≡ checked (is_base r && is_delay d) d }
    ensures below { IfOk result (λ y. base_number y.below ≡ r) }
    ensures formula { IfOk result (λ y. Same (named_sees y) (named_rule r d)) }
{
    let below = base_rule(r)?;
    Delay::new(d, below)
}
