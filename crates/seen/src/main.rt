// Prints what each rule sees of some outcomes at some steps.
#![tactic(auto)]

ghost use Rattle.std.specs.Prelude.{◌≡◌};
ghost use Rattle.rules.specs.Meanings.{delayed, prompt, rounds};

use fine::Fine;
use rules::{Delay, Prompt, Rounds, Rule};
use std::{fmt, io};
use times::Time;
use whole::Whole;

// The rules that are asked.
#[derive(Drop)]
struct Rules {
    prompt: Prompt,
    rounds: Rounds,
    late: Delay<Prompt>,
    late_rounds: Delay<Rounds>,
}

// What each of them says.
#[derive(Clone, Copy)]
struct Seen {
    prompt: bool,
    rounds: bool,
    late: bool,
    late_rounds: bool,
}

fn word(seen: bool) -> &'static str {
    if seen { "yes" } else { "no" }
}

impl fmt::Display for Seen {
    fn fmt<W: fmt::Write>(&self, f: &mut fmt::Formatter<W>) -> fmt::Result {
        write!(
            f,
            "prompt {}, rounds {}, late {}, late rounds {}",
            word(self.prompt),
            word(self.rounds),
            word(self.late),
            word(self.late_rounds)
        )
    }
}

fn ask<T: Time>(rules: &Rules, taken: T, step: T) -> Seen
    ensures prompt { result.prompt ≡ prompt 0 (T.Time.moment taken) (T.Time.moment step) }
    ensures rounds { result.rounds ≡ rounds rules.now.rounds.ticks 0 (T.Time.moment taken) (T.Time.moment step) }
    ensures late { result.late ≡ delayed rules.now.late.ticks prompt 0 (T.Time.moment taken) (T.Time.moment step) }
    ensures both { result.late_rounds ≡ delayed rules.now.late_rounds.ticks (rounds rules.now.late_rounds.below.ticks) 0 (T.Time.moment taken) (T.Time.moment step) }
{
    Seen {
        prompt: rules.prompt.is_seen(0, taken, step),
        rounds: rules.rounds.is_seen(0, taken, step),
        late: rules.late.is_seen(0, taken, step),
        late_rounds: rules.late_rounds.is_seen(0, taken, step),
    }
}

// The prompt rule, rounds of 5 ticks, and a delay of 3 ticks over each.
fn some_rules() -> Rules
    ensures rounds { result.rounds.ticks ≡ 5 }
    ensures late { result.late.ticks ≡ 3 }
    ensures both { (result.late_rounds.ticks ≡ 3) × (result.late_rounds.below.ticks ≡ 5) }
{
    let rounds = Rounds::new(5).unwrap();
    Rules {
        prompt: Prompt::new(),
        rounds,
        late: Delay::new(3, Prompt::new()).unwrap(),
        late_rounds: Delay::new(3, rounds).unwrap(),
    }
}

fn show_whole(rt: &HostRuntime, rules: &Rules) -> io::Result<()> {
    let cases = [
        (4, 4),
        (4, 5),
        (5, 5),
        (5, 9),
        (5, 10),
        (1, 5),
        (2, 5),
        (-3, -1),
    ];
    for (taken, step) in cases {
        let answer = ask(rules, Whole { ticks: taken }, Whole { ticks: step });
        println!(rt; "taken {taken}, step {step}: {answer}")?;
    }
    Ok(())
}

fn fine(ticks: i32, grains: i32) -> Fine {
    Fine { ticks, grains }
}

fn show_fine(rt: &HostRuntime, rules: &Rules) -> io::Result<()> {
    let cases = [
        (5, -1, 5, 0),
        (5, 0, 5, 1),
        (5, 0, 10, -1),
        (2, -1, 5, 0),
        (2, 0, 5, 1),
        (0, 0, 0, -1),
    ];
    for (taken, grains, step, more) in cases {
        let answer = ask(rules, fine(taken, grains), fine(step, more));
        println!(rt; "taken {taken}{grains:+}, step {step}{more:+}: {answer}")?;
    }
    Ok(())
}

fn main(rt: HostRuntime) -> io::Result<()> {
    let rules = some_rules();
    println!(rt; "rounds: every 5 ticks; late: 3 ticks later")?;
    show_whole(&rt, &rules)?;
    show_fine(&rt, &rules)
}
