// Judges the worked examples through the code, with whole times and with fine ones, and prints each
// with its verdict.
#![tactic(auto)]

use anyhow::anyhow;
use fine::Fine;
use heads::Head;
use plans::{Limit, Pair};
use refusals::Refusal;
use std::fmt;
use time_rules::whole_ticks;
use times::Time;
use verdicts::{PairFault, judge};
use whole::Whole;
use worked::count_examples;

// Two rows of three points, with test 0 at point 1.
#[derive(Clone, Copy)]
struct Example {
    round: u32,
    delay: u32,
    times: [i32; 6],
}

const EXAMPLES: [Example; 9] = [
    Example {
        round: 0,
        delay: 0,
        times: [0, 2, 5, 0, 2, 7],
    },
    Example {
        round: 0,
        delay: 0,
        times: [0, 2, 2, 0, 2, 3],
    },
    Example {
        round: 0,
        delay: 3,
        times: [0, 2, 5, 0, 2, 7],
    },
    Example {
        round: 0,
        delay: 3,
        times: [0, 2, 6, 0, 2, 7],
    },
    Example {
        round: 5,
        delay: 0,
        times: [0, 5, 9, 0, 5, 10],
    },
    Example {
        round: 5,
        delay: 0,
        times: [0, 5, 10, 0, 5, 11],
    },
    Example {
        round: 5,
        delay: 3,
        times: [0, 2, 9, 0, 2, 10],
    },
    Example {
        round: 5,
        delay: 3,
        times: [0, 2, 10, 0, 2, 11],
    },
    Example {
        round: 0,
        delay: 0,
        times: [0, 2, 5, 0, 3, 6],
    },
];

// What a pair is judged to be.
#[derive(Clone, Copy)]
struct Verdict(Result<(), PairFault>);

impl fmt::Display for Verdict {
    fn fmt<W: fmt::Write>(&self, f: &mut fmt::Formatter<W>) -> fmt::Result {
        let Err(fault) = self.0 else {
            return write!(f, "accepted");
        };
        let refusal = Refusal::from(fault);
        write!(
            f,
            "{} ({}, {}, {})",
            refusal.number, refusal.first, refusal.second, refusal.third
        )
    }
}

// Judges a pair under the rule that its head names.
fn judge_pair<'a, T: Time>(head: &'a Head, limits: &'a [Limit<T>], times: &'a [T]) -> Verdict {
    let pair = Pair {
        head,
        limits,
        times,
    };
    Verdict(judge(&pair, &head.rule()))
}

fn head_of(points: u8, tests: &[u8], round: u32, delay: u32) -> anyhow::Result<Head> {
    Head::new(points, tests, round, delay).map_err(|_| anyhow!("no such head"))
}

fn show(rt: &HostRuntime, example: Example) -> anyhow::Result<()> {
    let Example {
        round,
        delay,
        times,
    } = example;
    let [a, b, c, d, e, f] = times;
    println!(rt; "r = {round}, d = {delay}, rows {a} {b} {c} / {d} {e} {f}")?;
    let head = head_of(3, &[1], round, delay)?;
    let whole = times.map(whole_ticks::<Whole>);
    let fine = times.map(whole_ticks::<Fine>);
    println!(rt; "  whole: {}", judge_pair(&head, &[], &whole))?;
    println!(rt; "  fine: {}", judge_pair(&head, &[], &fine))?;
    Ok(())
}

// Point 1 to point 2 at most 3 where letter 0 is true.
fn close<T: Time>() -> Limit<T> {
    Limit {
        from: 1,
        to: 2,
        wanted: 1,
        unwanted: 0,
        bound: whole_ticks(3),
    }
}

fn show_limit(rt: &HostRuntime) -> anyhow::Result<()> {
    println!(rt; "limit from 1 to 2 of 3 where letter 0 is true, rows 0 2 5 / 0 2 7")?;
    let head = head_of(3, &[1], 0, 0)?;
    let times = [0, 2, 5, 0, 2, 7];
    let whole = times.map(whole_ticks::<Whole>);
    let fine = times.map(whole_ticks::<Fine>);
    println!(rt; "  whole: {}", judge_pair(&head, &[close()], &whole))?;
    println!(rt; "  fine: {}", judge_pair(&head, &[close()], &fine))?;
    Ok(())
}

fn show_grains(rt: &HostRuntime) -> anyhow::Result<()> {
    println!(rt; "rows 0 2 2+1 / 0 2 3")?;
    let head = head_of(3, &[1], 0, 0)?;
    let times = [(0, 0), (2, 0), (2, 1), (0, 0), (2, 0), (3, 0)];
    let times = times.map(|(ticks, grains)| Fine { ticks, grains });
    println!(rt; "  fine: {}", judge_pair(&head, &[], &times))?;
    Ok(())
}

fn show_four_rows(rt: &HostRuntime) -> anyhow::Result<()> {
    println!(rt; "tests 1 and 2, rows 0 1 2 5 / 0 1 2 2 / 0 1 2 5 / 0 1 2 3")?;
    let head = head_of(4, &[1, 2], 0, 0)?;
    let times = [0, 1, 2, 5, 0, 1, 2, 2, 0, 1, 2, 5, 0, 1, 2, 3];
    let times = times.map(|ticks| Whole { ticks });
    println!(rt; "  whole: {}", judge_pair(&head, &[], &times))?;
    Ok(())
}

fn main(rt: HostRuntime) -> anyhow::Result<()> {
    println!(rt; "{} examples", count_examples())?;
    for example in EXAMPLES {
        show(&rt, example)?;
    }
    show_limit(&rt)?;
    show_grains(&rt)?;
    show_four_rows(&rt)
}
