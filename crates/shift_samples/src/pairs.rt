// The examples of docs/VERDICT.md that have a delay, and pairs with none, shifted and judged.
use crate::tools::*;
use heads::Head;
use offences::Offence;
use plans::{Limit, Pair};
use rules::{Prompt, Rounds, Rule};
use shifts::shift;
use std::process::Abort;
use std::test::Fail;
use verdicts::{PairFault, judge};
use whole::Whole;

fn early() -> Result<(), PairFault> {
    Err(PairFault::Offends(Offence::Early {
        first: 0,
        second: 1,
        point: 2,
    }))
}

fn says<'a, R: Rule>(
    rt: &impl Abort,
    head: &'a Head,
    limits: &'a [Limit<Whole>],
    times: &'a [Whole],
    rule: &R,
    answer: Result<(), PairFault>,
) {
    let pair = Pair {
        head,
        limits,
        times,
    };
    assert_eq!(rt; judge(&pair, rule), answer);
}

// Two rows of three points, with test 0 at point 1, and the rows when they are shifted: each pair is judged
// by the rule of its own head, and the shifted one by the rule below the delay too.
// Each value stands once in a case: a struct would only name what the cases give in order.
fn stays<R: Rule>(
    rt: &impl Abort,
    round: u32,
    delay: u32,
    bounds: (i32, i32),
    below: &R,
    old: [i32; 6],
    new: [i32; 9],
    answer: Result<(), PairFault>,
) -> Result<(), Fail> {
    let head = Head::new(3, &[1], round, delay)?;
    let table = old.map(whole);
    let pair = pair_of(&head, &table);
    let mut limits = [blank(); 3];
    let mut times = [whole(-7); 9];
    let moved = shift(&pair, &mut limits, &mut times)?;
    is_outlined(rt, &moved, 4, 3, round);
    is_limit(rt, &limits[0], 1, 3, bounds.0);
    is_limit(rt, &limits[1], 3, 1, bounds.1);
    are_blank(rt, &limits[2..3]);
    assert_eq!(rt; times, new.map(whole));
    says(rt, &head, &[], &table, &head.rule(), answer);
    says(
        rt,
        &moved,
        &limits[0..2],
        &times[0..8],
        &moved.rule(),
        answer,
    );
    says(rt, &moved, &limits[0..2], &times[0..8], below, answer);
    Ok(())
}

#[test]
fn delayed_prompt_examples(rt: HostRuntime) -> Result<(), Fail> {
    let prompt = Prompt::new();
    stays(
        &rt,
        0,
        3,
        (3, -3),
        &prompt,
        [0, 2, 5, 0, 2, 7],
        [0, 2, 5, 5, 0, 2, 7, 5, -7],
        early(),
    )?;
    stays(
        &rt,
        0,
        3,
        (3, -3),
        &prompt,
        [0, 2, 6, 0, 2, 7],
        [0, 2, 6, 5, 0, 2, 7, 5, -7],
        Ok(()),
    )
}

#[test]
fn delayed_round_examples(rt: HostRuntime) -> Result<(), Fail> {
    let rounds = Rounds::new(5)?;
    stays(
        &rt,
        5,
        3,
        (3, -3),
        &rounds,
        [0, 2, 9, 0, 2, 10],
        [0, 2, 9, 5, 0, 2, 10, 5, -7],
        early(),
    )?;
    stays(
        &rt,
        5,
        3,
        (3, -3),
        &rounds,
        [0, 2, 10, 0, 2, 11],
        [0, 2, 10, 5, 0, 2, 11, 5, -7],
        Ok(()),
    )
}

// With no delay the new points stand at the moments of the old tests.
#[test]
fn no_delay(rt: HostRuntime) -> Result<(), Fail> {
    let prompt = Prompt::new();
    stays(
        &rt,
        0,
        0,
        (0, 0),
        &prompt,
        [0, 2, 5, 0, 2, 7],
        [0, 2, 5, 2, 0, 2, 7, 2, -7],
        Ok(()),
    )?;
    stays(
        &rt,
        0,
        0,
        (0, 0),
        &prompt,
        [0, 2, 2, 0, 2, 3],
        [0, 2, 2, 2, 0, 2, 3, 2, -7],
        early(),
    )
}

// With no test nothing is added.
#[test]
fn no_test(rt: HostRuntime) -> Result<(), Fail> {
    let head = Head::new(2, &[], 5, 3)?;
    let old = [limit(0, 1, whole(4))];
    let table = [0, 4].map(whole);
    let pair = Pair {
        head: &head,
        limits: &old,
        times: &table,
    };
    let mut limits = [blank(); 2];
    let mut times = [whole(-7); 3];
    let moved = shift(&pair, &mut limits, &mut times)?;
    assert_eq!(rt; (moved.points(), moved.letters()), (2, 0));
    assert_eq!(rt; (moved.round(), moved.delay()), (5, 0));
    is_limit(&rt, &limits[0], 0, 1, 4);
    are_blank(&rt, &limits[1..2]);
    assert_eq!(rt; times, [0, 4, -7].map(whole));
    Ok(())
}

// Two tests and an old limit: test by test, and row by row.
#[test]
fn two_tests(rt: HostRuntime) -> Result<(), Fail> {
    let head = Head::new(3, &[2, 1], 0, 10)?;
    let old = [limit(0, 1, whole(4))];
    let table = [0, 1, 2, 0, 1, 3, 0, 4, 2, 0, 4, 3].map(whole);
    let pair = Pair {
        head: &head,
        limits: &old,
        times: &table,
    };
    let mut limits = [blank(); 5];
    let mut times = [whole(-7); 20];
    let moved = shift(&pair, &mut limits, &mut times)?;
    assert_eq!(rt; (moved.points(), moved.letters()), (5, 2));
    assert_eq!(rt; (moved.point(0), moved.point(1), moved.delay()), (3, 4, 0));
    is_limit(&rt, &limits[0], 0, 1, 4);
    is_limit(&rt, &limits[1], 2, 3, 10);
    is_limit(&rt, &limits[2], 3, 2, -10);
    is_limit(&rt, &limits[3], 1, 4, 10);
    is_limit(&rt, &limits[4], 4, 1, -10);
    let after = [
        0, 1, 2, 12, 11, 0, 1, 3, 13, 11, 0, 4, 2, 12, 14, 0, 4, 3, 13, 14,
    ];
    assert_eq!(rt; times, after.map(whole));
    Ok(())
}
