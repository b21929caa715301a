// Runs: steps and outcomes as they come, and what is refused.
use crate::tools::{TIMES, whole};
use heads::Head;
use plans::Pair;
use refusals::Refusal;
use runs::{HandedBack, ReleasedStep, Run, Token, void};
use std::process::Abort;
use std::test::Fail;
use whole::Whole;

// What a call said: a step, and whether it came with a token; a refusal; or nothing, where no outcome was taken.
#[derive(Clone, Copy, PartialEq, Eq, Debug)]
enum Said {
    Step { point: u8, ticks: i32, token: bool },
    Refused(Refusal),
    Nothing,
}

fn step(point: u8, ticks: i32, token: bool) -> Said {
    Said::Step {
        point,
        ticks,
        token,
    }
}

fn refused(number: u16, place: usize) -> Said {
    Said::Refused(Refusal::at(number, place))
}

// A plan with no limits, and its table.
fn pair_of<'a>(head: &'a Head, times: &'a [Whole]) -> Pair<'a, Whole> {
    Pair {
        head,
        limits: &[],
        times,
    }
}

// Releases a step. Its token is handed on.
fn release(run: &mut Run, pair: &Pair<Whole>) -> (Said, Option<Token>) {
    match run.release(pair, &pair.head.rule()) {
        Ok(ReleasedStep { point, at, token }) => { (step(point, at.ticks, token.is_some()), token) }
        Err(fault) => (Said::Refused(Refusal::from(fault)), None),
    }
}

fn void_any(token: Option<Token>) {
    if let Some(token) = token {
        void(token);
    }
}

// The same, and its token is voided.
fn says(run: &mut Run, pair: &Pair<Whole>) -> Said {
    let (said, token) = release(run, pair);
    void_any(token);
    said
}

// Tells an outcome. A token that is handed back comes back.
fn tell(run: &mut Run, token: Option<Token>, outcome: bool) -> (bool, Option<Token>) {
    let Some(token) = token else {
        return (false, None);
    };
    match run.tell(token, outcome) {
        Ok(()) => (true, None),
        Err(HandedBack { token }) => (false, Some(token)),
    }
}

// The same, and a token that is handed back is voided.
fn is_taken(run: &mut Run, token: Option<Token>, outcome: bool) -> bool {
    let (taken, back) = tell(run, token, outcome);
    void_any(back);
    taken
}

#[test]
fn a_run_with_a_late_outcome(rt: HostRuntime) -> Result<(), Fail> {
    let head = Head::new(3, &[1], 0, 0)?;
    let pair = pair_of(&head, &TIMES);
    let mut run = Run::open(9, &pair, &head.rule())?;
    let start = says(&mut run, &pair);
    let (test, token) = release(&mut run, &pair);
    let waits = says(&mut run, &pair);
    let taken = is_taken(&mut run, token, true);
    let last = says(&mut run, &pair);
    let end = says(&mut run, &pair);
    assert_eq!(rt; start, step(0, 0, false));
    assert_eq!(rt; test, step(1, 2, true));
    assert_eq!(rt; waits, refused(16, 0));
    assert!(rt; taken);
    assert_eq!(rt; last, step(2, 7, false));
    assert_eq!(rt; end, refused(15, 0));
    Ok(())
}

// A token of a run with another number is handed back, and is still good for its own run. One of a
// second run with the same number is taken as its own would be, and then the letter is told.
#[test]
fn tokens_of_other_runs(rt: HostRuntime) -> Result<(), Fail> {
    let head = Head::new(3, &[1], 0, 0)?;
    let pair = pair_of(&head, &TIMES);
    let mut nine = Run::open(9, &pair, &head.rule())?;
    let mut eight = Run::open(8, &pair, &head.rule())?;
    let mut other_nine = Run::open(9, &pair, &head.rule())?;
    let _ = says(&mut nine, &pair);
    let _ = says(&mut eight, &pair);
    let _ = says(&mut other_nine, &pair);
    let (_, token) = release(&mut nine, &pair);
    let (early, token) = tell(&mut other_nine, token, true);
    let (_, other_token) = release(&mut other_nine, &pair);
    let (_, wrong_token) = release(&mut eight, &pair);
    let (wrong, wrong_token) = tell(&mut nine, wrong_token, true);
    let own = is_taken(&mut nine, token, true);
    let again = is_taken(&mut nine, other_token, false);
    let back_home = is_taken(&mut eight, wrong_token, false);
    let true_step = says(&mut nine, &pair);
    let false_step = says(&mut eight, &pair);
    assert!(rt; !early, "not yet released there");
    assert!(rt; !wrong, "another number");
    assert!(rt; own);
    assert!(rt; !again, "already told");
    assert!(rt; back_home);
    assert_eq!(rt; true_step, step(2, 7, false));
    assert_eq!(rt; false_step, step(2, 5, false));
    Ok(())
}

// What is voided is never told, so a step that sees it waits for good.
#[test]
fn a_voided_token(rt: HostRuntime) -> Result<(), Fail> {
    let head = Head::new(3, &[1], 0, 0)?;
    let pair = pair_of(&head, &TIMES);
    let mut run = Run::open(9, &pair, &head.rule())?;
    assert_eq!(rt; says(&mut run, &pair), step(0, 0, false));
    assert_eq!(rt; says(&mut run, &pair), step(1, 2, true));
    assert_eq!(rt; says(&mut run, &pair), refused(16, 0));
    assert_eq!(rt; says(&mut run, &pair), refused(16, 0));
    Ok(())
}

// A refused pair makes no run, and a run refuses a plan of other counts, after the checks of memory.
#[test]
fn other_plans(rt: HostRuntime) -> Result<(), Fail> {
    let head = Head::new(3, &[1], 0, 0)?;
    let pair = pair_of(&head, &TIMES);
    let mut run = Run::open(9, &pair, &head.rule())?;
    let smaller = Head::new(2, &[1], 0, 0)?;
    let untested = Head::new(3, &[], 0, 0)?;
    let of_two = [0, 2, 0, 2].map(whole);
    let of_three = [0, 2, 5].map(whole);
    let two_points = pair_of(&smaller, &of_two);
    let no_test = pair_of(&untested, &of_three);
    let short = pair_of(&smaller, &of_three);
    assert_eq!(rt; says(&mut run, &two_points), refused(14, 0));
    assert_eq!(rt; says(&mut run, &no_test), refused(14, 0));
    assert_eq!(rt; says(&mut run, &short), refused(4, 1));
    assert_eq!(rt; says(&mut run, &pair), step(0, 0, false));
    let ahead = [0, 2, 2, 0, 2, 3].map(whole);
    let early = Run::open(9, &pair_of(&head, &ahead), &head.rule());
    let number = early.err().map(|fault| Refusal::from(fault).number);
    assert_eq!(rt; number, Some(13));
    Ok(())
}

// Eight points, of which 1 to 6 are tests at 1; the last stands at 2 and then so many later as the row's number.
fn six_tests() -> [Whole; 512] {
    let mut times = [whole(1); 512];
    for (i, time) in times.iter_mut().enumerate() {
        let row = i / 8;
        match i % 8 {
            0 => *time = whole(0),
            7 => *time = whole(2 + row as i32),
            _ => {}
        }
    }
    times
}

// Tells a token's letter as the row has it, and gives what a release says next.
fn tell_as(run: &mut Run, pair: &Pair<Whole>, row: u8, token: Option<Token>) -> Said {
    let Some(token) = token else {
        return Said::Nothing;
    };
    let letter = token.letter();
    let outcome = letter < 8 && (row >> letter) % 2 == 1;
    if is_taken(run, Some(token), outcome) {
        says(run, pair)
    } else {
        Said::Nothing
    }
}

#[derive(Clone, Copy)]
enum Order {
    Upwards,
    Downwards,
    Mixed,
}

// What releases say after each of six tellings, in an order.
fn six_told(run: &mut Run, pair: &Pair<Whole>, row: u8, order: Order) -> [Said; 6] {
    let (_, a) = release(run, pair);
    let (_, b) = release(run, pair);
    let (_, c) = release(run, pair);
    let (_, d) = release(run, pair);
    let (_, e) = release(run, pair);
    let (_, f) = release(run, pair);
    let (a, b, c, d, e, f) = match order {
        Order::Upwards => (a, b, c, d, e, f),
        Order::Downwards => (f, e, d, c, b, a),
        Order::Mixed => (a, c, b, f, e, d),
    };
    // One by one: a token has to be spent, so an array of them cannot be mapped.
    [
        tell_as(run, pair, row, a),
        tell_as(run, pair, row, b),
        tell_as(run, pair, row, c),
        tell_as(run, pair, row, d),
        tell_as(run, pair, row, e),
        tell_as(run, pair, row, f),
    ]
}

// In each order: the lowest letter not yet told is waited for, and the last step is that of the row.
fn six_say(
    rt: &impl Abort,
    row: u8,
    order: Order,
    waits: [usize; 5],
    ticks: i32,
) -> Result<(), Fail> {
    let head = Head::new(8, &[1, 2, 3, 4, 5, 6], 0, 0)?;
    let times = six_tests();
    let pair = pair_of(&head, &times);
    let mut run = Run::open(1, &pair, &head.rule())?;
    assert_eq!(rt; says(&mut run, &pair), step(0, 0, false));
    let said = six_told(&mut run, &pair, row, order);
    for (answer, letter) in said.iter().zip(waits) {
        assert_eq!(rt; *answer, refused(16, letter));
    }
    assert_eq!(rt; said[5], step(7, ticks, false));
    assert_eq!(rt; says(&mut run, &pair), refused(15, 0));
    Ok(())
}

#[test]
fn six_tests_told_in_three_orders(rt: HostRuntime) -> Result<(), Fail> {
    six_say(&rt, 0b101101, Order::Upwards, [1, 2, 3, 4, 5], 47)?;
    six_say(&rt, 0b010010, Order::Downwards, [0, 0, 0, 0, 0], 20)?;
    six_say(&rt, 0b111111, Order::Mixed, [1, 1, 3, 3, 3], 65)
}
