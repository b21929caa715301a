// What the rules see, at their own moments and around them.
use crate::tools::{fine, whole};
use refusals::Refusal;
use rules::{Delay, Prompt, Rounds, Rule, RuleFault, named_rule};
use std::test::Fail;

#[test]
fn prompt_rule(rt: HostRuntime) {
    let rule = Prompt::new();
    assert!(rt; !rule.is_seen(0, fine(5, 0), fine(5, 0)));
    assert!(rt; rule.is_seen(0, fine(5, 0), fine(5, 1)));
    assert!(rt; !rule.is_seen(0, fine(5, 0), fine(5, -1)));
    assert!(rt; rule.is_seen(0, fine(-7, 3), fine(-7, 4)));
    assert!(rt; rule.is_seen(0, whole(5), whole(6)));
    assert!(rt; !rule.is_seen(0, whole(5), whole(5)));
}

#[test]
fn rounds_of_five(rt: HostRuntime) -> Result<(), Fail> {
    // an outcome, a step, and whether it is seen there
    let cases = [
        (fine(5, -1), fine(5, 0), true),
        (fine(5, 0), fine(5, 0), false),
        (fine(4, 0), fine(5, -1), false),
        (fine(-1, 0), fine(5, -1), true),
        (fine(5, -1), fine(9, 999), true),
        (fine(5, 0), fine(9, 999), false),
        (fine(5, 0), fine(10, -1), false),
        (fine(5, 0), fine(10, 0), true),
        (fine(10, -1), fine(10, 0), true),
        (fine(10, 0), fine(10, 1), false),
        (fine(0, -1), fine(0, 0), true),
        (fine(0, 0), fine(0, 0), false),
        (fine(0, -1), fine(0, -1), false),
        (fine(-100, 0), fine(0, -1), false),
        (fine(-100, 0), fine(-5, 0), false),
        (fine(i32::MIN, i32::MIN), fine(i32::MAX, i32::MIN), true),
        (fine(i32::MAX, 0), fine(i32::MAX, i32::MAX), false),
    ];
    let rule = Rounds::new(5)?;
    for (taken, step, seen) in cases {
        assert_eq!(rt; rule.is_seen(1, taken, step), seen);
    }
    assert!(rt; rule.is_seen(1, whole(4), whole(9)));
    assert!(rt; !rule.is_seen(1, whole(5), whole(9)));
    Ok(())
}

#[test]
fn delay_of_three(rt: HostRuntime) -> Result<(), Fail> {
    let cases = [
        (fine(0, 0), fine(3, 0), false),
        (fine(0, 0), fine(3, 1), true),
        (fine(0, -1), fine(3, 0), true),
        (fine(999_999_997, 0), fine(1_000_000_000, 1), true),
        (fine(999_999_998, 0), fine(i32::MAX, 0), false),
        (fine(0, 1_000_001), fine(100, 0), false),
    ];
    let rule = Delay::new(3, Prompt::new())?;
    for (taken, step, seen) in cases {
        assert_eq!(rt; rule.is_seen(2, taken, step), seen);
    }
    let late = Delay::new(3, Rounds::new(5)?)?;
    assert!(rt; late.is_seen(2, fine(2, -1), fine(5, 0)));
    assert!(rt; !late.is_seen(2, fine(2, 0), fine(5, 0)));
    assert!(rt; !late.is_seen(2, fine(2, 0), fine(10, -1)));
    assert!(rt; late.is_seen(2, fine(2, 0), fine(10, 0)));
    Ok(())
}

#[test]
fn named_rules(rt: HostRuntime) -> Result<(), Fail> {
    let prompt = named_rule(0, 0)?;
    let late = named_rule(0, 3)?;
    let rounds = named_rule(5, 0)?;
    let both = named_rule(5, 3)?;
    let taken = fine(2, 0);
    assert!(rt; prompt.is_seen(0, taken, fine(2, 1)));
    assert!(rt; !late.is_seen(0, taken, fine(5, 0)));
    assert!(rt; late.is_seen(0, taken, fine(5, 1)));
    assert!(rt; !rounds.is_seen(0, taken, fine(4, 0)));
    assert!(rt; rounds.is_seen(0, taken, fine(5, 0)));
    assert!(rt; !both.is_seen(0, taken, fine(9, 0)));
    assert!(rt; both.is_seen(0, taken, fine(10, 0)));
    Ok(())
}

#[test]
fn parameters(rt: HostRuntime) {
    assert!(rt; Rounds::new(0).is_err());
    assert!(rt; Rounds::new(1).is_ok());
    assert!(rt; Rounds::new(1_000_000).is_ok());
    assert!(rt; Rounds::new(1_000_001).is_err());
    assert!(rt; Delay::new(1_000_000, Prompt::new()).is_ok());
    assert!(rt; Delay::new(1_000_001, Prompt::new()).is_err());
    assert!(rt; named_rule(1_000_000, 1_000_000).is_ok());
    assert!(rt; named_rule(1_000_001, 0).is_err());
    assert!(rt; named_rule(0, 1_000_001).is_err());
    assert_eq!(rt; Refusal::from(RuleFault::BadRound), Refusal::at(5, 0));
    assert_eq!(rt; Refusal::from(RuleFault::BadDelay), Refusal::at(5, 0));
}
