// Every refusal of a header, at every place, and the lines on them.
use crate::tools::changed;
use files::headers::{HeaderFault, PlanHeader, read_plan_header};
use judge::interim::{HeadersFault, judge_headers, write_headers_line};
use refusals::{NoRoom, Refusal};
use std::process::Abort;
use std::test::Fail;
use times::Kind;

// Version 1, three points, one test, two limits, r = 5, d = 3, and a byte of what follows.
const PLAN: [u8; 18] = [
    0x44, 0x50, 0x4E, 0, 1, 3, 1, 0, 2, 0, 0, 0, 5, 0, 0, 0, 3, 2,
];

const TABLE: [u8; 8] = [0x52, 0x55, 0x4E, 0, 1, 3, 1, 0];

fn plan_says(rt: &impl Abort, plan: &[u8], fault: HeaderFault) {
    assert_eq!(rt; judge_headers(plan, &TABLE), Err(HeadersFault::Plan(fault)));
}

fn table_says(rt: &impl Abort, table: &[u8], fault: HeaderFault) {
    assert_eq!(rt;
        judge_headers(&PLAN, table),
        Err(HeadersFault::Table(fault))
    );
}

fn line_is(rt: &impl Abort, plan: &[u8], table: &[u8], line: &[u8]) -> Result<(), Fail> {
    let mut out = [0xEE; 64];
    let length = write_headers_line(plan, table, &mut out)?;
    assert!(rt; length < 64);
    assert!(rt; &out[0..length] == line);
    assert_eq!(rt; out[length], 0xEE);
    Ok(())
}

#[test]
fn headers_that_agree(rt: HostRuntime) -> Result<(), Fail> {
    assert_eq!(rt; judge_headers(&PLAN, &TABLE), Ok(()));
    let header = PlanHeader {
        version: Kind::Whole,
        points: 3,
        tests: 1,
        limits: 2,
        round: 5,
        delay: 3,
    };
    assert_eq!(rt; read_plan_header(&PLAN), Ok(header));
    line_is(&rt, &PLAN, &TABLE, b"headers agree\n")
}

#[test]
fn a_plan_cut_at_every_byte(rt: HostRuntime) {
    for length in 0..17 {
        plan_says(&rt, &PLAN[0..length], HeaderFault::Ended(length));
    }
    assert_eq!(rt; judge_headers(&PLAN[0..17], &TABLE), Ok(()));
    plan_says(&rt, &[1, 2], HeaderFault::Ended(2));
    plan_says(&rt, &[1, 2, 3], HeaderFault::Mark);
    plan_says(&rt, &[1, 2, 3, 0], HeaderFault::Mark);
}

#[test]
fn a_table_cut_at_every_byte(rt: HostRuntime) {
    for length in 0..7 {
        table_says(&rt, &TABLE[0..length], HeaderFault::Ended(length));
    }
    assert_eq!(rt; judge_headers(&PLAN, &TABLE[0..7]), Ok(()));
    table_says(&rt, &[1, 2], HeaderFault::Ended(2));
    table_says(&rt, &[1, 2, 3, 0], HeaderFault::Mark);
}

#[test]
fn each_field_of_a_plan(rt: HostRuntime) {
    let cases = [
        (0, 0x45, HeaderFault::Mark),
        (1, 0x4F, HeaderFault::Mark),
        (2, 0x4D, HeaderFault::Mark),
        (3, 1, HeaderFault::Version),
        (4, 0, HeaderFault::Version),
        (4, 3, HeaderFault::Version),
        (5, 0, HeaderFault::Count(5)),
        (5, 49, HeaderFault::Count(5)),
        (6, 7, HeaderFault::Count(6)),
        (7, 2, HeaderFault::Count(7)),
        (9, 1, HeaderFault::Figure(9)),
        (10, 16, HeaderFault::Figure(9)),
        (13, 1, HeaderFault::Figure(13)),
        (14, 16, HeaderFault::Figure(13)),
    ];
    for (at, byte, fault) in cases {
        plan_says(&rt, &changed(PLAN, at, byte), fault);
    }
}

#[test]
fn each_field_of_a_table(rt: HostRuntime) {
    let cases = [
        (0, 0x53, HeaderFault::Mark),
        (2, 0x4D, HeaderFault::Mark),
        (3, 1, HeaderFault::Version),
        (4, 2, HeaderFault::Version),
        (5, 2, HeaderFault::Count(5)),
        (5, 4, HeaderFault::Count(5)),
        (6, 0, HeaderFault::Count(6)),
        (6, 2, HeaderFault::Count(6)),
    ];
    for (at, byte, fault) in cases {
        table_says(&rt, &changed(TABLE, at, byte), fault);
    }
}

#[test]
fn bounds_that_are_just_kept(rt: HostRuntime) {
    let most = [
        0x44, 0x50, 0x4E, 0, 2, 48, 6, 1, 0, 0x00, 0x0F, 0x42, 0x40, 0x00, 0x0F, 0x42, 0x40,
    ];
    let beside = [0x52, 0x55, 0x4E, 0, 2, 48, 6];
    assert_eq!(rt; judge_headers(&most, &beside), Ok(()));
    plan_says(&rt, &changed(most, 8, 1), HeaderFault::Count(7));
    plan_says(&rt, &changed(most, 12, 0x41), HeaderFault::Figure(9));
    plan_says(&rt, &changed(most, 16, 0x41), HeaderFault::Figure(13));
}

#[test]
fn lines_of_refusals(rt: HostRuntime) -> Result<(), Fail> {
    line_is(&rt, &[], &TABLE, b"headers refused 1 plan 0\n")?;
    line_is(&rt, &PLAN[0..13], &[], b"headers refused 1 plan 13\n")?;
    line_is(&rt, &PLAN, &[], b"headers refused 1 table 0\n")?;
    line_is(&rt, &[0; 20], &TABLE, b"headers refused 2 plan 0\n")?;
    line_is(&rt, &PLAN, &PLAN, b"headers refused 2 table 0\n")?;
    line_is(
        &rt,
        &changed(PLAN, 4, 7),
        &TABLE,
        b"headers refused 3 plan 3\n",
    )?;
    line_is(
        &rt,
        &PLAN,
        &changed(TABLE, 4, 2),
        b"headers refused 3 table 3\n",
    )?;
    line_is(
        &rt,
        &changed(PLAN, 7, 9),
        &TABLE,
        b"headers refused 4 plan 7\n",
    )?;
    line_is(
        &rt,
        &PLAN,
        &changed(TABLE, 6, 2),
        b"headers refused 4 table 6\n",
    )?;
    line_is(
        &rt,
        &changed(PLAN, 13, 9),
        &TABLE,
        b"headers refused 5 plan 13\n",
    )
}

#[test]
fn a_line_without_room(rt: HostRuntime) {
    let mut out = [0xEE; 13];
    let answer = write_headers_line(&PLAN, &TABLE, &mut out);
    assert_eq!(rt; answer, Err(NoRoom(14)));
    assert!(rt; out == [0xEE; 13]);
    assert_eq!(rt; Refusal::from(NoRoom(14)), Refusal::at(11, 14));
}
