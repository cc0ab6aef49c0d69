//! Each end's status and line, the lines of the table, and names, against texts written by hand.

use super::*;
use std::collections::HashMap;
use std::process::Abort;
use std::test::Fail;

const AT: Pos = Pos {
    line: 1,
    column: 41,
};

const FAR: Pos = Pos {
    line: 4294967295,
    column: 4294967294,
};

fn expect_reports(rt: &impl Abort, rows: &[(Ended, u8, &str)]) {
    let mut line = Line::new();
    for (ended, status, text) in rows {
        report_line(ended, &mut line);
        assert_eq!(rt; status_of(ended), *status, "{text}");
        assert_eq!(rt; line.bytes(), text.as_bytes(), "{text}");
    }
}

#[test]
fn reports_ends(rt: HostRuntime) {
    expect_reports(
        &rt,
        &[
            (Ended::Exited(0), 0, ""),
            (Ended::Exited(255), 255, ""),
            (Ended::Aborted, 134, "acc: aborted\n"),
            (Ended::OutOfTicks, 150, "acc: out of ticks\n"),
            (Ended::Memory, 151, "acc: out of memory\n"),
            (Ended::ReadFault, 152, "acc: input failed\n"),
            (Ended::WriteFault, 153, ""),
            (Ended::ShelfFault, 154, "acc: file not read\n"),
            (Ended::OutOfBytes, 155, "acc: out of bytes\n"),
            (
                Ended::Usage,
                161,
                "usage: acc run FILE, check FILE, trace FILE, work N, table; --ticks N, --bytes N\n",
            ),
            (Ended::Printed, 0, ""),
        ],
    );
}

#[test]
fn reports_traps(rt: HostRuntime) {
    expect_reports(
        &rt,
        &[
            (
                Ended::Trapped(Case::L1, AT),
                121,
                "acc: L.3 case 1 at 1:41: object used outside its lifetime\n",
            ),
            (
                Ended::Trapped(Case::L2, FAR),
                122,
                "acc: L.3 case 2 at 4294967295:4294967294: store to an object with two incompatible declarations\n",
            ),
            (
                Ended::Trapped(Case::L3, AT),
                123,
                "acc: L.3 case 3 at 1:41: function called through an incompatible type\n",
            ),
            (
                Ended::Trapped(Case::L4, AT),
                124,
                "acc: L.3 case 4 at 1:41: lvalue designates no object\n",
            ),
            (
                Ended::Trapped(Case::L5, AT),
                125,
                "acc: L.3 case 5 at 1:41: string literal modified\n",
            ),
            (
                Ended::Trapped(Case::L6, AT),
                126,
                "acc: L.3 case 6 at 1:41: invalid operand of unary *\n",
            ),
            (
                Ended::Trapped(Case::L7, AT),
                127,
                "acc: L.3 case 7 at 1:41: element just beyond the array used\n",
            ),
            (
                Ended::Trapped(Case::L8, AT),
                128,
                "acc: L.3 case 8 at 1:41: const object modified\n",
            ),
            (
                Ended::Trapped(Case::L9, AT),
                129,
                "acc: L.3 case 9 at 1:41: invalid library argument\n",
            ),
            (
                Ended::Trapped(Case::L10, AT),
                130,
                "acc: L.3 case 10 at 1:41: invalid longjmp\n",
            ),
            (
                Ended::Trapped(Case::L11, AT),
                131,
                "acc: L.3 case 11 at 1:41: pointer to released space used\n",
            ),
            (
                Ended::Trapped(Case::L12, AT),
                132,
                "acc: L.3 case 12 at 1:41: library access beyond the object\n",
            ),
        ],
    );
}

#[test]
fn reports_stops(rt: HostRuntime) {
    expect_reports(
        &rt,
        &[
            (
                Ended::Undefined(Code::U01, AT),
                140,
                "acc: undefined U01 at 1:41: signed result out of range\n",
            ),
            (
                Ended::Undefined(Code::U02, AT),
                140,
                "acc: undefined U02 at 1:41: division by zero\n",
            ),
            (
                Ended::Undefined(Code::U03, AT),
                140,
                "acc: undefined U03 at 1:41: invalid shift\n",
            ),
            (
                Ended::Undefined(Code::U04, AT),
                140,
                "acc: undefined U04 at 1:41: value of a call that returned none\n",
            ),
            (
                Ended::Undefined(Code::U05, AT),
                140,
                "acc: undefined U05 at 1:41: indeterminate value read\n",
            ),
            (
                Ended::Undefined(Code::U06, AT),
                140,
                "acc: undefined U06 at 1:41: pointer moved outside its array\n",
            ),
            (
                Ended::Undefined(Code::U07, AT),
                140,
                "acc: undefined U07 at 1:41: difference of unrelated pointers\n",
            ),
            (
                Ended::Undefined(Code::U08, AT),
                140,
                "acc: undefined U08 at 1:41: order of unrelated pointers\n",
            ),
            (
                Ended::Undefined(Code::U09, FAR),
                140,
                "acc: undefined U09 at 4294967295:4294967294: conversion undefined or outside the profile\n",
            ),
            (
                Ended::Undefined(Code::U10, AT),
                140,
                "acc: undefined U10 at 1:41: overlapping assignment\n",
            ),
            (
                Ended::Undefined(Code::U11, AT),
                140,
                "acc: undefined U11 at 1:41: overlapping copy\n",
            ),
            (
                Ended::Undefined(Code::U12, AT),
                140,
                "acc: undefined U12 at 1:41: invalid truth value read\n",
            ),
        ],
    );
}

#[test]
fn reports_refusals(rt: HostRuntime) {
    expect_reports(
        &rt,
        &[
            (
                Ended::Refused(Refusal::Size, AT),
                160,
                "acc: refused at 1:41: Size\n",
            ),
            (
                Ended::Refused(Refusal::Char, AT),
                160,
                "acc: refused at 1:41: Char\n",
            ),
            (
                Ended::Refused(Refusal::Unclosed, AT),
                160,
                "acc: refused at 1:41: Unclosed\n",
            ),
            (
                Ended::Refused(Refusal::Literal, AT),
                160,
                "acc: refused at 1:41: Literal\n",
            ),
            (
                Ended::Refused(Refusal::Directive, AT),
                160,
                "acc: refused at 1:41: Directive\n",
            ),
            (
                Ended::Refused(Refusal::Profile, AT),
                160,
                "acc: refused at 1:41: Profile\n",
            ),
            (
                Ended::Refused(Refusal::Syntax, AT),
                160,
                "acc: refused at 1:41: Syntax\n",
            ),
            (
                Ended::Refused(Refusal::Deep, AT),
                160,
                "acc: refused at 1:41: Deep\n",
            ),
            (
                Ended::Refused(Refusal::Constraint(1), AT),
                160,
                "acc: refused at 1:41: Constraint 1\n",
            ),
            (
                Ended::Refused(Refusal::Constraint(65535), FAR),
                160,
                "acc: refused at 4294967295:4294967294: Constraint 65535\n",
            ),
        ],
    );
}

#[test]
fn prints_the_table(rt: HostRuntime) {
    let mut line = Line::new();
    for (index, text) in [
        "L.3 1 6.2.4 object used outside its lifetime\n",
        "L.3 2 6.2.7 store to an object with two incompatible declarations\n",
        "L.3 3 6.5.2.2 function called through an incompatible type\n",
        "L.3 4 6.3.2.1 lvalue designates no object\n",
        "L.3 5 6.4.5 string literal modified\n",
        "L.3 6 6.5.3.2 invalid operand of unary *\n",
        "L.3 7 6.5.6 element just beyond the array used\n",
        "L.3 8 6.7.3 const object modified\n",
        "L.3 9 7.1.4 invalid library argument\n",
        "L.3 10 7.13.2.1 invalid longjmp\n",
        "L.3 11 7.22.3 pointer to released space used\n",
        "L.3 12 7.24.1 library access beyond the object\n",
        "U01 signed result out of range\n",
        "U02 division by zero\n",
        "U03 invalid shift\n",
        "U04 value of a call that returned none\n",
        "U05 indeterminate value read\n",
        "U06 pointer moved outside its array\n",
        "U07 difference of unrelated pointers\n",
        "U08 order of unrelated pointers\n",
        "U09 conversion undefined or outside the profile\n",
        "U10 overlapping assignment\n",
        "U11 overlapping copy\n",
        "U12 invalid truth value read\n",
    ]
    .iter()
    .enumerate()
    {
        table_line(index as u8, &mut line);
        assert_eq!(rt; line.bytes(), text.as_bytes());
    }
}

#[test]
fn compares_names(rt: HostRuntime) -> Result<(), Fail> {
    let main = Name::new(rt.alloc(), b"main")?;
    let mane = Name::new(rt.alloc(), b"mane")?;
    assert_eq!(rt; main.bytes(), b"main".as_slice());
    assert!(rt; main == Name::new(rt.alloc(), b"main")?);
    assert!(rt; main != mane);
    assert!(rt; main < mane);
    let mut seen: HashMap<Name, u8> = HashMap::new(rt.alloc());
    seen.insert(main, 1)?;
    seen.insert(mane, 2)?;
    assert_eq!(rt;
        seen.get(&Name::new(rt.alloc(), b"mane")?).copied(),
        Some(2)
    );
    Ok(())
}
