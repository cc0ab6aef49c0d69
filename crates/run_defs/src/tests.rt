//! The line of each event, against lines written by hand, and journals over sinks.
use super::*;
use acc_io::MemSink;
use critical_table::{Case, Code, Line, Pos};
use lib_defs::{Row, Shown, ShownName, row_of};
use object_store::{By, Class, Mark, Pointer, Write};
use std::alloc::Global;
use std::process::Abort;
use std::test::Fail;

const AT: Pos = Pos {
    line: 1,
    column: 41,
};

const FAR: Pos = Pos {
    line: 4294967295,
    column: 4294967295,
};

const PLACE: Pointer = Pointer {
    object: 4,
    offset: 12,
    low: 0,
    high: 12,
};

const EDGE: Pointer = Pointer {
    object: 4294967295,
    offset: 4294967295,
    low: 4294967295,
    high: 4294967295,
};

fn expect_line(rt: &impl Abort, event: &Event, text: &str) {
    let mut line = Line::new();
    line.push(b"an earlier line");
    event_line(event, &mut line);
    assert_eq!(rt; line.bytes(), text.as_bytes(), "{text}");
}

fn row(rt: &impl Abort, name: &str) -> Row {
    row_of(name.as_bytes()).expect(rt, "a library function")
}

fn attempt(place: Pointer, len: u32, align: u32, by: By) -> Attempt {
    Attempt {
        place,
        len,
        align,
        by,
    }
}

fn sealed(object: u32, at: u32, len: u32, mark: Mark) -> Event {
    Event::Sealed {
        object,
        seal: Seal { at, len, mark },
    }
}

#[test]
fn writes_lines_of_objects(rt: HostRuntime) {
    let made = |object, size, class| Event::Made {
        object,
        size,
        class,
    };
    expect_line(&rt, &made(2, 131, Class::Static), "made 2 131 s\n");
    expect_line(&rt, &made(4, 1, Class::Automatic), "made 4 1 a\n");
    expect_line(
        &rt,
        &made(7, 16777216, Class::Allocated),
        "made 7 16777216 h\n",
    );
    expect_line(
        &rt,
        &sealed(2, 0, 131, Mark::Literal),
        "seal 2 0 131 literal\n",
    );
    expect_line(&rt, &sealed(4, 1, 2, Mark::Const), "seal 4 1 2 const\n");
    expect_line(&rt, &sealed(4, 1, 2, Mark::Clash), "seal 4 1 2 clash\n");
    let write = Write {
        object: 6,
        at: 3,
        len: 4,
    };
    expect_line(&rt, &Event::Stored(write), "store 6 3 4\n");
    expect_line(&rt, &Event::Died { object: 6 }, "dead 6\n");
}

#[test]
fn writes_lines_of_calls(rt: HostRuntime) {
    let mut values = Values::new();
    values.push(Shown::Place {
        object: 0,
        offset: 0,
    });
    values.push(Shown::Number(1));
    values.push(Shown::Place {
        object: 4,
        offset: 0,
    });
    let row = row(&rt, "strcpy_s");
    expect_line(
        &rt,
        &Event::Called { row, values },
        "lib strcpy_s 0:0 1 4:0\n",
    );
    let value = Shown::Number(22);
    expect_line(&rt, &Event::Returned { row, value }, "ret strcpy_s 22\n");
    let constraint = 1;
    expect_line(
        &rt,
        &Event::Violated { row, constraint },
        "violated strcpy_s 1\n",
    );
}

#[test]
fn writes_lines_of_handlers(rt: HostRuntime) {
    let row = row(&rt, "set_constraint_handler_s");
    let values = Values::new();
    expect_line(
        &rt,
        &Event::Called { row, values },
        "lib set_constraint_handler_s\n",
    );
    let set = Event::HandlerSet(ShownName::cut(b"ignore_handler_s"));
    expect_line(&rt, &set, "set ignore_handler_s\n");
    let value = Shown::Function(ShownName::cut(b"abort_handler_s"));
    expect_line(
        &rt,
        &Event::Returned { row, value },
        "ret set_constraint_handler_s abort_handler_s\n",
    );
    let called = Event::HandlerCalled(ShownName::cut(b"h"));
    expect_line(&rt, &called, "handler h\n");
    expect_line(&rt, &Event::HandlerReturned, "handled\n");
}

#[test]
fn writes_values(rt: HostRuntime) {
    let returned = |name, value| Event::Returned {
        row: row(&rt, name),
        value,
    };
    let putchar = returned("putchar", Shown::Number(-1));
    expect_line(&rt, &putchar, "ret putchar -1\n");
    let largest = returned("strlen", Shown::Number(18446744073709551615));
    expect_line(&rt, &largest, "ret strlen 18446744073709551615\n");
    let null = Shown::Place {
        object: 0,
        offset: 0,
    };
    expect_line(&rt, &returned("malloc", null), "ret malloc 0:0\n");
    expect_line(&rt, &returned("free", Shown::NoValue), "ret free -\n");
}

#[test]
fn cuts_names(rt: HostRuntime) {
    let name = b"a23456789b23456789c23456789d23456789e23456789f23456789g23456789h234567";
    expect_line(
        &rt,
        &Event::HandlerSet(ShownName::cut(name)),
        "set a23456789b23456789c23456789d23456789e23456789f23456789g23456789h\n",
    );
}

#[test]
fn writes_lines_of_traps(rt: HostRuntime) {
    let failed = |case, pos, attempt| Event::ReachFailed { case, pos, attempt };
    expect_line(
        &rt,
        &failed(Case::L7, AT, attempt(PLACE, 4, 4, By::Star)),
        "trap 7 at 1:41 pointer 4 12 0 12 size 4 align 4 by star\n",
    );
    expect_line(
        &rt,
        &failed(
            Case::L12,
            FAR,
            attempt(EDGE, 4294967295, 4294967295, By::OtherWrite),
        ),
        "trap 12 at 4294967295:4294967295 pointer 4294967295 4294967295 4294967295 4294967295 size 4294967295 \
         align 4294967295 by otherwrite\n",
    );
    for (by, word) in [
        (By::Arrow, "arrow"),
        (By::Store, "store"),
        (By::TextRead, "textread"),
        (By::TextWrite, "textwrite"),
        (By::OtherRead, "otherread"),
    ] {
        let text = format!(in rt.alloc();
            "trap 6 at 1:41 pointer 4 12 0 12 size 1 align 1 by {word}\n"
        );
        let text = text.expect(&rt, "memory");
        expect_line(
            &rt,
            &failed(Case::L6, AT, attempt(PLACE, 1, 1, by)),
            text.as_str(),
        );
    }
}

#[test]
fn writes_lines_of_other_stops(rt: HostRuntime) {
    let function = Event::ValueFailed {
        case: Case::L3,
        pos: AT,
        value: Shown::Function(ShownName::cut(b"g")),
    };
    expect_line(&rt, &function, "trap 3 at 1:41 function g\n");
    let released = Event::ValueFailed {
        case: Case::L11,
        pos: AT,
        value: Shown::Place {
            object: 7,
            offset: 0,
        },
    };
    expect_line(&rt, &released, "trap 11 at 1:41 function 7:0\n");
    let argument = Event::ArgumentFailed {
        pos: AT,
        argument: 2,
    };
    expect_line(&rt, &argument, "trap 9 at 1:41 argument 2\n");
    let stopped = Event::Stopped {
        code: Code::U05,
        pos: AT,
    };
    expect_line(&rt, &stopped, "stop U05 at 1:41\n");
}

#[test]
fn writes_ends(rt: HostRuntime) {
    for (outcome, text) in [
        (Outcome::Exited(0), "end exited 0\n"),
        (Outcome::Exited(255), "end exited 255\n"),
        (Outcome::Aborted, "end aborted\n"),
        (Outcome::Trapped(Case::L12, AT), "end trapped 12\n"),
        (Outcome::Undefined(Code::U10, AT), "end undefined U10\n"),
        (Outcome::OutOfTicks, "end out of ticks\n"),
        (Outcome::OutOfBytes, "end out of bytes\n"),
        (Outcome::ReadFault, "end input failed\n"),
    ] {
        expect_line(&rt, &Event::Ended(outcome.end()), text);
    }
}

/// Two lines through a sink that takes pieces of 3 bytes, and fails at its calls with these numbers.
fn expect_journal(rt: &impl Abort, alloc: Global, failing: Vec<u64>, second: bool, text: &str) {
    let sink = MemSink::new(alloc, 100, 3, failing).expect(rt, "memory");
    let mut journal = LineJournal::new(sink);
    assert!(rt; journal.event(&Event::Died { object: 4 }).is_ok());
    assert_eq!(rt;
        journal.event(&Event::HandlerReturned).is_ok(),
        second,
        "{text}"
    );
    assert_eq!(rt; journal.into_out().bytes(), text.as_bytes());
}

#[test]
fn journals_lines(rt: HostRuntime) {
    let none = Vec::new(rt.alloc());
    expect_journal(&rt, rt.alloc(), none, true, "dead 4\nhandled\n");
    let fifth = vec![in rt.alloc(); 5].expect(&rt, "memory");
    expect_journal(&rt, rt.alloc(), fifth, false, "dead 4\nhan");
    let mut nothing = NoJournal::new();
    assert!(&rt; nothing.event(&Event::HandlerReturned).is_ok());
}

#[test]
fn tells_ends(rt: HostRuntime) {
    use critical_table::Ended;
    for (outcome, ended) in [
        (Outcome::Exited(7), Ended::Exited(7)),
        (Outcome::Aborted, Ended::Aborted),
        (Outcome::Trapped(Case::L1, AT), Ended::Trapped(Case::L1, AT)),
        (
            Outcome::Undefined(Code::U01, AT),
            Ended::Undefined(Code::U01, AT),
        ),
        (Outcome::OutOfTicks, Ended::OutOfTicks),
        (Outcome::OutOfBytes, Ended::OutOfBytes),
        (Outcome::ReadFault, Ended::ReadFault),
    ] {
        assert_eq!(&rt; outcome.ended(), ended);
    }
}
