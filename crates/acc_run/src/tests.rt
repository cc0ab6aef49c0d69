//! Each command over objects in memory, by pieces, with failing calls, and units at the greatest length.

ghost use Rattle.std.specs.Prelude.{◌≤◌};

use crate::{Words, acc_main};
use acc_io::{MemShelf, MemSink, MemSource, Shelf, SoundShelf, Streams};
use critical_table::{Code, Ended, Pos, Refusal};
use std::alloc::{AllocError, Global};
use std::test::Fail;

// The calls that fail, of the shelf, the output and the error output.
#[derive(Clone, Copy)]
struct Failing<'a> {
    shelf: &'a [u64],
    out: &'a [u64],
    err: &'a [u64],
}

const NONE: Failing<'static> = Failing {
    shelf: &[],
    out: &[],
    err: &[],
};

#[derive(Drop)]
struct Done {
    ended: Ended,
    out: Vec<u8>,
    err: Vec<u8>,
}

fn words_of(alloc: Global, texts: &[&str]) -> Result<Words, AllocError> {
    let mut words = Words::new(alloc)?;
    for text in texts {
        words.push(text)?;
    }
    Ok(words)
}

fn files_of(alloc: Global, unit: &[u8]) -> Result<Vec<(String, Vec<u8>)>, AllocError> {
    let mut files = Vec::new(alloc);
    let name = String::from_str(alloc, "a.c")?;
    files.push((name, Vec::from_slice(alloc, unit)?))?;
    Ok(files)
}

fn streams_of(
    alloc: Global,
    piece: usize,
    failing: Failing<'_>,
) -> Result<Streams<MemSource, MemSink, MemSink>, AllocError>
    requires { 1 ≤ piece }
{
    Ok(Streams {
        input: MemSource::new(Vec::new(alloc), 1, Vec::new(alloc)),
        out: MemSink::new(alloc, 8192, piece, Vec::from_slice(alloc, failing.out)?)?,
        err: MemSink::new(alloc, 8192, piece, Vec::from_slice(alloc, failing.err)?)?,
    })
}

// What the top call answers and writes, where `a.c` is the unit and calls move at most `piece` bytes.
fn call(
    alloc: Global,
    texts: &[&str],
    unit: &[u8],
    piece: usize,
    failing: Failing<'_>,
) -> Result<Done, AllocError>
    requires { 1 ≤ piece }
{
    let words = words_of(alloc, texts)?;
    let files = files_of(alloc, unit)?;
    let mut shelf = MemShelf::new(files, piece, Vec::from_slice(alloc, failing.shelf)?);
    let streams = streams_of(alloc, piece, failing)?;
    let (ended, streams) = acc_main(alloc, &words, &mut shelf, streams);
    Ok(Done {
        ended,
        out: Vec::from_slice(alloc, streams.out.bytes())?,
        err: Vec::from_slice(alloc, streams.err.bytes())?,
    })
}

const RUN: [&str; 3] = ["acc", "run", "a.c"];

const FIRST: Pos = Pos { line: 1, column: 1 };

const REFUSED: Ended = Ended::Refused(Refusal::Syntax, FIRST);

// The end, the output and the report of each unit.
const UNITS: [(&str, Ended, &str, &str); 18] = [
    ("int main(void){return 0;}", Ended::Exited(0), "", ""),
    ("int main(void){return 263;}", Ended::Exited(7), "", ""),
    (
        "int main(void){putchar(104);putchar(105);return 40+2;}",
        Ended::Exited(42),
        "hi",
        "",
    ),
    (
        "int main(void){putchar(353);return 0;}",
        Ended::Exited(0),
        "a",
        "",
    ),
    (
        "int main(void){return 1+2+3+0+250;}",
        Ended::Exited(0),
        "",
        "",
    ),
    (
        "int main(void){return 2147483647+1;}",
        Ended::Undefined(
            Code::U01,
            Pos {
                line: 1,
                column: 33,
            },
        ),
        "",
        "acc: undefined U01 at 1:33: signed result out of range\n",
    ),
    (
        "int main(void){putchar(65);return 2147483646+0+1+1;}",
        Ended::Undefined(
            Code::U01,
            Pos {
                line: 1,
                column: 49,
            },
        ),
        "A",
        "acc: undefined U01 at 1:49: signed result out of range\n",
    ),
    ("", REFUSED, "", "acc: refused at 1:1: Syntax\n"),
    (
        "int main(void){return 00;}",
        REFUSED,
        "",
        "acc: refused at 1:1: Syntax\n",
    ),
    (
        "int main(void){return 01;}",
        REFUSED,
        "",
        "acc: refused at 1:1: Syntax\n",
    ),
    (
        "int main(void){return 2147483648;}",
        REFUSED,
        "",
        "acc: refused at 1:1: Syntax\n",
    ),
    (
        "int main(void){return 1+;}",
        REFUSED,
        "",
        "acc: refused at 1:1: Syntax\n",
    ),
    (
        "int main(void){return ;}",
        REFUSED,
        "",
        "acc: refused at 1:1: Syntax\n",
    ),
    (
        "int main(void){return 0;}\n",
        REFUSED,
        "",
        "acc: refused at 1:1: Syntax\n",
    ),
    (
        "int main(void) {return 0;}",
        REFUSED,
        "",
        "acc: refused at 1:1: Syntax\n",
    ),
    (
        "int main(void){putchar(1)return 0;}",
        REFUSED,
        "",
        "acc: refused at 1:1: Syntax\n",
    ),
    (
        "int main(void){return 0;putchar(1);}",
        REFUSED,
        "",
        "acc: refused at 1:1: Syntax\n",
    ),
    (
        "int main(void){return 0",
        REFUSED,
        "",
        "acc: refused at 1:1: Syntax\n",
    ),
];

#[test]
fn runs_units_by_pieces(rt: HostRuntime) -> Result<(), Fail> {
    for (unit, ended, out, err) in UNITS {
        for piece in [1, 7, 4096] {
            assert!(rt; piece >= 1);
            let done = call(rt.alloc(), &RUN, unit.as_bytes(), piece, NONE)?;
            assert_eq!(rt; done.ended, ended, "{unit}");
            assert_eq!(rt; done.out.as_slice(), out.as_bytes(), "{unit}");
            assert_eq!(rt; done.err.as_slice(), err.as_bytes(), "{unit}");
        }
    }
    Ok(())
}

#[test]
fn takes_words(rt: HostRuntime) -> Result<(), Fail> {
    let cases: [(&[&str], Ended); 13] = [
        (&["acc", "run", "a.c"], Ended::Exited(0)),
        (&["acc", "run", "b.c"], Ended::ShelfFault),
        (&["acc", "run", ""], Ended::ShelfFault),
        (&["acc", "run", "-"], Ended::ShelfFault),
        (&["acc", "run", "-x"], Ended::Usage),
        (&["acc", "run"], Ended::Usage),
        (&["acc", "run", "a.c", "a.c"], Ended::Usage),
        (&["acc", "check", "a.c"], Ended::Usage),
        (&["acc", "table"], Ended::Printed),
        (&["acc", "table", "a.c"], Ended::Usage),
        (&["acc", "Table"], Ended::Usage),
        (&["acc"], Ended::Usage),
        (&[], Ended::Usage),
    ];
    for (texts, ended) in cases {
        let done = call(rt.alloc(), texts, b"int main(void){return 0;}", 7, NONE)?;
        assert_eq!(rt; done.ended, ended, "{texts:?}");
    }
    Ok(())
}

#[test]
fn ends_at_the_first_fault(rt: HostRuntime) -> Result<(), Fail> {
    // shelf, output, error output: the numbers of the calls that fail
    let cases: [(&[u64], &[u64], &[u64], Ended, &str); 8] = [
        (&[1], &[], &[], Ended::ShelfFault, ""),
        (&[2], &[], &[], Ended::ShelfFault, ""),
        (&[3], &[], &[], Ended::ShelfFault, ""),
        (&[9], &[9], &[9], Ended::Exited(0), "xy"),
        (&[], &[1], &[], Ended::WriteFault, ""),
        (&[], &[2], &[], Ended::WriteFault, "xy"),
        (&[], &[], &[1], Ended::WriteFault, "xy"),
        (&[1], &[], &[1], Ended::WriteFault, ""),
    ];
    for (shelf, out, err, ended, text) in cases {
        let failing = Failing { shelf, out, err };
        let unit = b"int main(void){putchar(120);putchar(121);return 0;}";
        let done = call(rt.alloc(), &RUN, unit, 4096, failing)?;
        assert_eq!(rt; done.ended, ended, "{shelf:?} {out:?} {err:?}");
        assert_eq!(rt;
            done.out.as_slice(),
            text.as_bytes(),
            "{shelf:?} {out:?} {err:?}"
        );
        if ended == Ended::WriteFault {
            assert_eq!(rt; done.err.len(), 0);
        }
    }
    Ok(())
}

// A unit with this many calls of `putchar` and summands behind the first.
fn unit_of(alloc: Global, calls: usize, terms: usize) -> Result<Vec<u8>, AllocError> {
    let mut unit = Vec::from_slice(alloc, b"int main(void){")?;
    for _ in 0..calls {
        unit.extend_from_slice(b"putchar(0);")?;
    }
    unit.extend_from_slice(b"return 0")?;
    for _ in 0..terms {
        unit.extend_from_slice(b"+0")?;
    }
    unit.extend_from_slice(b";}")?;
    Ok(unit)
}

#[test]
fn takes_units_of_4096_bytes(rt: HostRuntime) -> Result<(), Fail> {
    for (calls, terms, len, ended) in [
        (1, 2030, 4096, Ended::Exited(0)),
        (0, 2036, 4097, REFUSED),
        (1, 4000, 8036, REFUSED),
    ] {
        let unit = unit_of(rt.alloc(), calls, terms)?;
        assert_eq!(rt; unit.len(), len);
        let words = words_of(rt.alloc(), &RUN)?;
        let mut shelf = SoundShelf::new(files_of(rt.alloc(), &unit)?, 4096);
        let streams = streams_of(rt.alloc(), 4096, NONE)?;
        let (answer, _streams) = acc_main(rt.alloc(), &words, &mut shelf, streams);
        assert_eq!(rt; answer, ended);
    }
    Ok(())
}

#[test]
fn reads_4097_bytes_at_most(rt: HostRuntime) -> Result<(), Fail> {
    let mut bytes = vec![in rt.alloc(); b'a'; 4097]?;
    bytes.extend_from_slice(b"bc")?;
    let words = words_of(rt.alloc(), &RUN)?;
    let mut shelf = SoundShelf::new(files_of(rt.alloc(), &bytes)?, 1000);
    let streams = streams_of(rt.alloc(), 4096, NONE)?;
    let (answer, _streams) = acc_main(rt.alloc(), &words, &mut shelf, streams);
    assert_eq!(rt; answer, REFUSED);

    // the file is still selected, and is read on
    let mut rest = [0; 4];
    assert_eq!(rt; shelf.read(&mut rest), Ok(2));
    assert_eq!(rt; rest[..2], b"bc"[..]);
    Ok(())
}

#[test]
fn writes_the_table(rt: HostRuntime) -> Result<(), Fail> {
    let done = call(rt.alloc(), &["acc", "table"], b"", 7, NONE)?;
    assert!(rt;
        done.out
            .starts_with(b"L.3 1 6.2.4 object used outside its lifetime\n")
    );
    assert!(rt; done.out.ends_with(b"U12 invalid truth value read\n"));
    assert_eq!(rt; done.out.iter().filter(|byte| **byte == b'\n').count(), 24);
    assert_eq!(rt; done.err.len(), 0);
    Ok(())
}
