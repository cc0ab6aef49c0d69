//! Pieces, rooms and failing calls of the forms in memory, and the adapters over real files.

use crate::{
    Failed, FileShelf, MemShelf, MemSink, MemSource, ReadSource, Shelf, Sink, SoundShelf,
    SoundSource, Source, WriteSink, write_all,
};
use std::alloc::{AllocError, Global};
use std::fs::File;
use std::io::Write;
use std::process::Abort;
use std::test::Fail;
use std::{fs, io};

// The mark of a call that moves bytes: how many it moved, or `!` where it failed.
fn moved_mark(outcome: Result<usize, Failed>) -> char {
    match outcome {
        Ok(n) if n < 10 => char::from(b'0' + n as u8),
        Ok(_) => '+',
        Err(_) => '!',
    }
}

// The mark of a call that moves none: `.`, or `!` where it failed.
fn done_mark(outcome: Result<(), Failed>) -> char {
    match outcome {
        Ok(()) => '.',
        Err(_) => '!',
    }
}

// Reads by a buffer of four bytes, until each mark was met.
fn expect_reads<S: Source>(rt: &impl Abort, source: &mut S, marks: &str) {
    let mut buf = [0; 4];
    let mut next = b'a';
    for want in marks.chars() {
        let outcome = source.read(&mut buf);
        if let Ok(n) = outcome {
            for byte in &buf[..n] {
                assert_eq!(rt; *byte, next);
                next = next.wrapping_add(1);
            }
        }
        assert_eq!(rt; moved_mark(outcome), want);
    }
}

#[test]
fn sources_read_by_pieces(rt: HostRuntime) -> Result<(), Fail> {
    let cases: [(usize, &[u64], &str); 4] = [
        (1, &[], "1111110"),
        (7, &[], "420"),
        (7, &[2], "4!200"),
        (5, &[1, 2], "!!420"),
    ];
    for (piece, failing, marks) in cases {
        assert!(rt; piece > 0);
        let bytes = b"abcdef".to_vec(rt.alloc())?;
        let mut source = MemSource::new(bytes, piece, failing.to_vec(rt.alloc())?);
        expect_reads(&rt, &mut source, marks);
    }
    let mut sound = SoundSource::new(b"abcdef".to_vec(rt.alloc())?, 7);
    expect_reads(&rt, &mut sound, "420");
    Ok(())
}

#[test]
fn sink_takes_pieces_up_to_its_room(rt: HostRuntime) -> Result<(), Fail> {
    // each call writes the three bytes `abc`
    let cases: [(usize, usize, &[u64], &str, &[u8]); 5] = [
        (1, 9, &[], "111", b"aaa"),
        (7, 9, &[], "333", b"abcabcabc"),
        (7, 5, &[], "32!", b"abcab"),
        (7, 9, &[1, 2], "!!3", b"abc"),
        (7, 9, &[2], "3!3", b"abcabc"),
    ];
    for (piece, room, failing, marks, bytes) in cases {
        assert!(rt; piece > 0);
        let mut sink = MemSink::new(rt.alloc(), room, piece, failing.to_vec(rt.alloc())?)?;
        for want in marks.chars() {
            assert_eq!(rt; moved_mark(sink.write(b"abc")), want);
        }
        assert_eq!(rt; done_mark(sink.flush()), '.');
        assert_eq!(rt; sink.bytes(), bytes);
    }
    Ok(())
}

#[test]
fn write_all_writes_all_or_a_front(rt: HostRuntime) -> Result<(), Fail> {
    let cases: [(usize, &[u64], &[u8]); 3] = [
        (9, &[], b"abcdef"),
        (4, &[], b"abcd"),
        (9, &[2], b"ab"),
    ];
    for (room, failing, bytes) in cases {
        let mut sink = MemSink::new(rt.alloc(), room, 2, failing.to_vec(rt.alloc())?)?;
        assert_eq!(rt; write_all(&mut sink, b"abcdef").is_ok(), bytes.len() == 6);
        assert_eq!(rt; sink.bytes(), bytes);
    }
    Ok(())
}

// Each step selects a name, or reads by a buffer of four bytes where there is none.
const STEPS: [&str; 8] = ["", "a.c", "", "", "none.c", "", "a.c", ""];

fn expect_steps<S: Shelf>(rt: &impl Abort, shelf: &mut S, marks: &str) {
    let mut buf = [0; 4];
    for (name, want) in STEPS.iter().zip(marks.chars()) {
        let mark = if name.is_empty() {
            moved_mark(shelf.read(&mut buf))
        } else {
            done_mark(shelf.select(name))
        };
        assert_eq!(rt; mark, want);
    }
    assert_eq!(rt; buf[0], b'f');
}

fn file_of(alloc: Global, name: &str, bytes: &[u8]) -> Result<(String, Vec<u8>), AllocError> {
    Ok((String::from_str(alloc, name)?, bytes.to_vec(alloc)?))
}

fn two_of_one_name(alloc: Global) -> Result<Vec<(String, Vec<u8>)>, AllocError> {
    let mut files = Vec::new(alloc);
    files.push(file_of(alloc, "b.c", b"other")?)?;
    files.push(file_of(alloc, "a.c", b"first")?)?;
    files.push(file_of(alloc, "a.c", b"second")?)?;
    Ok(files)
}

#[test]
fn shelves_read_the_first_of_a_name(rt: HostRuntime) -> Result<(), Fail> {
    let cases: [(usize, &[u64], &str); 3] = [
        (1, &[], "0.11!0.1"),
        (7, &[], "0.41!0.4"),
        (7, &[1, 2], "!!00!0.4"),
    ];
    for (piece, failing, marks) in cases {
        assert!(rt; piece > 0);
        let files = two_of_one_name(rt.alloc())?;
        expect_steps(
            &rt,
            &mut MemShelf::new(files, piece, failing.to_vec(rt.alloc())?),
            marks,
        );
    }
    expect_steps(
        &rt,
        &mut SoundShelf::new(two_of_one_name(rt.alloc())?, 7),
        "0.41!0.4",
    );
    Ok(())
}

#[test]
fn file_shelf_reads_a_real_file(rt: HostRuntime) -> Result<(), Fail> {
    fs::write(&rt, "a.c", "first")?;
    expect_steps(&rt, &mut FileShelf::new(rt), "0.41!0.4");
    fs::remove_file(&rt, "a.c")?;
    Ok(())
}

#[test]
fn file_shelf_fails_to_read_a_folder(rt: HostRuntime) {
    let mut buf = [0; 4];
    let mut shelf = FileShelf::new(&rt);
    assert_eq!(rt; done_mark(shelf.select(".")), '.');
    assert_eq!(rt; moved_mark(shelf.read(&mut buf)), '!');

    // a path that goes through no folder
    assert_eq!(rt; done_mark(shelf.select("./none/none.c")), '!');
    assert_eq!(rt; moved_mark(shelf.read(&mut buf)), '0');
}

#[test]
fn read_source_reads_a_real_file(rt: HostRuntime) -> Result<(), Fail> {
    fs::write(&rt, "in.txt", "abcde")?;
    expect_reads(&rt, &mut ReadSource::new(File::open(&rt, "in.txt")?), "410");
    fs::remove_file(&rt, "in.txt")?;

    // a folder can't be read
    expect_reads(&rt, &mut ReadSource::new(File::open(&rt, ".")?), "!");
    Ok(())
}

// A writer that takes nothing.
#[derive(Drop)]
struct Full;

impl Write for Full {
    fn write(&mut self, _buf: &[u8]) -> io::Result<usize> {
        Ok(0)
    }

    fn flush(&mut self) -> io::Result<()> {
        Ok(())
    }
}

// A writer that takes all, and fails to hand it on.
#[derive(Drop)]
struct Clogged;

impl Write for Clogged {
    fn write(&mut self, buf: &[u8]) -> io::Result<usize> {
        Ok(buf.len())
    }

    fn flush(&mut self) -> io::Result<()> {
        Err(io::ErrorKind::BrokenPipe.into())
    }
}

#[test]
fn write_sink_fails_where_the_writer_does(rt: HostRuntime) {
    let mut full = WriteSink::new(Full);
    assert!(rt; write_all(&mut full, b"more").is_err() && write_all(&mut full, b"").is_ok());
    assert_eq!(rt; done_mark(full.flush()), '.');

    let mut clogged = WriteSink::new(Clogged);
    assert!(rt; write_all(&mut clogged, b"more").is_ok());
    assert_eq!(rt; done_mark(clogged.flush()), '!');
}

#[test]
fn write_sink_writes_a_real_file(rt: HostRuntime) -> Result<(), Fail> {
    let mut sink = WriteSink::new(File::create(&rt, "out.txt")?);
    assert!(rt; write_all(&mut sink, b"hello").is_ok() && sink.flush().is_ok());
    assert_eq!(rt; fs::read_to_string(&rt, "out.txt")?.as_str(), "hello");

    // a file that is open for reading alone takes nothing
    let mut refused = WriteSink::new(File::open(&rt, "out.txt")?);
    assert!(rt; write_all(&mut refused, b"more").is_err());
    fs::remove_file(&rt, "out.txt")?;
    Ok(())
}
