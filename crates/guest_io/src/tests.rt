//! Streams by pieces of one byte, with a failing call in each place.
ghost use Rattle.std.specs.Prelude.{◌≡◌, true, false, IfOk};

use crate::GuestIo;
use acc_io::{MemSink, MemSource, Streams};
use critical_table::Ended;
use lib_defs::{LibStep, Value};
use std::alloc::{AllocError, Global};
use std::test::Fail;

/// Streams in memory by pieces of one byte; the calls with these numbers fail.
fn guest(
    alloc: Global,
    input: &[u8],
    failing: [&[u64]; 2],
) -> Result<GuestIo<MemSource, MemSink, MemSink>, AllocError>
    ensures { IfOk result (λ io. io.cut ≡ false) }
{
    Ok(GuestIo::new(Streams {
        input: MemSource::new(input.to_vec(alloc)?, 1, failing[0].to_vec(alloc)?),
        out: MemSink::new(alloc, 8192, 1, failing[1].to_vec(alloc)?)?,
        err: MemSink::new(alloc, 200, 1, Vec::new(alloc))?,
    }))
}

/// Whether a byte was written.
fn puts_byte(io: &mut GuestIo<MemSource, MemSink, MemSink>, byte: i32) -> bool
    requires { io.old.cut ≡ false }
    ensures { result ≡ true → io.new.cut ≡ false }
{
    match io.putchar(byte) {
        LibStep::Done(_) => true,
        _ => false,
    }
}

/// Whether `getchar` gives this number.
fn gets(io: &mut GuestIo<MemSource, MemSink, MemSink>, want: i128) -> bool
    requires { io.old.cut ≡ false }
    ensures { result ≡ true → io.new.cut ≡ false }
{
    match io.getchar() {
        LibStep::Done(Value::Num(n)) => n == want,
        _ => false,
    }
}

#[test]
fn full_buffer_is_written_at_once(rt: HostRuntime) -> Result<(), Fail> {
    let mut io = guest(rt.alloc(), b"", [&[], &[]])?;
    for _ in 0..4096 {
        let ok = puts_byte(&mut io, 353);
        assert!(rt; ok);
    }
    let streams = io.into_streams();
    assert_eq!(rt; streams.out.bytes().len(), 4096);
    assert_eq!(rt; streams.out.bytes()[0], b'a');
    Ok(())
}

#[test]
fn output_is_held_back_until_the_end(rt: HostRuntime) -> Result<(), Fail> {
    let mut io = guest(rt.alloc(), b"", [&[], &[]])?;
    let ok = puts_byte(&mut io, 104);
    assert!(rt; ok);
    assert!(rt; io.finish(b"line\n").is_ok());
    let streams = io.into_streams();
    assert_eq!(rt; streams.out.bytes(), b"h".as_slice());
    assert_eq!(rt; streams.err.bytes(), b"line\n".as_slice());
    Ok(())
}

#[test]
fn source_is_read_by_bytes_to_its_end(rt: HostRuntime) -> Result<(), Fail> {
    let mut io = guest(rt.alloc(), b"ab", [&[4], &[]])?;
    for want in [97, 98, -1, -1] {
        let ok = gets(&mut io, want);
        assert!(rt; ok);
    }
    Ok(())
}

#[test]
fn failed_read_is_a_read_fault(rt: HostRuntime) -> Result<(), Fail> {
    let mut io = guest(rt.alloc(), b"ab", [&[1], &[]])?;
    assert_eq!(rt; io.getchar(), LibStep::End(Ended::ReadFault));
    Ok(())
}

#[test]
fn failed_write_before_a_read_is_a_write_fault(rt: HostRuntime) -> Result<(), Fail> {
    let mut io = guest(rt.alloc(), b"ab", [&[], &[1]])?;
    let ok = puts_byte(&mut io, 104);
    assert!(rt; ok);
    assert_eq!(rt; io.getchar(), LibStep::End(Ended::WriteFault));
    assert!(rt; io.finish(b"line\n").is_err());
    let streams = io.into_streams();
    assert!(rt; streams.out.bytes().is_empty());
    assert!(rt; streams.err.bytes().is_empty());
    Ok(())
}
