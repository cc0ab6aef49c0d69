//! `acc`: does what the words of its command line ask for. All that matters is in `acc_main`.
#![tactic(auto)]

mod exit;

use acc_io::{FileShelf, MemSource, Streams, WriteSink};
use acc_run::Words;
use critical_table::Ended;
use exit::{exit_code, run};
use std::alloc::AllocError;
use std::process::ExitCode;
use std::{env, io};

/// The words of the command line; none where one of them is not UTF-8, which no command takes.
fn command_line(rt: &HostRuntime) -> Result<Words, AllocError> {
    let mut words = Words::new(rt.alloc())?;
    match env::args(rt) {
        Ok(arguments) => {
            for argument in arguments {
                words.push(argument.as_str())?;
            }
            Ok(words)
        }
        Err(error) if error.kind() == io::ErrorKind::OutOfMemory => Err(AllocError),
        Err(_) => Ok(words),
    }
}

fn main(rt: HostRuntime) -> ExitCode {
    let Ok(words) = command_line(&rt) else {
        return exit_code(&Ended::Memory);
    };
    let mut shelf = FileShelf::new(&rt);
    let streams = Streams {
        input: MemSource::new(Vec::new(rt.alloc()), 1, Vec::new(rt.alloc())),
        out: WriteSink::new(rt.stdout()),
        err: WriteSink::new(rt.stderr()),
    };
    let (code, _streams) = run(rt.alloc(), &words, &mut shelf, streams);
    code
}
