//! What the words of a command line ask for.

ghost use Rattle.std.specs.Prelude.{◌≡◌, ℕ, List, ◌&&◌, not, Some, None, codes, if◌then◌else◌};
ghost use Rattle.std.specs.Str.{bytes_eq};
ghost use Rattle.std.specs.Option.{option_map};
ghost use Rattle.acc_run.specs.Job.{Run, Table, job_of as the_job, is_option as is_an_option};
ghost use Rattle.acc_run.specs.JobView.{job_view};

use crate::words::Words;

/// What the words of a command line ask for.
#[derive(Clone, Copy, Debug, PartialEq, Eq)]
pub enum Job<'a> {
    /// Runs the unit in this file.
    Run(&'a str),
    /// Writes the table of cases and codes.
    Table,
}

/// A word that is no file's name: it begins with `-`, and is longer than that.
fn is_option(word: &str) -> bool
    ensures { result ≡ is_an_option word.now }
{
    word.len() > 1 && word.as_bytes()[0] == b'-'
}

/// The job of the words, word 0 being the program's name; none where the words make none.
pub fn job_of(words: &Words) -> Option<Job<'_>>
    ensures { option_map job_view result ≡ the_job words.now }
{
    match words.len() {
        2 => table_job(words.get(1)?),
        3 => run_job(words.get(1)?, words.get(2)?),
        _ => None,
    }
}

fn table_job(command: &str) -> Option<Job<'static>>
    ensures { option_map job_view result ≡ (if bytes_eq command.now (codes "table") then Some Table else None) }
{
    if command == "table" {
        Some(Job::Table)
    } else {
        None
    }
}

fn run_job<'a>(command: &str, file: &'a str) -> Option<Job<'a>>
    ensures { option_map job_view result
        ≡ (if bytes_eq command.now (codes "run") && not (is_an_option file.now) then Some (Run file.now) else None) }
{
    if command == "run" && !is_option(file) {
        Some(Job::Run(file))
    } else {
        None
    }
}
