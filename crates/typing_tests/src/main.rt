//! Reads a table of texts, each with the type that it stands for or the constraint that it breaks, and tells which rows
//! the walk over types and expressions answers otherwise.
#![tactic(auto)]

mod answer;
mod answering;
mod binding;
mod declaring;
mod rows;
mod storage;
mod table;
mod words;

use std::io;
use std::process::ExitCode;
use table::Table;

fn main(rt: HostRuntime) -> io::Result<ExitCode> {
    let mut table = Table::new(rt.alloc());
    for line in rt.lines(rt.alloc()) {
        let line = line?;
        if let Some(difference) = table.difference_at(line.as_str())? {
            println!(rt; "{difference}")?;
        }
    }
    println!(rt;
        "{} rows, {} answered otherwise",
        table.rows, table.differences
    )?;
    Ok(table.exit_code())
}
