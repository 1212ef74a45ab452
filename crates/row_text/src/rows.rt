//! The loop over rows.
use crate::Failure;
use std::alloc::Global;
use std::io::{BufRead, BufReader};
use std::process::ExitCode;

/// What a program makes of its rows.
pub trait Rows {
    /// What is printed below a row: lines, each with its line feed.
    fn shown(&self, alloc: Global, row: &str) -> Result<String, Failure>;
}

/// Prints each line of standard input, and below each row what came of it. The first failure ends it: it is told on
/// standard error, behind the program's name, and gives the status.
pub fn show_rows<T: Rows>(rt: &HostRuntime, program: &str, rows: &T) -> ExitCode {
    match show_all(rt, rows) {
        Ok(()) => ExitCode::SUCCESS,
        Err(failure) => {
            let text = failure.text();
            let _told = eprintln!(rt; "{program}: {text}");
            ExitCode::from(failure.status())
        }
    }
}

fn show_all<T: Rows>(rt: &HostRuntime, rows: &T) -> Result<(), Failure> {
    for line in BufReader::new(rt.alloc(), rt.reader())?.lines(rt.alloc()) {
        let line = line?;
        println!(rt; "{line}")?;
        if is_row(line.as_str()) {
            let text = rows.shown(rt.alloc(), line.as_str())?;
            print!(rt; "{text}")?;
        }
    }
    Ok(())
}

fn is_row(line: &str) -> bool {
    !line.is_empty() && !line.starts_with('#')
}
