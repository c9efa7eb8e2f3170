// Whole calls of the program as rows of data: each file that the words name has rows, and a line is printed for each
// row, `ok` or what differed first. docs/rows.md says how rows are written.
#![tactic(auto)]

mod answer;
mod block;
mod bounds;
mod bytes;
mod compare;
mod machine;
mod row;

use row::Row;
use shapes_core::NoMemory;
use std::alloc::Global;
use std::{env, fs, io};

/// Takes a line of a row.
fn take(row: &mut Row, line: &str) -> Result<(), NoMemory> {
    match line.strip_prefix("-- ") {
        Some(order) => row.take_order(order),
        None => row.take_line(line),
    }
}

/// Appends a line on a row, of which these are the lines behind its name.
fn push_row(alloc: Global, report: &mut Vec<u8>, name: &str, lines: &str) -> Result<(), NoMemory> {
    let mut row = Row::new(alloc);
    for line in lines.split("\n") {
        take(&mut row, line)?;
    }
    report.extend_from_slice(name.as_bytes())?;
    report.extend_from_slice(b": ")?;
    match row.end()? {
        Some(said) => report.extend_from_slice(said)?,
        None => report.extend_from_slice(b"ok")?,
    }
    report.push(b'\n')?;
    Ok(())
}

/// What came of the rows of a file. What stands before the first row, a line at least, is a comment.
fn report_on(alloc: Global, text: &str) -> Result<Vec<u8>, NoMemory> {
    let mut report = Vec::new(alloc);
    let whole = text.strip_suffix("\n").unwrap_or(text);
    let mut is_row = false;
    for part in whole.split("\n== ") {
        if let Some((name, lines)) = part.split_once("\n")
            && is_row
        {
            push_row(alloc, &mut report, name, lines)?;
        }
        is_row = true;
    }
    Ok(report)
}

fn main(rt: HostRuntime) -> io::Result<()> {
    for name in env::args(&rt)?.skip(1) {
        let text = fs::read_to_string(&rt, name.as_str())?;
        println!(rt; "{name}")?;
        match report_on(rt.alloc(), text.as_str()) {
            Ok(report) => rt.print(str::from_utf8(&report).unwrap_or("no text"))?,
            Err(NoMemory) => println!(rt; "no memory")?,
        }
    }
    Ok(())
}
