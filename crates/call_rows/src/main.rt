//! Makes the calls of the crates below `gregorio` by rows of a call, its input and its answer,
//! which were worked by hand, and calls laws. Prints the rows that differ, and the number of those
//! that agree.
#![tactic(auto)]

mod body;
mod books;
mod call;
mod codes;
mod columns;
mod driven;
mod fields;
mod headers;
mod jobs;
mod laws;
mod nabc;
mod neumes;
mod notes;
mod places;
mod printed;
mod restored;
mod rooms;
mod scores;
mod show;
mod table;
mod texts;
mod writes;

use call::is_answered;
use printed::Printed;
use std::{fs, io};
use table::Table;

/// The files of rows.
const FILES: [(&str, Table); 11] = [
    ("places.tsv", Table::Places),
    ("headers.tsv", Table::Headers),
    ("texts.tsv", Table::Texts),
    ("notes.tsv", Table::Notes),
    ("neumes.tsv", Table::Neumes),
    ("nabc.tsv", Table::Nabc),
    ("scores.tsv", Table::Scores),
    ("body.tsv", Table::Body),
    ("writes.tsv", Table::Writes),
    ("jobs.tsv", Table::Jobs),
    ("fields.tsv", Table::Fields),
];

/// Returns whether the row on this line of a file agrees. Prints its answer if it does not.
fn agrees(
    rt: &HostRuntime,
    path: &str,
    table: Table,
    number: usize,
    line: &str,
) -> io::Result<bool> {
    let mut printed = Printed::new(rt.alloc());
    let agrees = is_answered(rt.alloc(), table, line, &mut printed)?;
    if !agrees {
        println!(rt;
            "{path}: line {number} differs, and has: {}",
            printed.text()
        )?;
    }
    Ok(agrees)
}

/// Looks at the rows of a file after its first line, which is its head, but for those that begin
/// with `#`. Prints how many agree.
fn check_file(rt: &HostRuntime, path: &str, table: Table) -> io::Result<()> {
    let text = fs::read_to_string(rt, path)?;
    let mut count = 0u32;
    let mut agreed = 0u32;
    for (number, line) in text.as_str().lines().enumerate() {
        if line.starts_with("#") {
            continue;
        }
        count = count.saturating_add(1);
        if agrees(rt, path, table, number.saturating_add(1), line)? {
            agreed = agreed.saturating_add(1);
        }
    }
    println!(rt; "{path}: {agreed} of {count} calls agree")
}

fn main(rt: HostRuntime) -> io::Result<()> {
    for (path, table) in FILES {
        check_file(&rt, path, table)?;
    }
    laws::call_laws(&rt)
}
