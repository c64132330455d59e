//! Makes each call of the crates that allocates, once for each line of the file `calls.tsv`: a call
//! and its input, split by a tab. Each call is made again with the same arguments until it
//! succeeds: with memory enough that is the first time. It prints the result of each attempt, and
//! digests of the arguments and of the answer. From the line `try` to the next one it allocates in
//! the call alone. `tools/try_memory` runs it with requests for memory refused.
#![tactic(auto)]

mod digest;
mod laws;
mod lists;
mod makers;
mod positions;
mod restored;
mod runs;
mod texts;
mod trial;
mod wholes;

use std::{fs, io};

/// Tries the call with this name, and returns whether there is such a call.
fn is_tried(rt: &HostRuntime, name: &str, input: &str) -> io::Result<bool> {
    Ok(
        texts::is_tried(rt, name, input)?
            || lists::is_tried(rt, name)?
            || makers::is_tried(rt, name)?
            || laws::is_tried(rt, name)?
            || wholes::is_tried(rt, name, input)?
            || runs::is_tried(rt, name, input)?
            || restored::is_tried(rt, name, input)?,
    )
}

/// Tries the call on a line of the file.
fn try_line(rt: &HostRuntime, line: &str) -> io::Result<()> {
    let (name, input) = line.split_once('\t').unwrap_or((line, ""));
    println!(rt; "call {name}")?;
    if !is_tried(rt, name, input)? {
        println!(rt; "no such call")?;
    }
    println!(rt; "end")
}

fn main(rt: HostRuntime) -> io::Result<()> {
    let calls = fs::read_to_string(&rt, "calls.tsv")?;
    for line in calls.as_str().lines() {
        try_line(&rt, line)?;
    }
    Ok(())
}
