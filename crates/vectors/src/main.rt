//! Runs the chant reader on rows of inputs and on scores, each with the output and the messages
//! that it must give; the rows also have the status. Makes each run from a source, and again in
//! pieces of several lengths, by one engine that begins again in mid-input and after its end. The
//! expected texts were computed or written apart from this project, but for the dumps of the
//! scores: the program wrote these, and they were read by hand. Prints the rows and scores that
//! differ, and how many agree. The tests of the library in C read these tables too, and make runs
//! that are saved and restored.
#![tactic(auto)]

mod ends;
mod known;
mod pieces;
mod prefixes;
mod row;
mod run;
mod steps;
mod wholes;

use ends::fills_sinks;
use gabc_places::Limits;
use gregorio::{Format, laws};
use known::{Known, Wanted, known_of};
use pieces::agrees_in_pieces;
use prefixes::has_prefixes_alike;
use row::row_of;
use run::{Request, run};
use std::alloc::{AllocError, Global};
use std::{fs, io};
use steps::has_steps;

/// The example scores: each is a file `NAME.gabc`, with its canonical form, its dump and the
/// messages under `-W` beside it.
const SCORES: [&str; 10] = [
    "antiphon",
    "ave-maria",
    "every-finding",
    "every-item",
    "hymn",
    "hymn-verses",
    "introit",
    "kyrie",
    "psalm-tone",
    "two-lines",
];

/// Returns whether the run has the output, the messages and the status that are known of it.
fn agrees(alloc: Global, known: Known) -> bool {
    let ran = run(alloc, known.asked);
    ran.output.inner().as_slice() == known.wanted.output
        && ran.messages.inner().as_slice() == known.wanted.messages
        && ran.status == known.status
}

/// Returns whether the run of a row agrees with it, whole and in pieces.
fn row_agrees(alloc: Global, line: &str) -> Result<bool, AllocError> {
    let Some(row) = row_of(alloc, line)? else {
        return Ok(false);
    };
    match known_of(&row) {
        Some(known) => Ok(agrees(alloc, known) && agrees_in_pieces(alloc, known)),
        None => Ok(false),
    }
}

/// Returns whether the run of a row stops when a sink fails, with the bytes that it holds.
fn row_fills_sinks(alloc: Global, line: &str) -> Result<bool, AllocError> {
    let Some(row) = row_of(alloc, line)? else {
        return Ok(false);
    };
    match known_of(&row) {
        Some(known) => fills_sinks(alloc, known),
        None => Ok(false),
    }
}

/// Returns the text of the file `NAME.ENDING`.
fn read_file(rt: &HostRuntime, name: &str, ending: &str) -> io::Result<String> {
    let path = format!(in rt.alloc(); "{name}.{ending}")?;
    fs::read_to_string(rt, path.as_str())
}

/// Returns the exit status of a run with these `messages`.
fn status_of(messages: &str) -> u8 {
    if messages.contains(": fatal: ") {
        2
    } else if messages.contains(": error: ") {
        1
    } else {
        0
    }
}

/// Returns whether a run over `score` has this `output` in this `format`, and these `messages`,
/// whole and in pieces.
fn has_output(alloc: Global, format: Format, score: &str, output: &str, messages: &str) -> bool {
    let wanted = Wanted {
        output: output.as_bytes(),
        messages: messages.as_bytes(),
    };
    let asked = Request {
        format,
        bytes: score.as_bytes(),
        broken: false,
        limits: Limits::DEFAULT,
        all_warnings: true,
    };
    let known = Known {
        asked,
        wanted,
        status: status_of(messages),
    };
    agrees(alloc, known) && agrees_in_pieces(alloc, known)
}

/// Returns whether runs over the score with this `name` write its canonical form, its dump and its
/// messages.
fn is_written(rt: &HostRuntime, name: &str) -> io::Result<bool> {
    let score = read_file(rt, name, "gabc")?;
    let canonical = read_file(rt, name, "canonical")?;
    let dump = read_file(rt, name, "dump")?;
    let messages = read_file(rt, name, "messages")?;
    let (score, messages, alloc) = (score.as_str(), messages.as_str(), rt.alloc());
    Ok(
        has_output(alloc, Format::Gabc, score, canonical.as_str(), messages)
            && has_output(alloc, Format::Dump, score, dump.as_str(), messages),
    )
}

/// Runs the example scores, prints those that differ, and how many agree.
fn check_scores(rt: &HostRuntime) -> io::Result<()> {
    let mut agreed = 0u32;
    for name in SCORES {
        if is_written(rt, name)? {
            agreed = agreed.saturating_add(1);
        } else {
            println!(rt; "{name}.gabc differs")?;
        }
    }
    println!(rt; "scores: {agreed} of {} agree", SCORES.len())
}

/// The meaning of the lines of a file.
#[derive(Clone, Copy)]
enum Lines {
    /// Runs, with what each has to write.
    Runs,
    /// Runs into sinks that fail.
    Sinks,
    /// Runs over each prefix of an input, in pieces and by the whole forms.
    Prefixes,
    /// Runs, with the bytes that make known what each writes.
    Steps,
}

impl Lines {
    /// Returns the name of what is counted.
    fn name(self) -> &'static str {
        match self {
            Lines::Runs => "runs",
            Lines::Sinks => "runs into sinks that fail",
            Lines::Prefixes => "inputs with their prefixes",
            Lines::Steps => "runs by their steps",
        }
    }

    /// Returns whether the run on this `line` of a file is as the line says. Prints its `number` if
    /// it is not.
    fn agree(self, rt: &HostRuntime, path: &str, number: usize, line: &str) -> io::Result<bool> {
        let alloc = rt.alloc();
        let agrees = match self {
            Lines::Runs => row_agrees(alloc, line)?,
            Lines::Sinks => row_fills_sinks(alloc, line)?,
            Lines::Prefixes => has_prefixes_alike(alloc, line)?,
            Lines::Steps => has_steps(alloc, line)?,
        };
        if !agrees {
            println!(rt; "{path}: line {number} differs")?;
        }
        Ok(agrees)
    }
}

/// The files of lines.
const FILES: [(&str, Lines); 11] = [
    ("rows.tsv", Lines::Runs),
    ("canonical.tsv", Lines::Runs),
    ("canonical_w12.tsv", Lines::Runs),
    ("dump.tsv", Lines::Runs),
    ("dump2.tsv", Lines::Runs),
    ("nabc_lines.tsv", Lines::Runs),
    ("sources.tsv", Lines::Runs),
    ("sinks.tsv", Lines::Sinks),
    ("sinks.tsv", Lines::Prefixes),
    ("steps.tsv", Lines::Runs),
    ("steps.tsv", Lines::Steps),
];

/// Looks at the lines of a file after the first one, which is its head, but for those that begin
/// with `#`, and prints how many agree.
fn check_file(rt: &HostRuntime, path: &str, lines: Lines) -> io::Result<()> {
    let text = fs::read_to_string(rt, path)?;
    let mut count = 0u32;
    let mut agreed = 0u32;
    for (number, line) in text.as_str().lines().enumerate() {
        if number == 0 || line.starts_with("#") {
            continue;
        }
        count = count.saturating_add(1);
        if lines.agree(rt, path, number.saturating_add(1), line)? {
            agreed = agreed.saturating_add(1);
        }
    }
    println!(rt; "{path}: {agreed} of {count} {} agree", lines.name())
}

/// Calls the laws of runs.
fn call_laws() {
    laws::canonical_again();
    laws::a_run_over_an_output_repeats_it();
    laws::a_stopped_run_writes_what_its_prefix_writes();
}

fn main(rt: HostRuntime) -> io::Result<()> {
    call_laws();
    for (path, lines) in FILES {
        check_file(&rt, path, lines)?;
    }
    check_scores(&rt)
}
