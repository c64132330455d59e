//! Reads a file with the largest limits; `tools/bench` times it.
//!
//! `run_largest gabc FILE` writes its canonical form, `run_largest dump FILE` its dump; the
//! messages go to standard error. `run_largest whole KEY FILE` prints the number of headers, read
//! as a whole, and `run_largest stage KEY FILE` that of those read by a stage. Their names are
//! hashed with a key that is `fixed` or `random`. `run_largest tree FILE` prints the number of
//! nodes of the file's tree, and `run_largest draw FILE` writes its picture as SVG.
#![tactic(auto)]

mod headers;

use crate::headers::{Way, count};
use gabc_draw::{Options, draw};
use gabc_places::{ByteCounter, FromReader, Limits, Room, ToWriter};
use gabc_tree::tree_of;
use gregorio::{Format, Input, Job, Output, Status, compile};
use std::collections::hash_map::RandomState;
use std::hash::{BuildHasher, DefaultHasher};
use std::io::{Read, Write};
use std::{env, fs, io};

/// A task to do with a file.
#[derive(Clone, Copy)]
enum Task {
    Compile(Format),
    Count { way: Way, is_random: bool },
    Tree,
    Draw,
}

/// Returns the largest limits that there are.
fn largest() -> Limits {
    Limits::new(16_777_216, 16_777_216, u32::MAX).unwrap_or(Limits::DEFAULT)
}

/// Returns the task of the arguments before the file, if they name one.
fn task_of(words: &[&str]) -> Option<Task> {
    match words {
        ["gabc"] => Some(Task::Compile(Format::Gabc)),
        ["dump"] => Some(Task::Compile(Format::Dump)),
        ["tree"] => Some(Task::Tree),
        ["draw"] => Some(Task::Draw),
        [way, key] => Some(Task::Count {
            way: match *way {
                "whole" => Way::Whole,
                "stage" => Way::Stage,
                _ => return None,
            },
            is_random: match *key {
                "random" => true,
                "fixed" => false,
                _ => return None,
            },
        }),
        _ => None,
    }
}

/// Compiles the file at `path` in this `format`, and returns the status.
fn run(rt: &HostRuntime, format: Format, path: &str) -> io::Result<Status> {
    let job = Job {
        format,
        input: Input::Stdin,
        output: Output::Stdout,
        messages: None,
        all_warnings: false,
    };
    let file = fs::open(rt, path)?;
    Ok(compile(
        rt.alloc(),
        &job,
        largest(),
        &mut FromReader::new(file),
        &mut ToWriter::new(rt.stdout()),
        &mut ToWriter::new(rt.stderr()),
    ))
}

/// Returns the hasher that begins with the fixed key, or with a random one.
fn hasher_of(rt: &HostRuntime, is_random: bool) -> io::Result<DefaultHasher> {
    if is_random {
        Ok(RandomState::new(rt)?.build_hasher())
    } else {
        Ok(DefaultHasher::new())
    }
}

/// Returns the number of nodes of the tree of the file at `path`.
fn nodes_in(rt: &HostRuntime, path: &str) -> io::Result<usize> {
    let mut bytes = Vec::new(rt.alloc());
    fs::open(rt, path)?.read_to_end(&mut bytes)?;
    let tree = tree_of(rt.alloc(), bytes.as_slice(), largest())?;
    Ok(tree.nodes().len())
}

/// Writes the picture of the file at `path`.
fn write_picture(rt: &HostRuntime, path: &str) -> io::Result<()> {
    let mut bytes = Vec::new(rt.alloc());
    fs::open(rt, path)?.read_to_end(&mut bytes)?;
    let tree = tree_of(rt.alloc(), bytes.as_slice(), largest())?;
    let mut counter = ByteCounter::new();
    let options = Options::usual();
    draw(
        rt.alloc(),
        tree.nodes(),
        bytes.as_slice(),
        options,
        &mut counter,
    )?;
    let mut picture = Room::with_limit(rt.alloc(), counter.count())?;
    draw(
        rt.alloc(),
        tree.nodes(),
        bytes.as_slice(),
        options,
        &mut picture,
    )?;
    rt.stdout().write_all(picture.slice())
}

/// Does the task with the file at `path`.
fn perform(rt: &HostRuntime, task: Task, path: &str) -> io::Result<()> {
    match task {
        Task::Compile(format) => {
            let status = run(rt, format, path)?;
            eprintln!(rt; "status {}", status.code())
        }
        Task::Count { way, is_random } => {
            let hasher = hasher_of(rt, is_random)?;
            let text = fs::read_to_string(rt, path)?;
            match count(rt.alloc(), way, text.as_str(), largest(), hasher)? {
                Some(headers) => println!(rt; "{headers} headers"),
                None => println!(rt; "no headers"),
            }
        }
        Task::Tree => println!(rt; "{} nodes", nodes_in(rt, path)?),
        Task::Draw => write_picture(rt, path),
    }
}

fn main(rt: HostRuntime) -> io::Result<()> {
    let mut words = env::args(&rt)?.skip(1);
    let Some(first) = words.next() else {
        return usage(&rt);
    };
    let Some(second) = words.next() else {
        return usage(&rt);
    };
    let (task, path) = match words.next() {
        Some(third) => (task_of(&[first.as_str(), second.as_str()]), third),
        None => (task_of(&[first.as_str()]), second),
    };
    match task {
        Some(task) => perform(&rt, task, path.as_str()),
        None => usage(&rt),
    }
}

/// Prints the arguments of the program.
fn usage(rt: &HostRuntime) -> io::Result<()> {
    println!(rt;
        "usage: run_largest gabc|dump|tree|draw FILE, or run_largest whole|stage fixed|random FILE"
    )
}
