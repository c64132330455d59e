//! Reads a score of Gregorian chant in GABC, and writes it in canonical form or as a dump.
//! Re-exports what `gregorio_jobs` has: words, plans, jobs and statuses.
//!
//! Any `Source` and any two `Sink`s serve; `FromReader` and `ToWriter` of `gabc_places` make them
//! of readers and writers:
//!
//! ```
//! let job = Job {
//!     format: Format::Gabc,
//!     input: Input::Stdin,
//!     output: Output::Stdout,
//!     messages: None,
//!     all_warnings: true,
//! };
//! let mut source = FromReader::new(b"%%\nKy(f)ri(g)".as_slice());
//! let mut out = ToWriter::new(Vec::new(alloc));
//! let mut messages = ToWriter::new(Vec::new(alloc));
//! // Status::Whole
//! let status = compile(alloc, &job, Limits::DEFAULT, &mut source, &mut out, &mut messages);
//! let canonical = out.inner().as_slice(); // "%%\nKy(f)ri(g)\n"
//! ```
#![tactic(auto)]

mod comparison;
mod engine;
mod engine_laws;
mod filling;
mod findings;
mod held_headers;
mod in_memory;
pub mod in_pieces;
pub mod interrupted;
mod judging;
pub mod laws;
mod outcome;
pub mod restored_laws;
mod restoring;
mod rooms;
mod run;
mod run_ending;
pub mod run_ends;
mod run_writer;
pub mod saved_alike;
mod saving;
mod score_writer;
mod set_down;
mod source_ending;
mod state_fault;

pub use engine::Engine;
pub use findings::is_shown;
pub use gregorio_jobs::{Format, Input, Job, Name, Output, Plan, Refusal, Status, Words, plan};
pub use gregorio_state::TooShort;
pub use outcome::Outcome;
pub use run::{compile, compile_with_hasher};
pub use source_ending::SourceEnding;
pub use state_fault::StateFault;
