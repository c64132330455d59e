//! What a run writes: canonical GABC, the lines of a dump, and message lines. Each call puts its
//! text into a room that the caller made, or into a counter. No call asks for memory.
//!
//! The caller makes room for what the calls of lengths return:
//!
//! ```
//! let place = Place { line: 2, column: 6 };
//! let mut line = Room::with_limit(alloc, message_len("a.gabc", place, Code::F1))?;
//! message_line("a.gabc", place, Code::F1, &mut line);
//! let bytes = line.slice(); // "a.gabc:2:6: fatal: F1: not UTF-8\n"
//! ```
#![tactic(auto)]

mod dump;
mod dump_item;
pub mod dump_laws;
mod dump_nabc;
mod dump_notes;
mod dump_pitch;
mod dump_slices;
mod dump_syllables;
mod escape;
pub mod laws;
mod message;
pub mod saved_alike;
pub mod set_down;

pub use dump::{dump_end, dump_header};
pub use dump_slices::dump_spelled;
pub use dump_syllables::{dump_len, dump_syllable};
pub use gabc_headers::canon_header;
pub use gabc_score::{canon_len, canon_lent, canon_syllable};
pub use message::{message_len, message_line};
