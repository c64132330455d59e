//! The headers of a chant score: names and values before the line `%%`.
//!
//! `gabc_places::text_of` gives the text, `Limits::DEFAULT` the usual limits:
//!
//! ```
//! let text = Text::from_str(alloc, "name: Kyrie;\nmode: 1;\nmode: 8;\n%%\n")?;
//! if let Ok(heads) = headers_whole(alloc, &text, Limits::DEFAULT)? {
//!     let mode = heads.book.get("mode"); // Some("8")
//!     for (name, value) in &heads.book { .. } // "name" and "Kyrie", "mode" and "8"
//!     for finding in &heads.findings {
//!         let message = format!(in alloc; "{finding}")?; // "3:1: warning: W2: header given again"
//!     }
//! }
//! ```
#![tactic(auto)]

mod book;
mod canonical;
mod characters;
mod collected;
mod entry_map;
mod event_list;
mod events;
mod head_event;
mod header_machine;
mod header_stage;
mod headers;
mod heads;
pub mod laws;
mod nabc_lines;
mod name_hashers;
mod part_machine;
mod score_line;
pub mod stage_laws;
mod whole;

pub use book::HeaderBook;
pub use canonical::{canon_header, wants_own_lines};
pub use head_event::{HeadEvent, HeadOut};
pub use header_stage::HeaderStage;
pub use headers::Headers;
pub use heads::{HeadFault, Heads};
pub use nabc_lines::NABC_LINES;
pub use whole::{headers_whole, headers_whole_with_hasher};
