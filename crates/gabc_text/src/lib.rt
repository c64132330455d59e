//! The text of a syllable: its pieces with their styles, its centre and its translation.
//!
//! The place of a byte of the kept text is found among the characters that were kept:
//!
//! ```
//! let body = "<i>a) b</i>(f)";
//! let read = text_whole(alloc, body, Place::START)?; // read.kept is "<i>a b</i>"
//! let kept = kept_chars(alloc, body, Place::START)?;
//! for piece in &read.view.pieces {
//!     let place = place_of_byte(kept.as_slice(), piece.span.from); // of `b`: 1:7
//! }
//! let len = text_len(&read.view, read.kept.as_str()); // 10, the bytes that `write_text` puts
//! ```
#![tactic(auto)]

mod canonical;
mod emit;
mod kept;
pub mod laws;
mod progress;
mod regular;
mod regular_runs;
mod span_mark;
mod stage;
mod stage_tells;
mod styles;
mod tag_name;
mod tags;
mod text_event;
mod text_facts;
mod token;
mod token_reader;
mod token_state;
mod view;
mod whole;

pub use canonical::{text_len, text_span, write_text};
pub use kept::kept_chars;
pub use regular::{regular_text, translation_from};
pub use span_mark::{SpanMark, mark_at};
pub use stage::TextStage;
pub use styles::{Style, Styles};
pub use text_event::{TextEnd, TextEvent, TextOut, TextPart};
pub use token::{RawKind, TagEffect, TokenKind};
pub use token_reader::{TextToken, TokenReader, tokens_in};
pub use view::{Piece, PieceKind, Pieces, TextEnding, TextView};
pub use whole::{TextRead, text_whole};
