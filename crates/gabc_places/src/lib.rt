//! The base of a reader of Gregorian chant: bytes as text with places, findings and faults, where
//! bytes come from and go to, and machines that take one input at a time.
//!
//! An input's bytes are read as a text, up to the first byte that is no UTF-8:
//!
//! ```
//! let decoded = text_of(alloc, b"%%\r\nKy(f)\xFF", true, Limits::DEFAULT)?;
//! let text = decoded.text.as_str(); // "%%\nKy(f)"
//! let fault = decoded.fault.ok_or("a fault")?;
//! let message = format!(in alloc; "{fault}")?; // "2:6: fatal: F1: not UTF-8"
//! ```
#![tactic(auto)]

mod bytes;
mod chain;
mod code;
mod codes;
mod collect;
mod decode;
mod decoded;
mod decoder;
mod filler;
mod findings;
mod ghost_calls;
pub mod laws;
mod limits;
mod memory;
mod message;
mod place;
mod put;
mod room;
mod sequence;
mod severity;
mod sink;
mod source;
mod stage;
mod text;
mod trial;

pub use bytes::place_of_byte;
pub use chain::Chain;
pub use code::{Code, Fault, Finding};
pub use codes::CODES;
pub use collect::outputs_of;
pub use decode::{text_of, valid_front};
pub use decoded::Decoded;
pub use decoder::Decoder;
pub use filler::BufferFiller;
pub use findings::Findings;
pub use ghost_calls::GhostCalls;
pub use limits::Limits;
pub use memory::{Memory, Shared};
pub use place::{Char, Place, Span};
pub use put::{ByteCounter, Put};
pub use room::Room;
pub use sequence::Sequence;
pub use severity::Severity;
pub use sink::{Sink, SinkFault, ToWriter, Unsent, send_all};
pub use source::{FromReader, Source, SourceFault};
pub use stage::{Stage, drive};
pub use text::Text;
pub use trial::{TrialSink, TrialSource};
