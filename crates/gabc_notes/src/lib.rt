//! The notes of one snippet of GABC: which characters are kept, and the items into which the kept
//! text falls.
//!
//! The items are the rows of one table (`specs/Table.antt`), which reads like the grammar. A text
//! is read by taking at each place the longest item that begins there; a text that is read whole is
//! a snippet, and one that a snippet begins with is viable. Going left to right, a character is
//! kept exactly if the kept text with it is viable.
//!
//! - `snippet_whole` reads the snippet with which a text begins: its kept text, its findings and
//!   its end. `kept_chars` gives the characters of that kept text with their places in the source.
//! - `is_snippet` says whether a text is a snippet. `items_in` goes over the items of a kept text
//!   as far as an item begins, of a snippet to its end; `items_whole` and `items_into` gather them.
//!   `regular_notes` says how far a text is a snippet in which nothing is left out or found.
//!   `note_of` reads an item. `first_note_or_clef` says which of the two comes first. Spans count
//!   bytes of the kept text.
//! - `NoteStage` reads the characters of a snippet one at a time: it emits those that are kept, the
//!   findings, and the end. What it emits is `note_events` of `specs/Events.antt`, a definition
//!   without states: what is emitted of a character depends on it and on the characters before it.
//!   The same is said by what is kept of these: what becomes of a character, and what is found with
//!   it, by `specs/KeptNotes.antt`.
//!   `NoteStage::opener` and `NoteStage::in_comment` report what matters of a stage beside the text
//!   that it kept (`specs/witness/Keeps.antt`).
//! - `laws` has what follows of the definitions.
//!
//! Texts and places come from `gabc_places`: lines and columns from 1, a column a character. A
//! snippet of a score begins after its `(`, or after a `|`.
//!
//! ```
//! let body = "g1hv)";
//! let read = snippet_whole(alloc, body, Place::START, false, 0)?;
//! assert_eq!(rt; read.kept.as_str(), "ghv"); // the `1` is left out, with E1 at column 2
//! assert_eq!(rt; read.how, SnippetEnding::Close(4));
//! if is_snippet(&read.kept) {
//!     let items = items_whole(alloc, &read.kept)?;
//!     // `g` and `hv`, from byte 1 to byte 3
//!     assert_eq!(rt; items.as_slice(), [first, second].as_slice());
//! }
//! assert_eq!(rt;
//!     note_of("ghv", second).map(|note| note.shape),
//!     Some(Shape::Virga)
//! );
//! let chars = kept_chars(alloc, body, Place::START, false, 0)?;
//! assert_eq!(rt; chars.as_slice().last().map(|x| x.place.column), Some(4)); // of `v`
//! ```
//!
//! The rules are those of GregorioRef, "Notation — Note Syntax".
//!
//! The machine of `state.rt` is proved to read the table (`proofs/machine/MachineReadsTable.antt`):
//! each state stands for a text that ends in it, and what may follow that text in the table is
//! compared with the machine's next state, for each character below 128. What the stage holds is
//! proved to be what the definition says of the characters so far
//! (`proofs/machine/StageEmitsItsEvents.antt`).
#![tactic(auto)]

mod chars;
mod class;
mod item;
mod items;
mod kept;
pub mod laws;
mod macro_prefix;
mod note;
mod regular;
mod snippet_read;
mod stage;
mod state;
mod whole;

pub use chars::{kept_chars, kept_chars_by};
pub use item::{Item, ItemKind, Items};
pub use items::{ItemReader, first_note_or_clef, items_in, items_into, items_whole};
pub use kept::is_snippet;
pub use note::{Note, Shape, height_of, note_of};
pub use regular::regular_notes;
pub use snippet_read::{SnippetEnding, SnippetRead};
pub use stage::{NoteEnd, NoteEvent, NoteOut, NoteStage};
pub use whole::snippet_whole;
