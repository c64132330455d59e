//! The neumes of a snippet of notes: the elements and segments into which its items fall, and the
//! glyphs into which the notes of a segment are cut; and how each note of a score sounds. No call
//! allocates.
//!
//! - Dividers are blanks, `/`, `//`, `/[..]`, bars, clefs, custodes and breaks; `!`, `/0` and `/!`
//!   are none. `elements` adds the elements of a snippet: as many items in a row as have no divider
//!   among them.
//! - `segments` adds the segments: as many notes, attributes and fusion marks in a row as there
//!   are. Each lies in one element. `is_in_element` and `is_in_segment` say so of one item.
//! - `kind_of` says which neume some notes are, if they are one. The neumes are the rows of one
//!   table (`specs/Table.antt`), which reads like the printed one. `cut` adds the glyphs of a
//!   segment: each is the longest neume that begins where the one before it ends. `glyph_from`
//!   finds the one that begins with a note, and reads the items after that note only as far as it
//!   has to.
//! - A `GlyphKind` is printed as its word, such as `pes-subpunctis-resupinus`: those of its base
//!   and its tail (`word_of_base`, `word_of_tail`). `word_of_shape` is the word of one note's
//!   shape.
//! - `Alterations` follows a score, whose words and items it passes one by one. It reports the clef
//!   in force, and how a note sounds: its degree, as `degree` gives it, and what alters it. What is
//!   in force is defined by what comes first on the way back from the note (`specs/InForce.antt`).
//!   `sign_of` reads an alteration; an `Alter` is printed as its word (`word_of_alter`).
//! - `laws` has what follows of the definitions.
//!
//! Spans count items from 0, and glyphs count notes from 0. No call allocates.
//!
//! ```
//! let items = items_whole(alloc, kept)?; // of `hG/fgf!g`
//! elements(kept, items.as_slice(), &mut spans);
//! assert_eq!(rt; spans.slice(), [first, second].as_slice()); // items 0 to 2, and 3 to 8
//! let part = items.as_slice().get(3..6).ok_or("no such items")?;
//! for item in part {
//!     if let Some(note) = note_of(kept, *item) {
//!         notes.push(note)?;
//!     }
//! }
//! cut(notes.as_slice(), &mut glyphs);
//! assert_eq!(rt; glyphs.slice(), [glyph].as_slice()); // a torculus: 3 notes from note 0 on
//! ```
//!
//! The rules are those of GregorioRef, "Complex Neumes" and "Neume Spacing"; the kinds are those of
//! `docs/LANGUAGE.md`.
//!
//! Notes are read as letters (`specs/Letters.antt`), one for each: by the shape of the first, and
//! of another by whether it is joinable and whether it is higher or lower than the note before it.
//! The machine of `state.rt` is proved to read the table
//! (`proofs/glyphs_of_notes/MachineReadsNeumes.antt`): each state stands for letters that end in
//! it, and what may follow these in the table is compared with the machine's next state, for each
//! letter.
#![tactic(auto)]

mod alterations;
mod glyph;
mod glyphs;
mod kind;
pub mod laws;
mod runs;
mod sound;
mod state;
mod words;

pub use alterations::{Alterations, sign_of};
pub use glyph::{Base, Glyph, GlyphKind, Tail};
pub use glyphs::{cut, glyph_from};
pub use kind::kind_of;
pub use runs::{elements, is_in_element, is_in_segment, segments};
pub use sound::{Alter, Clef, Sound, degree};
pub use words::{word_of_alter, word_of_base, word_of_shape, word_of_tail};
