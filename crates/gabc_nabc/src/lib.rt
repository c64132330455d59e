//! One NABC snippet: which of its characters are kept, and the descriptors and spaces into which
//! the kept text falls.
//!
//! NABC is how the manual writes unheighted neumes (GregorioRef, the NABC reference). The parts are
//! the rows of one table (`specs/Table.antt`), which reads like the grammar. A text is read by
//! taking at each place the longest part that begins there; a text that is read whole is an NABC
//! snippet, and one that a snippet begins with is viable. Going left to right, a character is kept
//! exactly if the kept text with it is viable.
//!
//! - `nabc_whole` reads the snippet with which a text begins: its kept text, its findings and its
//!   end. `kept_chars` gives the characters of that kept text with their places in the source.
//! - `is_nabc` says whether a text is an NABC snippet. `parts_in` goes over its descriptors and
//!   spaces, which `descriptors_whole` and `descriptors_into` gather, and `codes_in` over the codes
//!   of one of them. Spans count its bytes. `name_of` names a code. `regular_nabc` says how far a
//!   text is an NABC snippet in which nothing is left out or found.
//! - `NabcStage` reads the characters of a snippet one at a time. `NabcStage::in_comment` says what
//!   matters of a stage beside the text that it kept (`specs/witness/Keeps.antt`). What becomes of
//!   a character, and what is found with it, is said by what is kept before it in
//!   `specs/KeptNabc.antt`.
//! - `laws` has what follows of the definitions.
//!
//! Texts and places come from `gabc_places`: lines and columns from 1, a column a character. An
//! NABC snippet of a score begins after a `|`.
//!
//! ```
//! let body = "vi pe7)";
//! let read = nabc_whole(alloc, body, Place::START)?;
//! assert_eq!(rt; read.kept.as_str(), "vipe"); // the `7` is left out, with E3 at column 6
//! assert_eq!(rt; read.how, SnippetEnding::Close(6));
//! if is_nabc(&read.kept) {
//!     let parts = descriptors_whole(alloc, &read.kept)?;
//!     // `vi` and `pe`, from byte 2 to byte 4
//!     assert_eq!(rt; parts.as_slice(), [virga, pes].as_slice());
//! }
//! assert_eq!(rt;
//!     codes_in("vipe", pes).next().and_then(|code| code.name()),
//!     Some("pes")
//! );
//! let chars = kept_chars(alloc, body, Place::START)?;
//! assert_eq!(rt; chars.as_slice().last().map(|x| x.place.column), Some(5)); // of `e`
//! ```
#![tactic(auto)]

mod chars;
mod class;
mod code;
mod codes;
mod descriptor;
mod descriptors;
mod kept;
pub mod laws;
mod name;
mod names;
mod regular;
mod stage;
mod state;
mod whole;

pub use chars::kept_chars;
pub use code::GlyphCode;
pub use codes::{CodeReader, codes_in};
pub use descriptor::{Descriptor, Descriptors};
pub use descriptors::{PartReader, descriptors_into, descriptors_whole, parts_in};
pub use kept::is_nabc;
pub use name::name_of;
pub use regular::regular_nabc;
pub use stage::NabcStage;
pub use whole::nabc_whole;
