//! Writes the texts of a picture: from the nodes of a tree (`gabc_nodes`) to words (`gabc_marks`).
//!
//! The text of a syllable is read node by node ([`Lettering`]), and put so that its vowel
//! (`language`) is under the first note. The values of headers are runs of letters in one style
//! (`runs`), of which the title and the initial are made. The codes of messages are over the rows.
#![tactic(auto)]

mod first_letter;
mod initial;
mod language;
mod lettering;
mod marks;
mod runs;
mod syllable_text;
mod title;

pub use first_letter::take_letter;
pub use initial::{Initial, initial_rows};
pub use language::Language;
pub use lettering::{ABOVE_SIZE, Lettering, TEXT_SIZE};
pub use marks::{CodeRows, Mark, Marks, put_mark_lines};
pub use runs::WordLine;
pub use syllable_text::{TextPlace, TextReach};
pub use title::{header, put_title};
