//! The text of a picture: the SVG of a display list of `gabc_marks`.
//!
//! The text is that of an XML tree (`specs/Xml`), the one that `specs/Page` defines. So each text
//! of a score is in it as escaped character data, and nothing in a score can leave its place
//! ([`laws`]).
#![tactic(auto)]

mod escape;
pub mod laws;
mod outline_names;
mod page;
mod signs;
mod tag;
mod texts;
mod xml;

pub use page::put_picture;
pub use tag::{Name, Tag};
