//! The content of a picture of a score: a display list between the layout, which makes it
//! (`gabc_draw`), and the text of the picture, which is written from it (`gabc_svg`).
//!
//! A [`Picture`] has rows, each with a staff, and parts of syllables, one after the other in the
//! rows. A part has the heads of its notes and its signs. Heights are relative to the lowest line
//! of the staff and go down; all distances are whole numbers ([`Distance`]).
#![tactic(auto)]

mod distance;
mod extent;
mod hand;
mod head;
mod joined;
mod laon;
mod outlines;
mod picture;
mod sign;
pub mod spaces;
mod st_gall;
mod styles;
mod symbol;
mod width_table;
mod widths;
mod words;

pub use distance::Distance;
pub use extent::Extent;
pub use hand::{Hand, NabcOutline};
pub use head::{Head, Metrics, NoteHead, Single, height_of};
pub use joined::{Ending, Family, Joined};
pub use picture::{Levels, Part, Picture, Row};
pub use sign::{Bow, Sign};
pub use styles::Styles;
pub use symbol::Symbol;
pub use widths::{char_width, styled_width, text_width};
pub use words::{Level, NabcLine, Words, text_between};
