//! Draws a score: from the nodes of its tree (`gabc_nodes`) to the display list of a picture
//! (`gabc_marks`), and to its text (`gabc_svg`).
//!
//! The nodes of the tree are read once, in order ([`draw`]): each note gets a head at the height of
//! its pitch, and each syllable a part, at the desk (`desk`), by the pen of `gabc_pen`, with its
//! text of `gabc_lettering`. Then the parts are broken into rows (`breaks`), in which they stand
//! beside each other (`rows`).
#![tactic(auto)]

mod assemble;
mod attributes;
mod breaks;
mod cursor;
mod desk;
mod drawing;
mod group;
mod marks;
mod measures;
mod pitches;
mod rows;
mod setting;
mod sheet;
mod syllable_text;

pub use drawing::{Options, draw, picture_of};
pub use gabc_lettering::Mark;
