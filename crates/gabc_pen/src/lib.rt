//! Draws one syllable: turns nodes of a tree (`gabc_nodes`) into heads and signs (`gabc_marks`).
//!
//! A pen writes neumes (`pen`, `neume`), by the joints of their notes (`plan`) and by the outline
//! that shows them (`outline`), with the signs around them (`rhythm`, `episemata`, `staff`,
//! `curves`). NABC over them is read (`nabc`) as descriptors (`descriptor`), each a cluster of
//! outlines (`cluster`).
#![tactic(auto)]

mod cluster;
mod curves;
mod descriptor;
mod episemata;
mod heads;
mod nabc;
mod nabc_rows;
mod neume;
mod note;
mod outline;
mod pen;
mod plan;
mod reading;
mod rhythm;
mod staff;

pub use curves::{Curve, CurveKind, CurveRole, Curves};
pub use episemata::{SnippetNote, put_signs};
pub use nabc::{Hands, Nabc, hands_of};
pub use nabc_rows::{NabcRows, PerLine, Reach, add_reach, join_rows, line_over};
pub use neume::write_neume;
pub use note::{Covers, EpisemaSize, Liquescence, Note, Shape, Side};
pub use pen::{Drawn, PUNCTUM, Pen};
pub use plan::{GlyphKind, Joint, Planned, plan_notes};
pub use reading::{distance_of, thousandths_of};
pub use rhythm::{height_of_step, put_around};
pub use staff::{Clef, OneClef, custos, put_alteration, put_bar};
