//! The fields of a saved state, and its bytes: written, and read. The crate runs nothing, and does
//! not allocate.
#![tactic(auto)]

mod conditions;
mod fields;
mod put_text;
mod reading;
mod too_short;
mod writing;

pub use fields::{Phase, ScoreFields, StateFields};
pub use put_text::PutText;
pub use reading::read;
pub use too_short::TooShort;
