//! The score: syllables with their positions, what was found, and what stopped the reading.
//!
//! ```
//! let text = Text::from_str(alloc, "name:;\n%%\n(c4) Ky(f)ri(gfg)e(x.)")?;
//! let score = score_whole(alloc, &text, InputEnding::Whole, Limits::DEFAULT)?;
//! for syllable in &score.syllables {
//!     for snippet in &syllable.snippets {
//!         let notes = syllable.slice(snippet.span); // "c4", "f", "gfg", ""
//!     }
//! }
//! for finding in &score.findings {
//!     // E1 at 3:20 and at 3:21: "3:20: error: E1: character left out of the notes"
//!     let message = format!(in alloc; "{finding}")?;
//! }
//! ```
#![tactic(auto)]

mod body_stage;
mod body_tells;
mod build_body;
mod collecting;
mod context;
mod emit;
mod first_sound;
mod give;
pub mod kept_laws;
mod machine_laws;
mod part_ends;
mod part_events;
mod part_pushes;
mod preceding;
mod reading_again;
mod regular;
pub mod regular_laws;
mod resumed;
mod run;
mod score_event;
mod score_machine;
mod score_stage;
mod set_place;
mod slot;
mod slot_pair;
mod slot_reports;
mod spelled;
pub mod stage_laws;
mod text_places;
mod waiting;
mod whole;

pub use body_stage::BodyStage;
pub use body_tells::Openers;
pub use gabc_body::{
    Before, BodyEvent, InputEnding, LentSyllable, Position, Score, Snippet, Snippets, Spans,
    Syllable, Syllables, canon_len, canon_lent, canon_starting, canon_syllable, laws, unit_laws,
};
pub use give::{Collect, Give, Run};
pub use score_event::{BorrowedSyllable, ScoreEvent};
pub use score_stage::ScoreStage;
pub use spelled::{SpelledSnippet, SpelledSnippets, SpelledSyllable};
pub use whole::{ScoreRest, score_given, score_whole, score_whole_with_hasher};
