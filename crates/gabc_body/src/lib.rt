//! What a body says: its syllables, the canonical text of each, and the laws of that.
//!
//! The definitions say what is emitted of the characters of a body, which syllables that makes,
//! what is found and where the reading stops (`Body`, `Events`, `Syllable`, `Score`), and the same
//! by units, each a text with its notes (`Units`, `SyllablesOfUnits`). [`laws`] and [`unit_laws`]
//! bind them. What reads a body is in `gabc_score`.
//!
//! ```
//! let mut syllables = Syllables::new(alloc);
//! syllables.push(syllable.copy(memory)?)?;
//! for syllable in &syllables {
//!     let len = canon_len(syllable);
//! }
//! ```
#![tactic(auto)]

mod before;
mod body_result;
pub mod by_kept_laws;
mod canonical;
mod ending;
mod events;
mod kept_text;
pub mod laws;
mod score;
mod slice;
mod snippets;
mod syllable;
mod syllables;
pub mod unit_laws;

pub use before::{Before, Spans};
pub use body_result::BodyResult;
pub use canonical::{canon_len, canon_lent, canon_starting, canon_syllable, canonical_len};
pub use ending::InputEnding;
pub use events::BodyEvent;
pub use kept_text::LentSyllable;
pub use score::Score;
pub use slice::text_in;
pub use snippets::{Snippet, Snippets};
pub use syllable::{Position, Syllable};
pub use syllables::{Syllables, position_by};
