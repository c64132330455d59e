//! The tree of a score: all that was read of it, with its bytes.
//!
//! [`tree_of`] reads a score in memory and returns its nodes in the order of the input, each before
//! those that lie in it. A byte belongs to the innermost node that holds it: the spelling of a note
//! is its own bytes, and the input is written again from the ranges of the nodes. What is not kept
//! (comments, what is left out, further blanks) is a node too.
//!
//! ```
//! let tree = tree_of(alloc, b"%%\n(c4) Ky(f)ri(gh)", Limits::default())?;
//! for node in tree.nodes() {
//!     if node.kind == Kind::Note {
//!         let spelled = &bytes[node.begin as usize..node.end as usize];
//!     }
//! }
//! ```
//!
//! The nodes are made in three steps. While the score is read, a taker (`taking`) has the makers of
//! nodes (`text_nodes`, `note_nodes`, `nabc_nodes`) make those of each syllable. They and
//! `header_lines` count the bytes of a kept text alone, so that none of them knows of comments or
//! places. What is not kept is found by going over the input and the kept texts together
//! (`not_kept`). Then the nodes are moved to their places in the input (`placing`).
#![tactic(auto)]

mod body_nodes;
mod code_number;
mod header_lines;
mod header_nodes;
mod holding;
mod joining;
mod nabc_nodes;
pub mod nested_laws;
mod not_kept;
mod note_nodes;
mod numbers;
pub mod place_laws;
mod place_reader;
mod placing;
pub mod reading_laws;
mod signs;
mod syllable_nodes;
mod taking;
mod text_nodes;
mod tree;

pub use code_number::number_of_code;
pub use gabc_nodes::{Kind, Node};
pub use place_reader::PlaceReader;
pub use tree::{ScoreRead, Tree, read_score, tree_of, tree_of_with_hasher};
