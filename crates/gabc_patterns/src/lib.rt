//! Tables of patterns, and texts that are read by the longest item at each place.
//!
//! The notes of GABC, the descriptors of NABC and the rows of neumes are each a *table*: a list of
//! rows, each a kind and a pattern, that reads like the grammar. A text is read by taking at each
//! place the longest item that begins there. A text with a reading is a *snippet*, and a text with
//! a completion to a snippet is *viable*. Of other texts those characters are *kept* that go on a
//! viable text, and of what is kept the longest prefix that is a snippet.
//!
//! This crate is the theory of that, for any table and any type of kinds. It runs nothing. It has
//!
//! - definitions, in `specs/`: `Pattern` (what a pattern spells), `LongestItems` (tables, the
//!   longest item, readings, snippets), `Kept` (what is kept), `Items` (items by the places where
//!   they begin and end). The same as functions that compute: `Reads` (what a pattern spells, the
//!   longest items of a text, whether they make it up), and by derivatives `Derivative` (whether a
//!   text is a snippet, and viable) and `Function` (items, the kept text);
//! - [`laws`], each the contract of a function that does nothing;
//! - lemmas for the crates above, in `proofs/`. A crate describes its automaton by a record of its
//!   functions and an example text of each state (`AutomatonsByTests`); two tests of each state,
//!   closed by `refl`, show that it reads the table (`TestedAutomatonReads`). Then the state after
//!   a text shows whether the text is viable and whole (`StatesAfterTexts`), and what follows at a
//!   state is what follows after its example (`StatesFollowExamples`). A loop over characters finds
//!   the longest item at a place (`ItemSoFar`, `ItemHere`, by bytes `FirstItemByBytes`) and lists
//!   the items (`ItemList`). For lists that are read by letters of their elements, as notes are,
//!   there are `ItemsByLetters` and `ReadingExists`;
//! - a small table by example, in `proofs/Examples`.
#![tactic(auto)]

pub mod laws;
