//! The nodes of a tree, which `gabc_tree` makes of a score, and which the crates that draw read.
//!
//! A [`Node`] has its bytes, a [`Kind`], and three numbers whose meaning depends on the kind.
#![tactic(auto)]

mod kind;
mod node;

pub use kind::Kind;
pub use node::Node;
