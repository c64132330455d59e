//! Tests that no row can make, of stages, sources and sinks that another crate makes: ends that
//! count their calls, take little or fail, and the order in which a run calls its ends. Rows of
//! calls are the data of the program `call_rows`, rows of runs those of `vectors`.
//!
//! They are in a crate of their own, since a crate with tests is proved twice.
#![tactic(auto)]

#[cfg(test)]
mod chain;
#[cfg(test)]
mod order;
#[cfg(test)]
mod run;
#[cfg(test)]
mod sink;
#[cfg(test)]
mod source;
#[cfg(test)]
mod trial;
