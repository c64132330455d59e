//! Reads the arguments of a command line, and says what they ask for: a run's job, the help line,
//! or a refusal. Has the statuses with which a run ends.
#![tactic(auto)]

mod arguments;
mod job;
mod name;
mod refusal;
mod wanted;
mod words;

pub use job::{Format, Input, Job, Output, Plan, Status};
pub use name::Name;
pub use refusal::Refusal;
pub use wanted::plan;
pub use words::Words;
