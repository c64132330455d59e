//! A list of findings.

use crate::code::Finding;
use crate::sequence::Sequence;

/// Findings in the order of their places; at one place errors come before warnings, and of each the
/// lower number first.
pub type Findings = Sequence<Finding>;
