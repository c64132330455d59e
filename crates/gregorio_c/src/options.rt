//! The options of a run in pieces.

ghost use Rattle.std.specs.Prelude.{◌≡◌, None, IfSome};
ghost use Rattle.gabc_places.specs.declared.limits.Limits.{Limits as RunLimits};
ghost use Rattle.gregorio_c.specs.Asked.{AreLimitsOf, AsksFor, AsksForNothing};

use crate::engines::hasher_of;
use crate::request::{Request, request_of};
use gabc_places::Limits;
use std::hash::DefaultHasher;

/// Limits other than the default ones, in bytes, and a key for the table in which the names of
/// headers are found.
#[repr(C)]
#[derive(Clone, Copy, Debug)]
pub struct Options {
    /// The most bytes of the headers: 64 to 16,777,216.
    pub header: u32,
    /// The most bytes of a syllable: 64 to 16,777,216.
    pub syllable: u32,
    /// The most bytes of the input: at least 64.
    pub input: u32,
    /// Reserved: 0.
    pub reserved: u32,
    /// The words of the key: two random ones if strangers write the scores. No answer depends on
    /// them.
    pub key: [u64; 2],
}

/// The request of a step, and its limits.
#[derive(Clone, Copy)]
pub(crate) struct Asked {
    pub request: Request,
    pub limits: Limits,
}

/// Returns the limits of `options`: the default ones if there are none. It returns `None` if there
/// are more than one, or if numbers are out of range.
pub(crate) fn limits_of(options: &[Options]) -> Option<Limits>
    ensures limits { IfSome result (λ limits. AreLimitsOf options.now limits) }
    ensures none { result ≡ None → (limits : RunLimits) → AreLimitsOf options.now limits → ⊥ }
{
    match options {
        [] => Some(Limits::default()),
        [one] if one.reserved == 0 => Limits::new(one.header, one.syllable, one.input),
        _ => None,
    }
}

/// Returns the request of `format` and `flags` with the limits of `options`, if all numbers are
/// known and in range.
pub(crate) fn asked_of(format: u32, flags: u32, options: &[Options]) -> Option<Asked>
    ensures asked { IfSome result (λ asked.
        AsksFor format flags options.now asked.request asked.limits) }
    ensures none { result ≡ None → AsksForNothing format flags options.now }
{
    let request = request_of(format, flags)?;
    let limits = limits_of(options)?;
    Some(Asked { request, limits })
}

/// Returns a hasher that has taken the words of the key of `options`, if there is one.
pub(crate) fn hasher_by(options: &[Options]) -> DefaultHasher {
    match options {
        [one] => hasher_of(&one.key),
        _ => hasher_of(&[]),
    }
}
