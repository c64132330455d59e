//! Makes calls that allocate, each until it succeeds.

use std::alloc::{AllocError, Global};
use std::io;

/// The most attempts at a call: more than its requests for memory.
const ATTEMPTS: u32 = 400;

/// A call that allocates, with its arguments.
pub(crate) trait Trial {
    /// Makes the call, drops its answer, and returns a digest of it. It allocates only within the
    /// call.
    fn call(&mut self, alloc: Global) -> Result<u64, AllocError>;

    /// Returns a digest of the arguments.
    fn arguments(&self) -> u64;
}

/// Makes an attempt, and prints its result and a digest of the arguments, without allocating
/// itself. Returns whether the call succeeded.
fn attempt<T: Trial>(rt: &HostRuntime, trial: &mut T) -> io::Result<bool> {
    println!(rt; "try")?;
    let succeeded = match trial.call(rt.alloc()) {
        Ok(answer) => {
            println!(rt; "answer {answer}")?;
            true
        }
        Err(AllocError) => {
            println!(rt; "no memory")?;
            false
        }
    };
    println!(rt; "arguments {}", trial.arguments())?;
    Ok(succeeded)
}

/// Makes a call with the same arguments until it succeeds, and prints the result of each attempt.
pub(crate) fn try_call<T: Trial>(rt: &HostRuntime, trial: &mut T) -> io::Result<()> {
    println!(rt; "arguments {}", trial.arguments())?;
    for _ in 0..ATTEMPTS {
        if attempt(rt, trial)? {
            return Ok(());
        }
    }
    println!(rt; "never succeeds")
}
