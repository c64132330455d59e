//! The ways in which a run can end. The contract of the function is a law.

ghost use Rattle.std.specs.Prelude.{◌≡◌, List, ℕ, true};
ghost use Rattle.gregorio.specs.declared.source_ending.SourceEnding.{SourceEnding};
ghost use Rattle.gregorio.specs.Engine.{EndsByInput, is_running};
ghost use Rattle.gregorio.specs.witness.Engine.{EngineState, streams_left};

/// Law: a run that goes on ends by its input, whatever follows and however that ends: it was read
/// to its end, a fault stopped it, or its source failed.
pub fn a_run_ends_by_its_input()
    ensures { (e : EngineState) → is_running e ≡ true → (ending : SourceEnding) (bytes : List ℕ) →
        EndsByInput (streams_left e ending bytes).status }
{}
