//! Machines that take one input at a time.

ghost use Rattle.std.specs.Prelude.{◌≡◌, ℕ, ◌+◌, ◌*◌, ◌≤◌, List, length, Bool};
ghost use Rattle.gabc_places.specs.BoundedList.{Fits, extended_by};
ghost use Rattle.gabc_places.specs.StageLaw.{concat_of, Pushes, Finishes, EmitsNothing, StopsAtEnd};

use crate::Room;

/// A machine that takes inputs one at a time, and emits at most a fixed number of events for each
/// and for the end.
pub trait Stage {
    /// The type of its inputs.
    type Input;

    /// The type of its events.
    type Output: Copy;

    // what it will still emit for these inputs and then the end: a list for each of them, and one
    // for the end
    ghost rest: { Self → List Self.Input → List (List Self.Output) };

    // how many events one call emits at most
    ghost most_of: { Self → ℕ };

    // the events that end it: after one of them it emits nothing more
    ghost is_end: { Self.Output → Bool };

    /// Returns the largest number of events that one call emits.
    fn most(&self) -> usize
        ensures { result ≡ most_of self.now };

    /// Takes `input`, and adds its events to `out`. `out` has to take `most()` events more. They
    /// are the first list of the stage's rest. After an event that ends it, it emits nothing.
    fn push(&mut self, input: Self::Input, out: &mut Room<Self::Output>)
        requires { Fits out.old (most_of self.old) }
        ensures most { most_of self.new ≡ most_of self.old }
        ensures events { Pushes (rest self.old)
            (rest self.new) input (most_of self.old) out.old out.new }
        ensures end { StopsAtEnd is_end (rest self.new) out.old out.new };

    /// Ends the inputs, and adds the last events to `out`. `out` has to take `most()` events more.
    /// From then on it emits nothing.
    fn finish(&mut self, out: &mut Room<Self::Output>)
        requires { Fits out.old (most_of self.old) }
        ensures most { most_of self.new ≡ most_of self.old }
        ensures ends { Finishes (rest self.old) (most_of self.old) out.old out.new }
        ensures end { StopsAtEnd is_end (rest self.new) out.old out.new }
        ensures over { EmitsNothing (rest self.new) };
}

/// Pushes all `inputs` to `stage`, and then ends them. `out` has to take `most()` events more for
/// each input and for the end. From then on `stage` emits nothing.
pub fn drive<S: Stage>(stage: &mut S, inputs: Vec<S::Input>, out: &mut Room<S::Output>)
where
    S::Input: Drop,
    requires { Fits out.old (S.most_of stage.old * (length inputs.items + 1)) }
    ensures most { S.most_of stage.new ≡ S.most_of stage.old }
    ensures events { out.new ≡ extended_by out.old (concat_of (S.rest stage.old inputs.items)) }
    ensures over { EmitsNothing (S.rest stage.new) }
{
    for input in inputs {
        stage.push(input, out);
    }
    stage.finish(out);
}
