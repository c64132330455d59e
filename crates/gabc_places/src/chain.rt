//! Two stages as one.
//!
//! What the first stage emits for one input waits in a room between the two. The caller gives that
//! room, so that no call of a chain asks for memory.

ghost use Rattle.std.specs.Prelude.{◌≡◌, ℕ, ◌+◌, ◌*◌, ◌^◌, ◌<◌, ◌≤◌, length};
ghost use Rattle.gabc_places.specs.BoundedList.{Fits};
ghost use Rattle.gabc_places.specs.machine.StageLaw.{PushesAll};
ghost use Rattle.gabc_places.specs.StageLaw.{StopsAtEnd};
ghost use Rattle.gabc_places.specs.Chain.{chain_events};

use crate::{Room, Stage};
use std::marker::Model;

/// Passes the events of the first stage to the second. It emits at most `(first.most() + 1) *
/// second.most()` events a call.
#[derive(Drop)]
pub struct Chain<A: Stage, B: Stage<Input = A::Output>> {
    first: A,
    second: B,
    between: Room<A::Output>,
}

impl<A: Stage, B: Stage<Input = A::Output>> Model for Chain<A, B> {
    ghost use Rattle.std.specs.Prelude.{◌+◌, ◌*◌, ◌^◌, ◌<◌, ◌≤◌};
    ghost use Rattle.gabc_places.specs.Chain.{StagePair};

    ghost Value = { StagePair A B };

    ghost view = { λ c. record { first = c.first; second = c.second } };

    ghost invariant = { λ c. ((A.most_of c.first + 1) * B.most_of c.second < 2 ^ 64)
        × (A.most_of c.first ≤ c.between.limit) };
}

impl<A: Stage, B: Stage<Input = A::Output>> Chain<A, B> {
    /// Returns a chain of `first` and `second`. `between` has to take `first.most()` events, and
    /// those that it has are dropped. `(first.most() + 1) * second.most()` has to fit a `usize`.
    pub fn new(first: A, second: B, between: Room<A::Output>) -> Chain<A, B>
        requires fits { (A.most_of first + 1) * B.most_of second < 2 ^ 64 }
        requires room { A.most_of first ≤ between.limit }
        ensures { result ≡ record { first = first; second = second } }
    {
        Chain {
            first,
            second,
            between,
        }
    }

    /// Returns the first stage.
    pub fn first(&self) -> &A
        ensures { result.now ≡ self.now.first }
    {
        &self.first
    }

    /// Returns the second stage.
    pub fn second(&self) -> &B
        ensures { result.now ≡ self.now.second }
    {
        &self.second
    }
}

impl<A: Stage, B: Stage<Input = A::Output>> Stage for Chain<A, B> {
    type Input = A::Input;

    type Output = B::Output;

    ghost rest = { λ c xs. chain_events (A.rest c.first) (B.rest c.second) xs };

    ghost most_of = { λ c. (A.most_of c.first + 1) * B.most_of c.second };

    ghost is_end = { B.is_end };

    fn most(&self) -> usize {
        let second = self.second.most();
        if second == 0 {
            0
        } else {
            (self.first.most() + 1) * second
        }
    }

    fn push(&mut self, input: A::Input, out: &mut Room<B::Output>) {
        self.between.clear();
        self.first.push(input, &mut self.between);
        push_all(&mut self.second, self.between.slice(), out);
    }

    fn finish(&mut self, out: &mut Room<B::Output>) {
        self.between.clear();
        self.first.finish(&mut self.between);
        push_all(&mut self.second, self.between.slice(), out);
        self.second.finish(out);
    }
}

/// Pushes each of `inputs` to `stage`, which adds its events to `out`.
pub(crate) fn push_all<S: Stage>(stage: &mut S, inputs: &[S::Input], out: &mut Room<S::Output>)
where
    S::Input: Copy,
    requires { Fits out.old (S.most_of stage.old * length inputs.now) }
    ensures most { S.most_of stage.new ≡ S.most_of stage.old }
    ensures events { PushesAll (S.rest stage.old)
        (S.rest stage.new) inputs.now (S.most_of stage.old) out.old out.new }
    ensures end { StopsAtEnd S.is_end (S.rest stage.new) out.old out.new }
{
    for input in inputs {
        stage.push(*input, out);
    }
}
