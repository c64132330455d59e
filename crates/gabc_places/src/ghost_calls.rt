//! The calls of a source or a sink and their answers, for contracts.

ghost use Rattle.std.specs.Prelude.{◌≡◌};
ghost use Rattle.gabc_places.specs.Calls.{after_answer, after_failure, no_calls};

use std::marker::Model;
use std::snapshot::Snapshot;

#[derive(Drop)]
#[cycle(calls)]
enum Link {
    Start,
    Answer(Snapshot<GhostCalls>, bool),
    Failure(Snapshot<GhostCalls>),
}

/// The calls and their answers, which contracts alone see: it has no bytes, costs nothing when the
/// program runs, and its counts have no last value.
#[derive(Drop)]
#[cycle(calls)]
pub struct GhostCalls {
    now: Snapshot<Link>,
}

impl Model for GhostCalls {
    ghost use Rattle.gabc_places.specs.Calls.{Calls};

    ghost Value = { Calls };

    ghost use Rattle.gabc_places.specs.GhostCalls.{calls_of};

    ghost view = { λ c. calls_of c.now.value };

    ghost size = { λ c. c.made };

    ghost use Rattle.gabc_places.specs.GhostCallsDepth.{depth_le};

    ghost size_decreases = { λ a h. depth_le a.now.value };
}

impl GhostCalls {
    /// Returns the state before any call. For contracts alone.
    pub fn none() -> GhostCalls
        ensures { result ≡ no_calls }
    {
        GhostCalls {
            now: Snapshot::of(&Link::Start),
        }
    }

    /// Adds a call that was answered; `is_end` says whether it was the end.
    pub fn add_answer(&mut self, is_end: bool)
        ensures { self.new ≡ after_answer is_end self.old }
    {
        let before: Snapshot<GhostCalls> = Snapshot::of(self);
        self.now = Snapshot::of(&Link::Answer(before, is_end));
    }

    /// Adds a call that failed.
    pub fn add_failure(&mut self)
        ensures { self.new ≡ after_failure self.old }
    {
        let before: Snapshot<GhostCalls> = Snapshot::of(self);
        self.now = Snapshot::of(&Link::Failure(before));
    }
}
