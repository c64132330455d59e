//! A source and a sink for trials: they move as many bytes as they are told to, and fail at a given
//! number of bytes.

ghost use Rattle.std.specs.Prelude.{◌≡◌, ◌<◌, ◌↔◌, [], length, IfOk, IsErr, OnErr, Some};
ghost use Rattle.std.specs.Io.{ReadsAtMost, WritesAtMost};
ghost use Rattle.std.specs.Io.KnownBytes.{ReadConsumes, WriteAppends};
ghost use Rattle.gabc_places.specs.Calls.{IsRead, IsWrite, no_calls};
ghost use Rattle.gabc_places.specs.Trial.{read_count, write_count};
ghost use Rattle.std.specs.Prelude.{◌-◌};
ghost use Rattle.std.specs.Option.{option_map};

use crate::ghost_calls::GhostCalls;
use crate::room::Room;
use crate::sink::{Sink, SinkFault};
use crate::source::{Source, SourceFault};
use std::alloc::{AllocError, Global};
use std::marker::Model;

/// A source that supplies bytes, at most `most` a read. After `fails_after` bytes all its reads
/// fail, if that was asked for.
#[derive(Drop)]
pub struct TrialSource<'a> {
    rest: &'a [u8],
    most: usize,
    fails_after: Option<usize>,
    calls: GhostCalls,
}

impl<'a> Model for TrialSource<'a> {
    ghost use Rattle.std.specs.Prelude.{◌<◌};
    ghost use Rattle.gabc_places.specs.Trial.{SourceState};

    ghost Value = { SourceState };

    ghost view = { λ s. record {
      rest = s.rest.now;
      most = s.most;
      fails_after = s.fails_after;
      calls = s.calls;
    } };

    ghost invariant = { λ s. 0 < s.most };
}

impl<'a> TrialSource<'a> {
    /// Returns a source of `bytes`, at most `most` a read, whose reads fail once it has supplied
    /// `fails_after` bytes, and go on failing; with `None` none fails. `most` is at least 1.
    pub fn new(bytes: &'a [u8], most: usize, fails_after: Option<usize>) -> TrialSource<'a>
        requires { 0 < most }
        ensures { result ≡ record {
          rest = bytes.now;
          most = most;
          fails_after = fails_after;
          calls = no_calls;
        } }
    {
        TrialSource {
            rest: bytes,
            most,
            fails_after,
            calls: GhostCalls::none(),
        }
    }
}

impl Source for TrialSource<'_> {
    ghost remaining = { λ s. Some s.rest };

    ghost calls = { λ s. s.calls };

    fn read(&mut self, buf: &mut [u8]) -> Result<usize, SourceFault>
        ensures bound { ReadsAtMost result buf.new }
        ensures bytes { ReadConsumes (Some self.old.rest) (Some self.new.rest) result buf.new }
        ensures calls { IsRead result (length buf.old) self.old.calls self.new.calls }
        ensures fails { IsErr result ↔ (self.old.fails_after ≡ Some 0) }
        ensures count { IfOk result (λ n. n ≡ read_count self.old (length buf.old)) }
        ensures most { self.new.most ≡ self.old.most }
        ensures later { IfOk result (λ n. self.new.fails_after
            ≡ option_map (λ left. left - n) self.old.fails_after) }
        ensures stays { OnErr result (self.new.fails_after ≡ self.old.fails_after) }
    {
        if self.fails_after == Some(0) {
            self.calls.add_failure();
            return Err(SourceFault);
        }
        let mut count = self.rest.len().min(buf.len()).min(self.most);
        if let Some(left) = self.fails_after {
            count = count.min(left);
            self.fails_after = Some(left - count);
        }
        let (now, later) = self.rest.split_at(count);
        buf[..count].copy_from_slice(now);
        self.rest = later;
        self.calls.add_answer(count == 0 && !buf.is_empty());
        Ok(count)
    }
}

/// A sink that takes at most `most` bytes a write. Once it holds `fails_at` bytes, all its writes
/// of more fail.
#[derive(Drop)]
pub struct TrialSink {
    taken: Room<u8>,
    most: usize,
    calls: GhostCalls,
}

impl Model for TrialSink {
    ghost use Rattle.std.specs.Prelude.{◌<◌};
    ghost use Rattle.gabc_places.specs.Trial.{SinkState};

    ghost Value = { SinkState };

    ghost view = { λ s. record {
      held = s.taken.items;
      most = s.most;
      fails_at = s.taken.limit;
      calls = s.calls;
    } };

    ghost invariant = { λ s. 0 < s.most };
}

impl TrialSink {
    /// Returns a sink that takes at most `most` bytes a write, and fails once it holds `fails_at`
    /// bytes and is given more.
    pub fn new(alloc: Global, most: usize, fails_at: usize) -> Result<TrialSink, AllocError>
        requires { 0 < most }
        ensures { IfOk result (λ s. s ≡ record {
          held = [];
          most = most;
          fails_at = fails_at;
          calls = no_calls;
        }) }
    {
        Ok(TrialSink {
            taken: Room::with_limit(alloc, fails_at)?,
            most,
            calls: GhostCalls::none(),
        })
    }

    /// Returns the bytes that it holds.
    pub fn held(&self) -> &[u8]
        ensures { result.now ≡ self.now.held }
    {
        self.taken.slice()
    }
}

impl Sink for TrialSink {
    ghost written = { λ s. Some s.held };

    ghost calls = { λ s. s.calls };

    fn write(&mut self, bytes: &[u8]) -> Result<usize, SinkFault>
        ensures bound { WritesAtMost result bytes.now }
        ensures bytes { WriteAppends (Some self.old.held) (Some self.new.held) result bytes.now }
        ensures takes { IfOk result (λ n. 0 < length bytes.now → 0 < n) }
        ensures calls { IsWrite result self.old.calls self.new.calls }
        ensures fails { IsErr result ↔ ((length self.old.held ≡ self.old.fails_at) ×
            (0 < length bytes.now)) }
        ensures count { IfOk result (λ n. n ≡ write_count self.old (length bytes.now)) }
        ensures most { self.new.most ≡ self.old.most }
        ensures fails_at { self.new.fails_at ≡ self.old.fails_at }
    {
        if self.taken.is_full() && !bytes.is_empty() {
            self.calls.add_failure();
            return Err(SinkFault);
        }
        let count = bytes.len().min(self.taken.left()).min(self.most);
        self.taken.append(&bytes[..count]);
        self.calls.add_answer(false);
        Ok(count)
    }
}
