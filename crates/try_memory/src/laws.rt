//! Calls of laws that drive a fresh stage, here over no input. The events go into a room.

use crate::digest::digest_of;
use crate::trial::{Trial, try_call};
use gabc_headers::HeadEvent;
use gabc_places::{Limits, Room};
use gabc_score::ScoreEvent;
use std::alloc::{AllocError, Global};
use std::io;

/// The number of events that a room takes.
const EVENTS: usize = 16;

/// The law of a stage of headers, with a room for its events.
#[derive(Drop)]
struct Headers {
    out: Room<HeadEvent>,
}

impl Trial for Headers {
    fn call(&mut self, alloc: Global) -> Result<u64, AllocError> {
        if self.out.left() < 2 {
            return Ok(0);
        }
        gabc_headers::stage_laws::a_fresh_stage_emits(
            alloc,
            Limits::DEFAULT,
            Vec::new(alloc),
            &mut self.out,
        )?;
        Ok(digest_of(&self.out))
    }

    fn arguments(&self) -> u64 {
        digest_of(&self.out)
    }
}

/// The law of a stage of headers after a decoder, with a room for its events.
#[derive(Drop)]
struct DecodedHeaders {
    out: Room<HeadEvent>,
}

impl Trial for DecodedHeaders {
    fn call(&mut self, alloc: Global) -> Result<u64, AllocError> {
        if self.out.left() < 4 {
            return Ok(0);
        }
        gabc_headers::stage_laws::a_fresh_stage_reads_bytes(
            alloc,
            Limits::DEFAULT,
            Vec::new(alloc),
            &mut self.out,
        )?;
        Ok(digest_of(&self.out))
    }

    fn arguments(&self) -> u64 {
        digest_of(&self.out)
    }
}

/// The law of a stage over a score, with a room for its events.
#[derive(Drop)]
struct Score {
    out: Room<ScoreEvent>,
}

impl Trial for Score {
    fn call(&mut self, alloc: Global) -> Result<u64, AllocError> {
        if self.out.left() < 16 {
            return Ok(0);
        }
        gabc_score::stage_laws::a_fresh_stage_emits(
            alloc,
            Limits::DEFAULT,
            Vec::new(alloc),
            &mut self.out,
        )?;
        Ok(digest_of(&self.out))
    }

    fn arguments(&self) -> u64 {
        digest_of(&self.out)
    }
}

/// Tries a law of a stage of headers. Returns whether there is such a law.
fn are_headers_tried(rt: &HostRuntime, name: &str) -> io::Result<bool> {
    match name {
        "gabc_headers::stage_laws::a_fresh_stage_emits" => {
            let out = Room::with_limit(rt.alloc(), EVENTS)?;
            try_call(rt, &mut Headers { out })?;
        }
        "gabc_headers::stage_laws::a_fresh_stage_reads_bytes" => {
            let out = Room::with_limit(rt.alloc(), EVENTS)?;
            try_call(rt, &mut DecodedHeaders { out })?;
        }
        _ => return Ok(false),
    }
    Ok(true)
}

/// Tries a law. Returns whether there is such a law.
pub(crate) fn is_tried(rt: &HostRuntime, name: &str) -> io::Result<bool> {
    if name != "gabc_score::stage_laws::a_fresh_stage_emits" {
        return are_headers_tried(rt, name);
    }
    let out = Room::with_limit(rt.alloc(), EVENTS)?;
    try_call(rt, &mut Score { out })?;
    Ok(true)
}
