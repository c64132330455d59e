//! The pitches that follow the notes of a score.

use gabc_nodes::{Kind, Node};
use std::alloc::{AllocError, Global};

/// The pitch of a note, and the first pitch after it that differs.
#[derive(Clone, Copy, Debug)]
struct Following {
    pitch: u8,
    other: Option<u8>,
}

/// The notes of a score, the last one first, and the number of notes that are passed.
#[derive(Debug, Drop)]
pub(crate) struct Pitches {
    notes: Vec<Following>,
    passed: usize,
}

/// Returns the pitch of `node`, if it is a note.
fn pitch_of(node: Node) -> Option<u8> {
    if node.kind == Kind::Note {
        Some((node.a % 16) as u8)
    } else {
        None
    }
}

/// Appends a note of this `pitch` to `notes`, the notes after it in backward order.
fn push_before(pitch: u8, notes: &mut Vec<Following>) -> Result<(), AllocError> {
    let other = match notes.last() {
        Some(next) if next.pitch == pitch => next.other,
        Some(next) => Some(next.pitch),
        None => None,
    };
    notes.push(Following { pitch, other })?;
    Ok(())
}

impl Pitches {
    /// Returns the notes among `nodes`.
    pub(crate) fn of(alloc: Global, nodes: &[Node]) -> Result<Pitches, AllocError> {
        let mut notes = Vec::new(alloc);
        for node in nodes.iter().rev() {
            if let Some(pitch) = pitch_of(*node) {
                push_before(pitch, &mut notes)?;
            }
        }
        Ok(Pitches { notes, passed: 0 })
    }

    /// Passes a note.
    pub(crate) fn pass(&mut self) {
        self.passed = self.passed.saturating_add(1);
    }

    /// Returns the note that is `ahead` notes after the next one, if there is one.
    fn get(&self, ahead: usize) -> Option<Following> {
        let back = self.passed.saturating_add(ahead);
        let at = self.notes.len().checked_sub(back)?.checked_sub(1)?;
        self.notes.get(at).copied()
    }

    /// Returns the pitch of the next note, if there is one.
    pub(crate) fn next(&self) -> Option<u8> {
        Some(self.get(0)?.pitch)
    }

    /// Returns the first pitch after the last passed note that differs from it.
    pub(crate) fn other(&self) -> Option<u8> {
        let at = self.notes.len().checked_sub(self.passed)?;
        self.notes.get(at)?.other
    }
}
