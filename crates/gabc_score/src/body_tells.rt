//! What a stage over a body reports of its current part.

ghost use Rattle.std.specs.Prelude.{◌≡◌, ◌↔◌, ℕ, IsTrue};
ghost use Rattle.gabc_text.specs.TextStage.{fresh_stage};
ghost use Rattle.gabc_score.specs.ScoreReports.{is_in_comment, moved_part, openers_of};
ghost use Rattle.gabc_score.specs.machine.PartKeeps.{KeptParts, PartKeeps};

use crate::body_stage::{BodyPart, BodyStage};
use gabc_places::Place;

/// The places of the open brackets.
#[derive(Clone, Copy, Debug, PartialEq, Eq)]
pub struct Openers {
    /// The place of the `(` of the current notes.
    pub notes: Option<Place>,
    /// The place of the `<` or `[` of the current tag, raw part, translation or raw bracket of
    /// GABC.
    pub inner: Option<Place>,
}

impl BodyStage {
    /// Returns the places of the open brackets.
    pub(crate) fn openers(&self) -> Openers
        ensures { result ≡ openers_of self.now.part }
    {
        let notes = match &self.part {
            BodyPart::Comment | BodyPart::Text(_) => None,
            BodyPart::Notes { opened, .. } | BodyPart::Nabc { opened, .. } => Some(*opened),
        };
        let inner = match &self.part {
            BodyPart::Text(stage) => stage.opener(),
            BodyPart::Notes { stage, .. } => stage.opener(),
            BodyPart::Comment | BodyPart::Nabc { .. } => None,
        };
        Openers { notes, inner }
    }

    /// Returns whether the part is a text that begins at `at` and of which nothing was read yet.
    pub(crate) fn begins_text(&self, at: Place) -> bool
        ensures { IsTrue result ↔ (self.now.part ≡ BodyPart.Text (fresh_stage at)) }
    {
        match &self.part {
            BodyPart::Text(stage) => stage.begins(at),
            _ => false,
        }
    }

    /// Returns whether a comment is open.
    pub(crate) fn in_comment(&self) -> bool
        ensures { result ≡ is_in_comment self.now.part }
    {
        match &self.part {
            BodyPart::Comment => true,
            BodyPart::Text(stage) => stage.in_comment(),
            BodyPart::Notes { stage, .. } => stage.in_comment(),
            BodyPart::Nabc { stage, .. } => stage.in_comment(),
        }
    }

    /// Sets the place of the next character to `at`. What is open keeps the place where it began.
    pub(crate) fn go_to(&mut self, at: Place)
        ensures moved { self.new ≡ record self.old { part = moved_part at self.old.part } }
        ensures keeps { (lines macros : ℕ) (p : KeptParts) →
            PartKeeps lines macros self.old.part p → PartKeeps lines macros self.new.part p }
    {
        if let BodyPart::Text(stage) = &mut self.part {
            stage.go_to(at);
        }
    }

    /// Returns the number of NABC lines under each GABC snippet.
    pub(crate) fn nabc_lines(&self) -> u8
        ensures { result ≡ self.now.nabc_lines }
    {
        self.nabc_lines
    }

    /// Returns the defined macros as bits.
    pub(crate) fn macros(&self) -> u16
        ensures { result ≡ self.now.macros }
    {
        self.macros
    }
}
