//! The position and the counts of the machine of a text.

ghost use Rattle.std.specs.Prelude.{◌≡◌, None, ℕ};
ghost use Rattle.gabc_text.specs.TextStage.{count_plus, fresh_stage};
ghost use Rattle.gabc_text.specs.View.{centre_by};
ghost use Rattle.gabc_text.specs.Events.{count_by, option_list_of};
ghost use Rattle.gabc_text.specs.witness.EventsLeft.{parts_by, piece_by, piece_there, waiting_after};
ghost use Rattle.gabc_text.specs.machine.TextStage.{progress_after, progress_past};

use crate::text_event::TextPart;
use crate::text_facts::{TextFacts, piece_at};
use crate::token::{TagEffect, TokenKind};
use crate::view::{Piece, PieceKind};
use gabc_places::{Place, Span};

/// The position of the machine in the text and in its kept text. A count that has reached its last
/// value stays there.
#[derive(Clone, Copy, PartialEq)]
pub(crate) struct Progress {
    /// The beginning of the current token: its place, and the number of bytes kept before it.
    pub(crate) place: Place,
    pub(crate) start: usize,
    /// The place of the next character, and the number of bytes kept before it.
    pub(crate) next: Place,
    pub(crate) kept: usize,
    /// The number of pieces, with a blank that is not emitted yet.
    pub(crate) pieces: usize,
    /// A blank that is a piece if another piece follows.
    pub(crate) blank: Option<Piece>,
    /// The number of pieces before the centre, and before its end.
    pub(crate) begin: Option<usize>,
    pub(crate) end: Option<usize>,
}

/// Returns the sum, or the last value if it is larger.
pub(crate) fn plus(n: usize, more: usize) -> usize
    ensures { result ≡ count_plus n more }
{
    n.saturating_add(more)
}

/// Returns the piece of kind `kind` for a token, without the `$` of an escape. Before the last
/// character of the token, `last` bytes were kept.
#[inline(always)]
pub(crate) fn piece_there(
    facts: TextFacts,
    progress: Progress,
    kind: PieceKind,
    last: usize,
) -> Piece
    ensures { result ≡ piece_there facts progress kind last progress.kept }
{
    let from = match kind {
        PieceKind::Char => last,
        _ => progress.start,
    };
    Piece {
        kind,
        styles: facts.styles,
        span: Span {
            from,
            to: progress.kept,
        },
    }
}

/// Returns the part for a token that is no piece, if there is one. Before the last character of the
/// token, `last` bytes were kept.
pub(crate) fn part_at(
    facts: TextFacts,
    progress: Progress,
    kind: TokenKind,
    last: usize,
) -> Option<TextPart>
    ensures { (to : ℕ) → option_list_of result ≡ parts_by facts progress kind last to None }
{
    match kind {
        TokenKind::Blank => {
            if facts.word || facts.starts {
                None
            } else {
                Some(TextPart::WordStart)
            }
        }
        TokenKind::Translation => {
            if facts.translated {
                None
            } else {
                Some(TextPart::Translation(Span {
                    from: plus(progress.start, 1),
                    to: last,
                }))
            }
        }
        _ => None,
    }
}

/// Returns the blank that waits after a token, if one does.
#[inline(always)]
pub(crate) fn waiting_piece(
    facts: TextFacts,
    progress: Progress,
    kind: TokenKind,
    effect: TagEffect,
) -> Option<Piece>
    ensures { let blank = piece_there facts progress PieceKind.Blank progress.start progress.kept in
        result ≡ waiting_after blank progress.blank (piece_by facts kind effect) }
{
    match piece_at(facts, kind, effect) {
        Some(PieceKind::Blank) => Some(piece_there(
            facts,
            progress,
            PieceKind::Blank,
            progress.start,
        )),
        Some(_) => None,
        None => progress.blank,
    }
}

/// Returns the centre of a text that ends here, if it has one. It does not reach past the last
/// piece that is emitted.
pub(crate) fn centre(progress: Progress) -> Option<Span>
    ensures { result ≡ centre_by (count_by progress.pieces progress.blank)
        progress.begin progress.end }
{
    let count = match progress.blank {
        Some(_) => progress.pieces.saturating_sub(1),
        None => progress.pieces,
    };
    match progress.begin {
        Some(begin) => match progress.end {
            Some(end) => Some(Span {
                from: begin.min(count),
                to: end.min(count),
            }),
            None => Some(Span {
                from: begin.min(count),
                to: count,
            }),
        },
        None => None,
    }
}

impl Progress {
    /// Returns the progress before the first character, which is at `at`.
    pub(crate) fn new(at: Place) -> Progress
        ensures { result ≡ (fresh_stage at).progress }
    {
        Progress {
            place: at,
            start: 0,
            next: at,
            kept: 0,
            pieces: 0,
            blank: None,
            begin: None,
            end: None,
        }
    }

    /// Updates the progress for a token, which ends before `place`.
    #[inline(always)]
    pub(crate) fn pass_token(
        &mut self,
        facts: TextFacts,
        kind: TokenKind,
        effect: TagEffect,
        place: Place,
    )
        ensures { self.new ≡ progress_after facts self.old kind effect place }
    {
        let blank = waiting_piece(facts, *self, kind, effect);
        match kind {
            TokenKind::Begin if !facts.begun => self.begin = Some(self.pieces),
            TokenKind::End if facts.begun && !facts.ended => self.end = Some(self.pieces),
            _ => {}
        }
        if piece_at(facts, kind, effect).is_some() {
            self.pieces = plus(self.pieces, 1);
        }
        self.blank = blank;
        self.place = place;
        self.start = self.kept;
    }

    /// Updates the progress for the character `c`, of which `kept` is kept.
    #[inline(always)]
    pub(crate) fn pass(&mut self, c: char, kept: Option<char>)
        ensures { self.new ≡ progress_past self.old c kept }
    {
        if let Some(kept) = kept {
            self.kept = plus(self.kept, kept.len_utf8());
        }
        self.next = self.next.saturating_after(c);
    }
}
