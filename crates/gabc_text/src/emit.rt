//! The events that the machine of a text adds to a room.

ghost use Rattle.std.specs.Prelude.{◌≡◌, ◌+◌, ◌≤◌, length, map};
ghost use Rattle.gabc_places.specs.BoundedList.{Fits, extended_by};
ghost use Rattle.gabc_text.specs.Events.{option_list_of};
ghost use Rattle.gabc_text.specs.witness.EventsLeft.{findings_there};
ghost use Rattle.gabc_text.specs.machine.TextStage.{char_event};

use crate::text_event::{TextEvent, TextPart};
use crate::view::Piece;
use gabc_places::{Char, Code, Finding, Place, Room};

/// Adds the kept character, if there is one.
#[inline(always)]
pub(crate) fn emit_char(out: &mut Room<TextEvent>, place: Place, kept: Option<char>)
    requires { Fits out.old 1 }
    ensures events { out.new ≡ extended_by out.old (option_list_of (char_event place kept)) }
    ensures few { length out.new.items ≤ length out.old.items + 1 }
{
    if let Some(c) = kept {
        out.push(TextEvent::Kept(Char { c, place }));
    }
}

/// Adds a part, if there is one.
pub(crate) fn emit_part(out: &mut Room<TextEvent>, part: Option<TextPart>)
    requires { Fits out.old 1 }
    ensures events { out.new
        ≡ extended_by out.old (map (λ p. TextEvent.Part p) (option_list_of part)) }
    ensures few { length out.new.items ≤ length out.old.items + 1 }
{
    if let Some(part) = part {
        out.push(TextEvent::Part(part));
    }
}

/// Adds a piece, if there is one.
#[inline(always)]
pub(crate) fn emit_piece(out: &mut Room<TextEvent>, piece: Option<Piece>)
    requires { Fits out.old 1 }
    ensures events { out.new ≡ extended_by out.old (map (λ p. TextEvent.Part p)
        (map (λ p. TextPart.Piece p) (option_list_of piece))) }
    ensures few { length out.new.items ≤ length out.old.items + 1 }
{
    if let Some(piece) = piece {
        out.push(TextEvent::Part(TextPart::Piece(piece)));
    }
}

/// Adds a finding with the code `code` at `place`, if there is one.
#[inline(always)]
pub(crate) fn emit_code(out: &mut Room<TextEvent>, place: Place, code: Option<Code>)
    requires { Fits out.old 1 }
    ensures events { out.new ≡ extended_by out.old (findings_there place (option_list_of code)) }
    ensures few { length out.new.items ≤ length out.old.items + 1 }
{
    if let Some(code) = code {
        out.push(TextEvent::Found(Finding { place, code }));
    }
}
