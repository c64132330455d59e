//! A machine that reads a snippet a character at a time.

ghost use Rattle.std.specs.Prelude.{◌≡◌, ◌==◌, ℕ, List, [], Bool, true, false, None, option_map};
ghost use Rattle.gabc_places.specs.declared.place.Char.{Char};
ghost use Rattle.gabc_places.specs.BoundedList.{Fits, extended_by};
ghost use Rattle.gabc_places.specs.StageLaw.{Pushes, StopsAtEnd};
ghost use Rattle.gabc_notes.specs.declared.stage.CharFacts.{CharFacts};
ghost use Rattle.gabc_notes.specs.machine.ItemMachine.{IsShortStep, facts_by_states, prefix_after, stage_after};
ghost use Rattle.gabc_notes.specs.witness.ItemMachine.{events_left};
ghost use Rattle.gabc_notes.specs.machine.StageAfter.{stage_after_one};
ghost use Rattle.gabc_notes.specs.StageReports.{opener_of, comment_of, opened_at};
ghost use Rattle.gabc_notes.specs.witness.Keeps.{Keeps, Steps};
ghost use Rattle.gabc_notes.specs.Ends.{is_ended};
ghost use Rattle.gabc_notes.specs.witness.StageEvents.{role_in, warning_in, before_in, events_in, event_list};
ghost use Rattle.gabc_notes.specs.Events.{end_by_mark, finding_event};
ghost use Rattle.gabc_notes.specs.NotesEmitted.{AreNoteEvents};

use crate::class::class_of;
use crate::macro_prefix::{MacroPrefix, defines, digit_of_prefix, prefix_with};
use crate::state::{ItemState, is_attribute, is_raw, is_whole, next_state, short_step};
use gabc_places::{Char, Code, Finding, Place, Room, Stage};

/// The end of a snippet. A place is that of the open bracket; line 0 and column 0 if none is open.
#[derive(Clone, Copy, Debug, PartialEq, Eq)]
pub enum NoteEnd {
    /// At a `|`.
    Next,
    /// At a `)`.
    Close,
    /// The characters end before the snippet does.
    Cut(Place),
}

impl NoteEnd {
    /// Returns the end of a snippet at `mark`: `Next` at a `|`, and `Close` at any other.
    pub fn of_mark(mark: char) -> NoteEnd
        ensures { result ≡ end_by_mark mark }
    {
        if mark == '|' {
            NoteEnd::Next
        } else {
            NoteEnd::Close
        }
    }
}

/// An event of a snippet.
#[derive(Clone, Copy, Debug, PartialEq, Eq)]
pub enum NoteEvent {
    /// A kept character.
    Kept(Char),
    /// A finding, with its place.
    Found(Finding),
    /// The end, the last event: the end of the snippet, and the number of bytes of its kept text,
    /// without an unfinished end; of a cut snippet the bytes kept so far.
    Ended { how: NoteEnd, kept: usize },
}

/// The events of a `NoteStage`.
pub type NoteOut = NoteEvent;

/// Facts about a character in its context.
#[derive(Clone, Copy)]
pub(crate) struct CharFacts {
    /// The kept text lies inside raw.
    pub(crate) raw: bool,
    /// The kept text is a snippet.
    pub(crate) whole: bool,
    /// The kept text with the character is viable, lies inside raw, is a snippet, ends with an
    /// attribute.
    pub(crate) viable: bool,
    pub(crate) raw_after: bool,
    pub(crate) whole_after: bool,
    pub(crate) attribute: bool,
    /// The digit of the macro that the open bracket names.
    pub(crate) digit: Option<u8>,
}

/// The context before a character, beside the kept text.
#[derive(Clone, Copy)]
pub(crate) struct Before {
    /// The place of the last character kept outside raw: inside raw, of the bracket that opened it.
    pub(crate) place: Place,
    /// Whether an `@[` is open.
    pub(crate) fused: bool,
    /// Whether a comment is open.
    pub(crate) comment: bool,
    /// The bytes of the kept text, and of its longest prefix that is a snippet.
    pub(crate) kept: usize,
    pub(crate) whole: usize,
}

/// The role of a character.
#[derive(Clone, Copy)]
pub(crate) enum CharRole {
    /// It is part of a comment.
    Silent,
    /// It begins a comment.
    Comment,
    /// It ends the snippet.
    Ends,
    Keep,
    LeaveOut,
}

/// Returns the facts about a character, by the state before it and the next one, if there is one.
fn look(state: ItemState, next: Option<ItemState>, name: MacroPrefix) -> CharFacts
    ensures { result ≡ facts_by_states state next name }
{
    let (viable, raw_after, whole_after, attribute) = match next {
        Some(next) => (true, is_raw(next), is_whole(next), is_attribute(next)),
        None => (false, false, false, false),
    };
    CharFacts {
        raw: is_raw(state),
        whole: is_whole(state),
        viable,
        raw_after,
        whole_after,
        attribute,
        digit: digit_of_prefix(name),
    }
}

/// Returns the role of a character.
fn role_of(split: bool, comment: bool, facts: CharFacts, c: char) -> CharRole
    ensures { result ≡ role_in split comment facts c }
{
    if comment && c != '\n' {
        CharRole::Silent
    } else if !facts.raw && (c == ')' || (split && c == '|')) {
        CharRole::Ends
    } else if !facts.raw && c == '%' {
        CharRole::Comment
    } else if facts.viable {
        CharRole::Keep
    } else {
        CharRole::LeaveOut
    }
}

/// Returns the warning of a kept character, if it has one.
fn warning(macros: u16, before: Before, facts: CharFacts, x: Char) -> Option<NoteEvent>
    ensures { result ≡ warning_in macros before facts x }
{
    if facts.raw {
        match facts.digit {
            Some(digit) if facts.attribute && !defines(macros, digit) => {
                Some(NoteEvent::Found(Finding {
                    place: before.place,
                    code: Code::W8,
                }))
            }
            _ => None,
        }
    } else if (x.c == '[' && !facts.raw_after && before.fused) || (x.c == ']' && !before.fused) {
        Some(NoteEvent::Found(Finding {
            place: x.place,
            code: Code::W10,
        }))
    } else {
        None
    }
}

impl Before {
    /// Updates the context for a kept character.
    fn keep(&mut self, facts: CharFacts, x: Char)
        ensures { self.new ≡ before_in CharRole.Keep self.old facts x }
    {
        self.kept = self.kept.saturating_add(x.c.len_utf8());
        if facts.whole_after {
            self.whole = self.kept;
        }
        if !facts.raw {
            self.place = x.place;
            if !facts.raw_after {
                self.fused = x.c == '[' || (self.fused && x.c != ']');
            }
        }
        self.comment = false;
    }

    /// Updates the context for a character with the role `role`.
    fn pass(&mut self, role: CharRole, facts: CharFacts, x: Char)
        ensures { self.new ≡ before_in role self.old facts x }
    {
        match role {
            CharRole::Keep => self.keep(facts, x),
            CharRole::Comment => self.comment = true,
            CharRole::LeaveOut => self.comment = false,
            CharRole::Silent | CharRole::Ends => {}
        }
    }
}

/// Returns a finding with the code `code` at the character `x`.
fn found(x: Char, code: Code) -> NoteEvent
    ensures { result ≡ finding_event x.place code }
{
    NoteEvent::Found(Finding {
        place: x.place,
        code,
    })
}

/// Emits the end of the snippet: an unfinished end and an open `@[` are found there. `whole` says
/// that the kept text is a snippet.
fn emit_end(before: Before, whole: bool, x: Char, out: &mut Room<NoteEvent>)
    requires { Fits out.old 3 }
    ensures { (macros : ℕ) (facts : CharFacts) → facts.whole ≡ whole → out.new
        ≡ extended_by out.old (event_list (events_in CharRole.Ends macros before facts x)) }
{
    if !whole {
        out.push(found(x, Code::E6));
    }
    if before.fused {
        out.push(found(x, Code::W10));
    }
    out.push(NoteEvent::Ended {
        how: NoteEnd::of_mark(x.c),
        kept: before.whole,
    });
}

/// Emits the events of a character with the role `role`.
fn emit(
    role: CharRole,
    macros: u16,
    before: Before,
    facts: CharFacts,
    x: Char,
    out: &mut Room<NoteEvent>,
)
    requires { Fits out.old 3 }
    ensures { out.new
        ≡ extended_by out.old (event_list (events_in role macros before facts x)) }
{
    match role {
        CharRole::Keep => {
            out.push(NoteEvent::Kept(x));
            if let Some(event) = warning(macros, before, facts, x) {
                out.push(event);
            }
        }
        CharRole::LeaveOut => out.push(found(x, Code::E1)),
        CharRole::Ends => emit_end(before, facts.whole, x, out),
        CharRole::Silent | CharRole::Comment => {}
    }
}

/// Returns the content of the open bracket after a kept character, if one is open there.
fn prefix_after(facts: CharFacts, name: MacroPrefix, c: char) -> MacroPrefix
    ensures { result ≡ prefix_after facts name c }
{
    if facts.raw_after {
        prefix_with(name, c)
    } else {
        MacroPrefix::Closed
    }
}

/// Reads a snippet (GregorioRef, "Notation — Note Syntax"): emits each character that is kept, the
/// findings as they become known, and the end. A call emits at most 3 events. It does not
/// allocate. The call that ends it changes nothing else of it, and after that none changes it.
#[derive(Drop)]
pub struct NoteStage {
    split: bool,
    macros: u16,
    state: ItemState,
    name: MacroPrefix,
    before: Before,
    ended: bool,
}

impl NoteStage {
    /// Returns a stage before the first character of a snippet. With `split` a `|` ends the snippet
    /// too. The bit `d` of `macros`, from 0 to 9, says that the macro of the digit `d` is defined.
    /// It has kept the empty text, and no bracket and no comment is open. A call emits at most 3
    /// events: of a character that it is kept, if it is, and its finding; of the mark that ends the
    /// snippet the findings, and the end; if the characters end before it, that they were cut.
    /// After the end nothing is emitted, and the stage stays as it is.
    pub fn new(split: bool, macros: u16) -> NoteStage
        ensures events { (xs : List Char) →
            AreNoteEvents split macros xs (events_left result xs) }
        ensures keeps { Keeps split macros result [] }
        ensures tells { (opener_of result ≡ None) × (comment_of result ≡ false) }
    {
        NoteStage {
            split,
            macros,
            state: ItemState::Start,
            name: MacroPrefix::Closed,
            before: Before {
                place: Place { line: 0, column: 0 },
                fused: false,
                comment: false,
                kept: 0,
                whole: 0,
            },
            ended: false,
        }
    }

    /// Takes a character with the role `role`.
    fn advance(&mut self, role: CharRole, facts: CharFacts, next: Option<ItemState>, x: Char)
        ensures { self.new ≡ stage_after self.old role facts next x }
    {
        if let CharRole::Ends = role {
            self.ended = true;
            return;
        }
        self.before.pass(role, facts, x);
        if let (CharRole::Keep, Some(next)) = (role, next) {
            self.name = prefix_after(facts, self.name, x.c);
            self.state = next;
        }
    }

    /// Reads a character.
    fn read(&mut self, x: Char, out: &mut Room<NoteEvent>)
        requires fits { Fits out.old 3 }
        requires runs { self.old.ended ≡ false }
        ensures state { self.new ≡ stage_after_one self.old x }
        ensures events { Pushes (events_left self.old) (events_left self.new) x 3 out.old out.new }
        ensures end { StopsAtEnd is_ended (events_left self.new) out.old out.new }
    {
        let next = next_state(self.state, class_of(x.c));
        let facts = look(self.state, next, self.name);
        let role = role_of(self.split, self.before.comment, facts, x.c);
        emit(role, self.macros, self.before, facts, x, out);
        self.advance(role, facts, next, x);
    }

    /// Reads a character that `short_step` brings to `next`. This does what `read` does, without
    /// its tests: long snippets of notes take 12 % more instructions if all their characters are
    /// read by `read` (`notes` in docs/BENCHMARKS.md), since runs leave the last snippet of a piece
    /// to this.
    fn read_short(&mut self, next: ItemState, x: Char, out: &mut Room<NoteEvent>)
        requires fits { Fits out.old 3 }
        requires runs { self.old.ended ≡ false }
        requires comment { self.old.before.comment ≡ false }
        requires step { IsShortStep self.old.state x.c next }
        ensures state { self.new ≡ stage_after_one self.old x }
        ensures events { Pushes (events_left self.old) (events_left self.new) x 3 out.old out.new }
        ensures end { StopsAtEnd is_ended (events_left self.new) out.old out.new }
    {
        out.push(NoteEvent::Kept(x));
        let kept = self.before.kept.saturating_add(1);
        self.before.kept = kept;
        self.before.whole = kept;
        self.before.place = x.place;
        self.name = MacroPrefix::Closed;
        self.state = next;
    }

    /// Returns the place of the open `[`: inside raw one is open. The end of the stage leaves it as
    /// it was.
    pub fn opener(&self) -> Option<Place>
        ensures { result ≡ opener_of self.now }
    {
        if is_raw(self.state) {
            Some(self.before.place)
        } else {
            None
        }
    }

    /// Returns whether a comment is open. The end of the stage leaves it as it was.
    pub fn in_comment(&self) -> bool
        ensures { result ≡ comment_of self.now }
    {
        self.before.comment
    }

    /// Sets the place of the open `[` to `place`, if one is open. The stage keeps the same text.
    pub fn open_at(&mut self, place: Place)
        ensures opened { self.new ≡ opened_at place self.old }
        ensures opener { opener_of self.new ≡ option_map (λ _. place) (opener_of self.old) }
        ensures comment { comment_of self.new ≡ comment_of self.old }
        ensures keeps { (split : Bool) (macros : ℕ) (k : List ℕ) →
            Keeps split macros self.old k → Keeps split macros self.new k }
    {
        if is_raw(self.state) {
            self.before.place = place;
        }
    }
}

impl Stage for NoteStage {
    type Input = Char;

    type Output = NoteEvent;

    ghost use Rattle.std.specs.Prelude.{drop, length};
    ghost use Rattle.gabc_places.specs.StageLaw.{Finishes, EmitsNothing};

    ghost rest = { events_left };

    ghost most_of = { λ _. 3 };

    ghost is_end = { is_ended };

    fn most(&self) -> usize {
        3
    }

    fn push(&mut self, x: Char, out: &mut Room<NoteEvent>)
        requires { Fits out.old 3 }
        ensures events { Pushes (events_left self.old) (events_left self.new) x 3 out.old out.new }
        ensures end { StopsAtEnd is_ended (events_left self.new) out.old out.new }
        ensures steps { Steps self.old x (drop (length out.old.items) out.new.items) self.new }
        ensures stays { self.old.ended ≡ true → self.new ≡ self.old }
        ensures ended { self.new.ended ≡ true → self.new ≡ record self.old { ended = true } }
    {
        if self.ended {
            return;
        }
        match short_step(self.state, x.c) {
            Some(next) if !self.before.comment => self.read_short(next, x, out),
            _ => self.read(x, out),
        }
    }

    fn finish(&mut self, out: &mut Room<NoteEvent>)
        requires { Fits out.old 3 }
        ensures ends { Finishes (events_left self.old) 3 out.old out.new }
        ensures end { StopsAtEnd is_ended (events_left self.new) out.old out.new }
        ensures over { EmitsNothing (events_left self.new) }
        ensures ended { self.new ≡ record self.old { ended = true } }
    {
        if self.ended {
            return;
        }
        let place = if is_raw(self.state) {
            self.before.place
        } else {
            Place { line: 0, column: 0 }
        };
        out.push(NoteEvent::Ended {
            how: NoteEnd::Cut(place),
            kept: self.before.kept,
        });
        self.ended = true;
    }
}
