//! A machine that reads an NABC snippet a character at a time.

ghost use Rattle.std.specs.Prelude.{◌≡◌, List, [], true, false, None};
ghost use Rattle.gabc_places.specs.declared.place.Char.{Char};
ghost use Rattle.gabc_places.specs.BoundedList.{Fits, extended_by};
ghost use Rattle.gabc_notes.specs.Ends.{is_ended};
ghost use Rattle.gabc_notes.specs.declared.stage.NoteEvent.{NoteEvent};
ghost use Rattle.gabc_notes.specs.declared.stage.NoteEnd.{NoteEnd};
ghost use Rattle.gabc_notes.specs.declared.stage.NoteEvent.TheVariants.{Kept, Ended};
ghost use Rattle.gabc_nabc.specs.witness.Keeps.{comment_of, Keeps, Steps};
ghost use Rattle.gabc_nabc.specs.Events.{is_code, is_missing};
ghost use Rattle.gabc_nabc.specs.NabcEmitted.{AreNabcEvents};
ghost use Rattle.gabc_nabc.specs.witness.DescriptorMachine.{first_at, facts_by_states, role_in, events_in, event_list, stage_kept, stage_moved_on, stage_events_at, stage_after, events_of_cut, events_left};

use crate::class::class_of;
use crate::name::is_named;
use crate::state::{DescriptorState, is_whole, next_state};
use gabc_notes::{NoteEnd, NoteEvent};
use gabc_places::{Char, Code, Finding, Place, Room, Stage};

/// The facts about a character in its context.
#[derive(Clone, Copy)]
pub(crate) struct NabcFacts {
    /// The kept text is an NABC snippet.
    pub(crate) whole: bool,
    /// The kept text with the character is viable, and an NABC snippet.
    pub(crate) viable: bool,
    pub(crate) whole_after: bool,
    /// The character ends a code without a name.
    pub(crate) unknown: bool,
}

/// The role of a character.
#[derive(Clone, Copy)]
pub(crate) enum NabcRole {
    /// It is a blank or part of a comment.
    Silent,
    /// It ends the snippet.
    Ends,
    Keep,
    LeaveOut,
}

/// The events of one call.
#[derive(Clone, Copy)]
pub(crate) struct NabcEvents {
    pub(crate) first: Option<NoteEvent>,
    pub(crate) second: Option<NoteEvent>,
}

/// Returns the first letter of a code whose second letter is to come: the last letter, in these
/// states.
pub(crate) fn first_letter(state: DescriptorState, letter: char) -> Option<char>
    ensures { result ≡ first_at state letter }
{
    match state {
        DescriptorState::Code
        | DescriptorState::CodeL
        | DescriptorState::CodeP
        | DescriptorState::CodeS => Some(letter),
        DescriptorState::TailL | DescriptorState::TailP | DescriptorState::TailS => Some(letter),
        _ => None,
    }
}

/// Returns whether `first` and `second` are the letters of a code.
fn makes_code(first: char, second: char) -> bool
    ensures { result ≡ is_code first second }
{
    if !('a' <= first && first <= 'z' && 'a' <= second && second <= 'z') {
        return false;
    }
    match (first, second) {
        ('h', _) | ('s', 'u') | ('p', 'p') | ('l', 's') | ('l', 't') => false,
        _ => true,
    }
}

/// Returns whether the character `c` ends a code without a name, if `first` is the first letter of
/// one.
#[inline(always)]
pub(crate) fn lacks_name(first: Option<char>, c: char) -> bool
    ensures { result ≡ is_missing first c }
{
    match first {
        Some(first) => makes_code(first, c) && !is_named(first, c),
        None => false,
    }
}

/// Returns the facts about a character, by the state before it and the next one, if there is one.
fn look(state: DescriptorState, next: Option<DescriptorState>, letter: char, c: char) -> NabcFacts
    ensures { result ≡ facts_by_states state next letter c }
{
    NabcFacts {
        whole: is_whole(state),
        viable: next.is_some(),
        whole_after: match next {
            Some(next) => is_whole(next),
            None => false,
        },
        unknown: lacks_name(first_letter(state, letter), c),
    }
}

/// Returns the role of a character.
fn role_of(comment: bool, viable: bool, c: char) -> NabcRole
    ensures { result ≡ role_in comment viable c }
{
    if comment {
        return NabcRole::Silent;
    }
    match c {
        ')' | '|' => NabcRole::Ends,
        '%' | ' ' | '\t' | '\n' => NabcRole::Silent,
        _ if viable => NabcRole::Keep,
        _ => NabcRole::LeaveOut,
    }
}

/// Returns the events of a character. The longest prefix of the kept text that is an NABC snippet
/// has `whole` bytes.
fn events_by(role: NabcRole, facts: NabcFacts, whole: usize, x: Char) -> NabcEvents
    ensures { result ≡ events_in role facts whole x }
{
    let found = |code| {
        Some(NoteEvent::Found(Finding {
            place: x.place,
            code,
        }))
    };
    match role {
        NabcRole::Keep => NabcEvents {
            first: Some(NoteEvent::Kept(x)),
            second: if facts.unknown { found(Code::W7) } else { None },
        },
        NabcRole::LeaveOut => NabcEvents {
            first: found(Code::E3),
            second: None,
        },
        NabcRole::Ends => NabcEvents {
            first: if facts.whole { None } else { found(Code::E6) },
            second: Some(NoteEvent::Ended {
                how: NoteEnd::of_mark(x.c),
                kept: whole,
            }),
        },
        NabcRole::Silent => NabcEvents {
            first: None,
            second: None,
        },
    }
}

/// Adds the events of a call to `out`.
fn emit(events: NabcEvents, out: &mut Room<NoteEvent>)
    requires { Fits out.old 3 }
    ensures { out.new ≡ extended_by out.old (event_list events) }
{
    if let Some(output) = events.first {
        out.push(output);
    }
    if let Some(output) = events.second {
        out.push(output);
    }
}

/// Reads an NABC snippet (GregorioRef, the NABC reference): emits each kept character, the findings
/// as they become known, and the end. A call emits at most 3 events. It does not allocate. The call
/// that ends it changes nothing else of it, and after that none changes it.
#[derive(Drop)]
pub struct NabcStage {
    state: DescriptorState,
    /// The last character kept.
    letter: char,
    /// Whether a comment is open.
    comment: bool,
    /// The bytes of the kept text, and of its longest prefix that is an NABC snippet.
    kept: usize,
    whole: usize,
    ended: bool,
}

impl NabcStage {
    /// Returns a stage before the first character of a snippet. It has kept the empty text, and no
    /// comment is open. A call emits at most 3 events: of a character that it is kept, if it is,
    /// and its finding; of the mark that ends the snippet the findings, and the end; if the
    /// characters end before it, that they were cut. After the end nothing is emitted, and the
    /// stage stays as it is.
    pub fn new() -> NabcStage
        ensures events { (xs : List Char) → AreNabcEvents xs (events_left result xs) }
        ensures keeps { Keeps result [] }
        ensures tells { comment_of result ≡ false }
    {
        NabcStage {
            state: DescriptorState::Start,
            letter: '/',
            comment: false,
            kept: 0,
            whole: 0,
            ended: false,
        }
    }

    /// Adds the character `c` to the kept text. `next` is the state after it, and `whole` says
    /// whether the kept text is an NABC snippet then.
    fn keep(&mut self, next: DescriptorState, whole: bool, c: char)
        ensures { self.new ≡ stage_kept self.old next whole c }
    {
        self.state = next;
        self.letter = c;
        self.kept = self.kept.saturating_add(c.len_utf8());
        if whole {
            self.whole = self.kept;
        }
    }

    /// Takes a character with the role `role`.
    fn advance(&mut self, role: NabcRole, facts: NabcFacts, next: Option<DescriptorState>, c: char)
        ensures { self.new ≡ stage_moved_on self.old role facts next c }
    {
        if let NabcRole::Ends = role {
            self.ended = true;
            return;
        }
        self.comment = c == '%' || (self.comment && c != '\n');
        if let (NabcRole::Keep, Some(next)) = (role, next) {
            self.keep(next, facts.whole_after, c);
        }
    }

    /// Returns whether a comment is open. The end of the stage leaves it as it was.
    pub fn in_comment(&self) -> bool
        ensures { result ≡ comment_of self.now }
    {
        self.comment
    }

    /// Takes the character `x`, and adds its events to `out`.
    pub(crate) fn take(&mut self, x: Char, out: &mut Room<NoteEvent>)
        requires { Fits out.old 3 }
        ensures stage { self.new ≡ stage_after self.old x.c }
        ensures out { out.new ≡ extended_by out.old (stage_events_at self.old x) }
    {
        if self.ended {
            return;
        }
        let next = next_state(self.state, class_of(x.c));
        let facts = look(self.state, next, self.letter, x.c);
        let role = role_of(self.comment, facts.viable, x.c);
        emit(events_by(role, facts, self.whole, x), out);
        self.advance(role, facts, next, x.c);
    }

    /// Ends the characters, and adds the last events to `out`.
    pub(crate) fn stop(&self, out: &mut Room<NoteEvent>)
        requires { Fits out.old 3 }
        ensures { out.new ≡ extended_by out.old (events_of_cut self.now) }
    {
        if self.ended {
            return;
        }
        out.push(NoteEvent::Ended {
            how: NoteEnd::Cut(Place { line: 0, column: 0 }),
            kept: self.kept,
        });
    }
}

impl Stage for NabcStage {
    type Input = Char;

    type Output = NoteEvent;

    ghost use Rattle.std.specs.Prelude.{drop, length};
    ghost use Rattle.gabc_places.specs.StageLaw.{Pushes, Finishes, StopsAtEnd, EmitsNothing};

    ghost rest = { events_left };

    ghost most_of = { λ _. 3 };

    ghost is_end = { is_ended };

    fn most(&self) -> usize {
        3
    }

    fn push(&mut self, x: Char, out: &mut Room<NoteEvent>)
        requires { Fits out.old 3 }
        ensures events { Pushes (events_left self.old) (events_left self.new) x 3 out.old out.new }
        ensures end { StopsAtEnd is_ended (events_left self.new) out.old out.new }
        ensures steps { Steps self.old x (drop (length out.old.items) out.new.items) self.new }
        ensures stays { self.old.ended ≡ true → self.new ≡ self.old }
        ensures ended { self.new.ended ≡ true → self.new ≡ record self.old { ended = true } }
    {
        self.take(x, out);
    }

    fn finish(&mut self, out: &mut Room<NoteEvent>)
        requires { Fits out.old 3 }
        ensures ends { Finishes (events_left self.old) 3 out.old out.new }
        ensures end { StopsAtEnd is_ended (events_left self.new) out.old out.new }
        ensures over { EmitsNothing (events_left self.new) }
        ensures ended { self.new ≡ record self.old { ended = true } }
    {
        self.stop(out);
        self.ended = true;
    }
}
