//! A machine that reads spaces and descriptors a character at a time.

ghost use Rattle.std.specs.Prelude.{◌≡◌};
ghost use Rattle.gabc_nabc.specs.witness.DescriptorMachine.{is_a_letter, is_a_pitch, part_begun, code_begun, in_tail, going_on, falling_back, next_state, whole_at};
ghost use Rattle.gabc_nabc.specs.machine.DescriptorMachine.{is_space_at_end};

use crate::class::NabcClass;

/// The state of a part after some of its characters.
#[derive(Clone, Copy)]
pub(crate) enum DescriptorState {
    /// Between parts.
    Start,
    /// After the first letter of a code: `l`, `p`, `s`, or another.
    CodeL,
    CodeP,
    CodeS,
    Code,
    /// After a code and its modifiers.
    Glyph,
    /// After a modifier that may have a digit.
    Modified,
    /// After the `h` of a glyph's pitch.
    GlyphH,
    /// After a glyph with its pitch.
    Pitched,
    /// After the `!` that joins glyphs.
    Joined,
    /// After a descriptor and `l`, `p`, `s`, which begin a code if no letters and no points follow.
    TailL,
    TailP,
    TailS,
    /// After `su` or `pp`.
    Points,
    /// After the letter of points.
    PointsLetter,
    /// After `ls` or `lt`.
    Letters,
    /// After a letter of letters.
    LettersMore,
    /// After the digit of points or letters.
    Counted,
    /// After the `h` of their pitch.
    CountedH,
    /// After their pitch.
    Tail,
    Slash,
    Tick,
    /// After a space that nothing can follow.
    Space,
}

/// Returns whether `class` is that of a letter.
fn is_letter(class: NabcClass) -> bool
    ensures { result ≡ is_a_letter class }
{
    match class {
        NabcClass::LetterH | NabcClass::LetterL | NabcClass::LetterP | NabcClass::LetterS => true,
        NabcClass::LetterT | NabcClass::LetterU | NabcClass::Pitch | NabcClass::Letter => true,
        _ => false,
    }
}

/// Returns whether `class` is that of a letter that is a pitch.
fn is_pitch(class: NabcClass) -> bool
    ensures { result ≡ is_a_pitch class }
{
    match class {
        NabcClass::LetterH | NabcClass::LetterL | NabcClass::LetterP | NabcClass::Pitch => true,
        _ => false,
    }
}

/// Returns the state after the first character of a code, if the character may begin one.
fn code_begins(class: NabcClass) -> Option<DescriptorState>
    ensures { result ≡ code_begun class }
{
    match class {
        NabcClass::LetterL => Some(DescriptorState::CodeL),
        NabcClass::LetterP => Some(DescriptorState::CodeP),
        NabcClass::LetterS => Some(DescriptorState::CodeS),
        NabcClass::LetterT | NabcClass::LetterU | NabcClass::Pitch | NabcClass::Letter => Some(
            DescriptorState::Code,
        ),
        _ => None,
    }
}

/// Returns the state after the first character of a part, if the character may begin one.
fn begins(class: NabcClass) -> Option<DescriptorState>
    ensures { result ≡ part_begun class }
{
    match class {
        NabcClass::Slash => Some(DescriptorState::Slash),
        NabcClass::Tick => Some(DescriptorState::Tick),
        _ => code_begins(class),
    }
}

/// Returns the state after the first character of points or letters.
fn tail_begins(class: NabcClass) -> Option<DescriptorState>
    ensures { result ≡ in_tail class }
{
    match class {
        NabcClass::LetterL => Some(DescriptorState::TailL),
        NabcClass::LetterP => Some(DescriptorState::TailP),
        NabcClass::LetterS => Some(DescriptorState::TailS),
        _ => None,
    }
}

/// Returns the state after one more character, if the part goes on.
#[inline(always)]
pub(crate) fn goes_on(state: DescriptorState, class: NabcClass) -> Option<DescriptorState>
    ensures { result ≡ going_on state class }
{
    match (state, class) {
        (DescriptorState::Start, _) => begins(class),
        (DescriptorState::CodeL, NabcClass::LetterS | NabcClass::LetterT) => None,
        (DescriptorState::CodeP, NabcClass::LetterP) => None,
        (DescriptorState::CodeS, NabcClass::LetterU) => None,
        (
            DescriptorState::CodeL
            | DescriptorState::CodeP
            | DescriptorState::CodeS
            | DescriptorState::Code,
            _,
        ) if is_letter(class) => { Some(DescriptorState::Glyph) }
        (DescriptorState::Modified, NabcClass::Digit) => Some(DescriptorState::Glyph),
        (
            DescriptorState::Glyph | DescriptorState::Modified,
            NabcClass::Modifier | NabcClass::Hyphen,
        ) => Some(DescriptorState::Modified),
        (DescriptorState::Glyph | DescriptorState::Modified, NabcClass::LetterH) => Some(
            DescriptorState::GlyphH,
        ),
        (DescriptorState::GlyphH, _) if is_pitch(class) => Some(DescriptorState::Pitched),
        (
            DescriptorState::Glyph | DescriptorState::Modified | DescriptorState::Pitched,
            NabcClass::Bang,
        ) => Some(DescriptorState::Joined),
        (DescriptorState::Joined, _) => code_begins(class),
        (DescriptorState::Glyph | DescriptorState::Modified | DescriptorState::Pitched, _) =>
            tail_begins(class),
        (DescriptorState::TailL, NabcClass::LetterS | NabcClass::LetterT) => Some(
            DescriptorState::Letters,
        ),
        (DescriptorState::TailP, NabcClass::LetterP) => Some(DescriptorState::Points),
        (DescriptorState::TailS, NabcClass::LetterU) => Some(DescriptorState::Points),
        (DescriptorState::Points, _) if is_letter(class) => Some(DescriptorState::PointsLetter),
        (DescriptorState::Letters | DescriptorState::LettersMore, _) if is_letter(class) => Some(
            DescriptorState::LettersMore,
        ),
        (DescriptorState::LettersMore, NabcClass::Hyphen) => Some(DescriptorState::LettersMore),
        (
            DescriptorState::Points | DescriptorState::PointsLetter | DescriptorState::LettersMore,
            NabcClass::Digit,
        ) => { Some(DescriptorState::Counted) }
        (DescriptorState::Counted, NabcClass::LetterH) => Some(DescriptorState::CountedH),
        (DescriptorState::CountedH, _) if is_pitch(class) => Some(DescriptorState::Tail),
        (DescriptorState::Counted | DescriptorState::Tail, _) => tail_begins(class),
        (DescriptorState::Slash, NabcClass::Slash) => Some(DescriptorState::Space),
        (DescriptorState::Tick, NabcClass::Tick) => Some(DescriptorState::Space),
        _ => None,
    }
}

/// Returns the state of the reading if the part ended at its longest so far.
fn falls_back(state: DescriptorState) -> Option<DescriptorState>
    ensures { result ≡ falling_back state }
{
    match state {
        DescriptorState::Glyph | DescriptorState::Modified | DescriptorState::Pitched => Some(
            DescriptorState::Start,
        ),
        DescriptorState::Counted | DescriptorState::Tail => Some(DescriptorState::Start),
        DescriptorState::Slash | DescriptorState::Tick | DescriptorState::Space => Some(
            DescriptorState::Start,
        ),
        DescriptorState::TailL => Some(DescriptorState::CodeL),
        DescriptorState::TailP => Some(DescriptorState::CodeP),
        DescriptorState::TailS => Some(DescriptorState::CodeS),
        _ => None,
    }
}

/// Returns the state after one more character: the part goes on, or it ended at its longest and
/// another begins there.
#[inline(always)]
pub(crate) fn next_state(state: DescriptorState, class: NabcClass) -> Option<DescriptorState>
    ensures { result ≡ next_state state class }
{
    match goes_on(state, class) {
        Some(next) => Some(next),
        None => match falls_back(state) {
            Some(back) => goes_on(back, class),
            None => None,
        },
    }
}

/// Returns whether the part is a space, if it may end here.
pub(crate) fn ends(state: DescriptorState) -> Option<bool>
    ensures { result ≡ is_space_at_end state }
{
    match state {
        DescriptorState::Glyph | DescriptorState::Modified | DescriptorState::Pitched => Some(
            false,
        ),
        DescriptorState::Counted | DescriptorState::Tail => Some(false),
        DescriptorState::Slash | DescriptorState::Tick | DescriptorState::Space => Some(true),
        _ => None,
    }
}

/// Returns whether a text that ends in this state is an NABC snippet.
pub(crate) fn is_whole(state: DescriptorState) -> bool
    ensures { result ≡ whole_at state }
{
    match state {
        DescriptorState::Start
        | DescriptorState::Glyph
        | DescriptorState::Modified
        | DescriptorState::Pitched => true,
        DescriptorState::Counted
        | DescriptorState::Tail
        | DescriptorState::Slash
        | DescriptorState::Tick
        | DescriptorState::Space => true,
        _ => false,
    }
}
