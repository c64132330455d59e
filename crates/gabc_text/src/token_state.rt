//! The machine that cuts a text into tokens as its characters come.

ghost use Rattle.std.specs.Prelude.{◌≡◌, IsTrue};
ghost use Rattle.gabc_text.specs.machine.TokenState.{settled_kind, wanted_char, step_in_raw, step_at_tag_end, first_step, next_step, kind_at_end, is_plain, IsLetterBetween};
ghost use Rattle.gabc_text.specs.machine.RawPart.{is_unmatched};

use crate::tag_name::TagPrefix;
use crate::token::{RawKind, TagEffect, TokenKind, is_special, single};

/// The state of the token machine.
#[derive(Clone, Copy)]
pub enum TokenState {
    /// Between tokens.
    Plain,
    /// After a `$`.
    Dollar,
    Comment,
    /// In a tag, with its name so far.
    Tag(TagPrefix),
    /// In a raw part, with the number of characters of its ending that were read.
    Raw { part: RawKind, matched: u8 },
    Translation,
}

/// The effect of a character: it belongs to a token that goes on, or it ends one.
#[derive(Clone, Copy)]
pub enum Step {
    Stays(TokenState),
    Ends { kind: TokenKind, effect: TagEffect },
}

/// Returns the token that ends before the character, if one does.
pub(crate) fn settled_kind(state: TokenState, c: char) -> Option<TokenKind>
    ensures { result ≡ settled_kind state c }
{
    match state {
        TokenState::Dollar => {
            if is_special(c) {
                None
            } else {
                Some(TokenKind::Letter)
            }
        }
        TokenState::Comment => {
            if c == '\n' {
                Some(TokenKind::Comment)
            } else {
                None
            }
        }
        _ => None,
    }
}

/// Returns the character of the ending of `raw` after `matched` of its characters.
pub(crate) fn wanted_char(raw: RawKind, matched: u8) -> char
    ensures { result ≡ wanted_char raw matched }
{
    match raw {
        RawKind::V => match matched {
            0 => '<',
            1 => '/',
            2 => 'v',
            _ => '>',
        },
        RawKind::Sp => match matched {
            0 => '<',
            1 => '/',
            2 => 's',
            3 => 'p',
            _ => '>',
        },
        RawKind::Alt => match matched {
            0 => '<',
            1 => '/',
            2 => 'a',
            3 => 'l',
            4 => 't',
            _ => '>',
        },
    }
}

/// Returns the step that ends a token that is no tag.
fn ends(kind: TokenKind) -> Step
    ensures { result ≡ Step.Ends kind TagEffect.Other }
{
    Step::Ends {
        kind,
        effect: TagEffect::Other,
    }
}

/// Returns the step with which the raw part goes on, with `matched` characters of its ending read.
fn stays_in_raw(part: RawKind, matched: u8) -> Step
    ensures { result ≡ Step.Stays (TokenState.Raw part matched) }
{
    Step::Stays(TokenState::Raw { part, matched })
}

/// Returns the effect of the character `c` in a raw part, after `matched` characters of its ending.
pub(crate) fn step_in_raw(part: RawKind, matched: u8, c: char) -> Step
    ensures { result ≡ step_in_raw part matched c }
{
    if c == wanted_char(part, matched) {
        if c == '>' {
            ends(TokenKind::Raw)
        } else if matched < 5 {
            stays_in_raw(part, matched + 1)
        } else {
            stays_in_raw(part, 0)
        }
    } else if c == '<' {
        stays_in_raw(part, 1)
    } else {
        stays_in_raw(part, 0)
    }
}

/// Returns the step at the `>` of a tag with the effect `effect`.
pub(crate) fn step_at_tag_end(effect: TagEffect) -> Step
    ensures { result ≡ step_at_tag_end effect }
{
    match effect {
        TagEffect::Begins(part) => stays_in_raw(part, 0),
        _ => Step::Ends {
            kind: TokenKind::Tag,
            effect,
        },
    }
}

/// Returns the effect of the character `c` between tokens.
pub(crate) fn first_step(c: char) -> Step
    ensures { result ≡ first_step c }
{
    match c {
        '$' => Step::Stays(TokenState::Dollar),
        '%' => Step::Stays(TokenState::Comment),
        '<' => Step::Stays(TokenState::Tag(TagPrefix::new())),
        '[' => Step::Stays(TokenState::Translation),
        _ => ends(single(c)),
    }
}

/// Returns `true` only for a character of ASCII that is a letter of the text between tokens: a
/// letter, a digit or most marks. There it is a token by itself, and it is kept.
pub(crate) fn is_plain_letter(c: char) -> bool
    ensures { IsTrue result → IsLetterBetween c }
{
    match c {
        '*'..=';' | '?'..='Z' | 'a'..='z' => true,
        _ => false,
    }
}

/// Returns the effect of the character `c` in `state`.
pub(crate) fn next_step(state: TokenState, c: char) -> Step
    ensures { result ≡ next_step state c }
{
    match state {
        TokenState::Plain => first_step(c),
        TokenState::Dollar => ends(TokenKind::Letter),
        TokenState::Comment => Step::Stays(TokenState::Comment),
        TokenState::Tag(name) => {
            if c == '>' {
                step_at_tag_end(name.effect())
            } else {
                Step::Stays(TokenState::Tag(name.with(c)))
            }
        }
        TokenState::Raw { part, matched } => step_in_raw(part, matched, c),
        TokenState::Translation => {
            if c == ']' {
                ends(TokenKind::Translation)
            } else {
                Step::Stays(TokenState::Translation)
            }
        }
    }
}

/// Returns the token that the end of the text ends, if any.
pub(crate) fn kind_at_end(state: TokenState) -> Option<TokenKind>
    ensures { result ≡ kind_at_end state }
{
    match state {
        TokenState::Plain => None,
        TokenState::Dollar => Some(TokenKind::Letter),
        TokenState::Comment => Some(TokenKind::Comment),
        TokenState::Tag(_) | TokenState::Raw { .. } => Some(TokenKind::OpenTag),
        TokenState::Translation => Some(TokenKind::OpenTranslation),
    }
}

/// Returns whether it is between tokens.
pub(crate) fn is_plain(state: TokenState) -> bool
    ensures { result ≡ is_plain state }
{
    match state {
        TokenState::Plain => true,
        _ => false,
    }
}

/// Returns whether it is in a raw part, with no character of its ending read.
pub(crate) fn is_unmatched(state: TokenState) -> bool
    ensures { result ≡ is_unmatched state }
{
    match state {
        TokenState::Raw { matched, .. } => matched == 0,
        _ => false,
    }
}
