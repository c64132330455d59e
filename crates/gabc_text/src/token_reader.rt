//! The tokens of a kept text.

ghost use Rattle.std.specs.Prelude.{◌≡◌, ◌+◌, ◌<◌, ◌≤◌, ◌^◌, length, slice_get};
ghost use Rattle.gabc_text.specs.machine.TokenReader.{reading_at};
ghost use Rattle.gabc_text.specs.TextTokens.{tokens_from, tokens_of, AreWithin};

use crate::token::{TagEffect, TokenKind};
use crate::token_state::{Step, TokenState, is_plain, kind_at_end, next_step, settled_kind};
use gabc_places::Span;
use std::marker::Model;

/// A token of a text: a part of its spelling that the rules are about.
#[derive(Clone, Copy, Debug, PartialEq, Eq)]
pub struct TextToken {
    /// Its kind.
    pub kind: TokenKind,
    /// The effect of its tag, if it is a tag; else `Other`.
    pub effect: TagEffect,
    /// Its bytes in the text.
    pub span: Span,
}

/// The effect of a character on the token that is read.
#[derive(Clone, Copy)]
pub(crate) enum Reading {
    /// No token begins with it: it is the `(` of the notes.
    Notes,
    /// A token of this kind ends before it.
    Settled(TokenKind),
    /// It is part of a token.
    Taken(Step),
}

/// Returns the effect of the character `c` in `state`.
fn reading_at(state: &TokenState, c: char) -> Reading
    ensures { result ≡ reading_at state.now c }
{
    if c == '(' && is_plain(*state) {
        return Reading::Notes;
    }
    match settled_kind(*state, c) {
        Some(kind) => Reading::Settled(kind),
        None => Reading::Taken(next_step(*state, c)),
    }
}

/// Returns the token that begins `text`, if one does. The first byte of `text` is counted as `at`.
fn first_token(text: &str, at: usize) -> Option<TextToken>
    requires { at + length text.now < 2 ^ 64 }
    ensures { result ≡ slice_get (tokens_from at text.now) 0 }
{
    let mut state = TokenState::Plain;
    let mut end = at;
    for c in text.chars() {
        match reading_at(&state, c) {
            Reading::Notes => return None,
            Reading::Settled(kind) => return Some(other_token(kind, at, end)),
            Reading::Taken(step) => {
                end += c.len_utf8();
                match step {
                    Step::Stays(after) => state = after,
                    Step::Ends { kind, effect } => {
                        let span = Span { from: at, to: end };
                        return Some(TextToken { kind, effect, span });
                    }
                }
            }
        }
    }
    let kind = kind_at_end(state)?;
    Some(other_token(kind, at, end))
}

/// Returns a token that is no tag.
fn other_token(kind: TokenKind, from: usize, to: usize) -> TextToken
    ensures { result
        ≡ record { kind = kind; effect = TagEffect.Other; span = record { from = from; to = to } } }
{
    TextToken {
        kind,
        effect: TagEffect::Other,
        span: Span { from, to },
    }
}

/// An iterator over the tokens of a text, in order. In contracts it is the list of the remaining
/// ones.
#[derive(Drop)]
pub struct TokenReader<'a> {
    /// The text from the next token on.
    rest: &'a str,
    /// The number of bytes of the text before it.
    at: usize,
}

impl<'a> Model for TokenReader<'a> {
    ghost use Rattle.std.specs.Prelude.{◌+◌, ◌<◌, ◌^◌, List, length, IsUtf8};
    ghost use Rattle.gabc_text.specs.TextTokens.{tokens_from};
    ghost use Rattle.gabc_text.specs.declared.token_reader.TextToken.{TextToken};

    ghost Value = { List TextToken };

    ghost view = { λ r. tokens_from r.at r.rest.now };

    ghost invariant = { λ r. IsUtf8 r.rest.now × (r.at + length r.rest.now < 2 ^ 64) };
}

impl<'a> TokenReader<'a> {
    /// Returns an iterator over the remaining tokens, to look ahead. It takes none of them, and
    /// does not allocate.
    pub fn ahead(&self) -> TokenReader<'a>
        ensures { result ≡ self.now }
    {
        TokenReader {
            rest: self.rest,
            at: self.at,
        }
    }
}

impl<'a> Iterator for TokenReader<'a> {
    type Item = TextToken;

    ghost use Rattle.std.specs.Iterator.{YieldsFirst, item_count};

    ghost next_gives = { YieldsFirst (λ ahead. ahead) };

    ghost remaining = { item_count (λ ahead. ahead) };

    fn next(&mut self) -> Option<TextToken> {
        let token = first_token(self.rest, self.at)?;
        self.rest = &self.rest[token.span.to - self.at..];
        self.at = token.span.to;
        Some(token)
    }
}

/// Returns an iterator over the tokens of `text`, in order, up to its end or to a `(` between
/// tokens (GregorioRef, "Syllable Text Syntax"). They lie in `text`, each begins at the end of the
/// one before it, and they are at most as many as its bytes. It does not allocate, and reads each
/// token when it is asked for.
pub fn tokens_in(text: &str) -> TokenReader<'_>
    ensures tokens { result ≡ tokens_of text.now }
    ensures within { AreWithin text.now (tokens_of text.now) }
    ensures few { length (tokens_of text.now) ≤ length text.now }
{
    TokenReader { rest: text, at: 0 }
}
