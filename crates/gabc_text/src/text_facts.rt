//! The facts about the tokens so far.

ghost use Rattle.std.specs.Prelude.{◌≡◌, ◌∷◌, ◌&&◌, [], cond, not};
ghost use Rattle.std.specs.List.{list_any};
ghost use Rattle.gabc_text.specs.machine.TextFacts.{styles_after, early_at, after_piece, after_tag, facts_after};
ghost use Rattle.gabc_text.specs.Events.{option_list_of};
ghost use Rattle.gabc_text.specs.witness.FactsPast.{leaves_out};
ghost use Rattle.gabc_text.specs.witness.EventsLeft.{piece_by, codes_by};
ghost use Rattle.gabc_text.specs.TextFacts.{has_style, no_facts};
ghost use Rattle.gabc_text.specs.machine.TokenState.{keep, keep_first};
ghost use Rattle.gabc_text.specs.TagNames.{all_styles};
ghost use Rattle.gabc_text.specs.View.{piece_kind};

use crate::styles::Styles;
use crate::token::{TagEffect, TokenKind, is_blank_kind, single};
use crate::token_state::TokenState;
use crate::view::PieceKind;
use gabc_places::Code;

/// The facts about the tokens so far.
#[derive(Clone, Copy, PartialEq)]
pub struct TextFacts {
    /// The open styles.
    pub styles: Styles,
    /// There was a piece but span marks.
    pub word: bool,
    /// Of blanks and pieces, a blank was last.
    pub blank: bool,
    /// Of what is not left out, a blank was last.
    pub space: bool,
    /// There was a `{`, and a `}` after it.
    pub begun: bool,
    pub ended: bool,
    /// There was a translation.
    pub translated: bool,
    /// There was a blank before the first word.
    pub starts: bool,
}

#[inline(always)]
pub(crate) fn kind_of(kind: TokenKind, effect: TagEffect) -> Option<PieceKind>
    ensures { result ≡ piece_kind kind effect }
{
    match kind {
        TokenKind::Letter => Some(PieceKind::Char),
        TokenKind::Raw => Some(PieceKind::Raw),
        TokenKind::Tag => match effect {
            TagEffect::Mark => Some(PieceKind::Mark),
            TagEffect::Other => Some(PieceKind::Tag),
            _ => None,
        },
        _ => None,
    }
}

/// Returns the styles that are open after a tag with the effect `effect`, if `styles` are open
/// before it.
pub(crate) fn styles_after(styles: Styles, effect: TagEffect) -> Styles
    ensures { result ≡ styles_after styles effect }
{
    match effect {
        TagEffect::Opens(style) => styles.with(style, true),
        TagEffect::Closes(style) => styles.with(style, false),
        _ => styles,
    }
}

/// Returns whether a token is left out: a brace, comment or stray character that is not kept.
pub(crate) fn is_left_out(facts: TextFacts, kind: TokenKind) -> bool
    ensures { result ≡ leaves_out facts kind }
{
    match kind {
        TokenKind::Comment | TokenKind::Stray => true,
        TokenKind::Begin => facts.begun,
        TokenKind::End => !(facts.begun && !facts.ended),
        _ => false,
    }
}

/// Returns the kind of the piece for a token, if it is one.
#[inline(always)]
pub(crate) fn piece_at(facts: TextFacts, kind: TokenKind, effect: TagEffect) -> Option<PieceKind>
    ensures { result ≡ piece_by facts kind effect }
{
    match kind {
        TokenKind::Blank => {
            if facts.word && !facts.blank {
                Some(PieceKind::Blank)
            } else {
                None
            }
        }
        _ => kind_of(kind, effect),
    }
}

/// Returns the finding at the beginning of a second translation.
pub(crate) fn early_at(facts: TextFacts, state: TokenState, c: char) -> Option<Code>
    ensures { result ≡ early_at facts state c }
{
    match state {
        TokenState::Plain if c == '[' && facts.translated => Some(Code::W5),
        _ => None,
    }
}

/// Returns the finding at the end of a token, if any.
#[inline(always)]
pub(crate) fn code_at(facts: TextFacts, kind: TokenKind, effect: TagEffect) -> Option<Code>
    ensures { option_list_of result ≡ codes_by facts kind effect }
{
    match kind {
        TokenKind::Stray => Some(Code::E2),
        TokenKind::Begin => { if facts.begun { Some(Code::W4) } else { None } }
        TokenKind::End => {
            if facts.begun && !facts.ended {
                None
            } else {
                Some(Code::W4)
            }
        }
        TokenKind::Tag => match effect {
            TagEffect::Opens(style) => {
                if facts.styles.has(style) {
                    Some(Code::W3)
                } else {
                    None
                }
            }
            TagEffect::Closes(style) => {
                if facts.styles.has(style) {
                    None
                } else {
                    Some(Code::W3)
                }
            }
            TagEffect::Other => Some(Code::W6),
            _ => None,
        },
        _ => None,
    }
}

/// Returns the finding of a text that ends with open styles, if any is open.
pub(crate) fn style_code(styles: Styles) -> Option<Code>
    ensures { option_list_of result
        ≡ cond (list_any (has_style styles) all_styles) (Code.W3 ∷ []) [] }
{
    if styles.is_empty() {
        None
    } else {
        Some(Code::W3)
    }
}

/// Returns the finding of a text that ends with an open centre, if it is open.
pub(crate) fn centre_code(facts: TextFacts) -> Option<Code>
    ensures { option_list_of result ≡ cond (facts.begun && not facts.ended) (Code.W4 ∷ []) [] }
{
    if facts.begun && !facts.ended {
        Some(Code::W4)
    } else {
        None
    }
}

impl TextFacts {
    /// Updates the facts for a piece that is no blank and no span mark.
    #[inline(always)]
    fn pass_piece(&mut self)
        ensures { self.new ≡ after_piece self.old }
    {
        self.word = true;
        self.blank = false;
        self.space = false;
    }

    /// Updates the facts for a tag with the effect `effect`.
    fn pass_tag(&mut self, effect: TagEffect)
        ensures { self.new ≡ after_tag self.old effect }
    {
        match effect {
            TagEffect::Mark => {
                self.blank = false;
                self.space = false;
            }
            TagEffect::Other => self.pass_piece(),
            _ => {
                self.styles = styles_after(self.styles, effect);
                self.space = false;
            }
        }
    }

    /// Updates the facts for one more token.
    #[inline(always)]
    pub(crate) fn pass(&mut self, kind: TokenKind, effect: TagEffect)
        ensures { self.new ≡ facts_after self.old kind effect }
    {
        match kind {
            TokenKind::Blank => {
                self.starts = !self.word || self.starts;
                self.blank = true;
                self.space = true;
            }
            TokenKind::Letter | TokenKind::Raw => self.pass_piece(),
            TokenKind::Begin => {
                self.space = is_left_out(*self, kind) && self.space;
                self.begun = true;
            }
            TokenKind::End => {
                self.space = is_left_out(*self, kind) && self.space;
                self.ended = self.begun || self.ended;
            }
            TokenKind::Comment | TokenKind::Stray => {}
            TokenKind::Translation | TokenKind::OpenTranslation => {
                self.translated = true;
                self.space = false;
            }
            TokenKind::OpenTag => self.space = false,
            TokenKind::Tag => self.pass_tag(effect),
        }
    }
}

/// Returns the character that is kept of `c` between tokens, if any, if its kind is `kind`.
pub(crate) fn keep_first(facts: TextFacts, c: char, kind: TokenKind) -> Option<char>
    ensures { result ≡ keep_first facts c kind }
{
    if c == '%' || is_left_out(facts, kind) {
        None
    } else if is_blank_kind(kind) {
        if facts.space { None } else { Some(' ') }
    } else {
        Some(c)
    }
}

/// Returns the character that is kept of `c`, if any.
pub(crate) fn keep(facts: TextFacts, state: TokenState, c: char) -> Option<char>
    ensures { result ≡ keep facts state c }
{
    match state {
        TokenState::Plain => keep_first(facts, c, single(c)),
        TokenState::Comment => None,
        _ => Some(c),
    }
}

pub(crate) fn no_facts() -> TextFacts
    ensures { result ≡ no_facts }
{
    let styles = Styles {
        b: false,
        c: false,
        e: false,
        i: false,
        sc: false,
        tt: false,
        ul: false,
    };
    TextFacts {
        styles,
        word: false,
        blank: false,
        space: false,
        begun: false,
        ended: false,
        translated: false,
        starts: false,
    }
}
