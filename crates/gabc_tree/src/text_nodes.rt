//! The nodes of a syllable's text.

ghost use Rattle.std.specs.Prelude.{◌≡◌, ◌+◌, ◌<◌, ◌≤◌, ◌^◌, ◌++◌, List, length, slice_range, is_some, option_to_list, OnOk};
ghost use Rattle.gabc_text.specs.View.{is_open_after, piece_kind};
ghost use Rattle.gabc_nodes.specs.declared.node.Node.{Node};
ghost use Rattle.gabc_tree.specs.TextNodes.{text_node as node_of_text, text_nodes, joined, bit, styles_number, numbers, is_escape, raw_number, number_of_mark, tag_node};
ghost use Rattle.gabc_tree.specs.machine.TextNodes.{shown_past, shown_past_tag, styles_past, has_piece, is_blank_piece, node_after};

use gabc_nodes::{Kind, Node};
use gabc_places::Span;
use gabc_text::{
    SpanMark, Style, Styles, TagEffect, TextToken, TokenKind, TokenReader, mark_at, tokens_in,
};
use std::alloc::AllocError;

/// Facts about the tokens before a place of a text.
#[derive(Clone, Copy)]
struct Before {
    /// The styles that are open.
    styles: Styles,
    /// Whether one of them is a piece other than a span mark.
    word: bool,
    /// Whether the nearest blank or piece is a blank.
    blank: bool,
    /// Whether a `{` is among them, and a `}` after one.
    begun: bool,
    ended: bool,
    /// Whether a translation is among them.
    translated: bool,
}

impl Before {
    const NOTHING: Before = Before {
        styles: Styles::NONE,
        word: false,
        blank: false,
        begun: false,
        ended: false,
        translated: false,
    };

    /// Returns the facts with `token` added.
    fn past(self, token: TextToken) -> Before
        ensures { result ≡ shown_past self token.kind token.effect }
    {
        match token.kind {
            TokenKind::Letter | TokenKind::Raw => Before {
                word: true,
                blank: false,
                ..self
            },
            TokenKind::Blank => Before {
                blank: true,
                ..self
            },
            TokenKind::Tag => self.past_tag(token.effect),
            TokenKind::Begin => Before {
                begun: true,
                ..self
            },
            TokenKind::End => Before {
                ended: self.begun || self.ended,
                ..self
            },
            TokenKind::Translation | TokenKind::OpenTranslation => Before {
                translated: true,
                ..self
            },
            _ => self,
        }
    }

    /// Returns the facts with a tag of this `effect` added.
    fn past_tag(self, effect: TagEffect) -> Before
        ensures { result ≡ shown_past_tag self effect }
    {
        match effect {
            TagEffect::Mark => Before {
                blank: false,
                ..self
            },
            TagEffect::Other => Before {
                word: true,
                blank: false,
                ..self
            },
            _ => Before {
                styles: styles_past(self.styles, effect),
                ..self
            },
        }
    }

    /// Returns the first number of a node there: the open styles, plus 128 in the centre.
    fn numbers(self) -> u16
        ensures { result ≡ numbers self.styles self.begun self.ended }
    {
        styles_number(self.styles) + bit(self.begun && !self.ended, 128)
    }

    /// Returns whether `token` is a blank that is a piece; `ahead` are the tokens after it.
    fn is_blank_piece(self, token: TextToken, ahead: TokenReader<'_>) -> bool
        ensures { result ≡ is_blank_piece self token.kind ahead.entry }
    {
        token.kind == TokenKind::Blank && self.word && !self.blank && has_piece(ahead)
    }

    /// Returns the node of `token`, if it has one; it is spelled `spelled`, and `ahead` are the
    /// tokens after it.
    fn node(self, token: TextToken, spelled: &[u8], ahead: TokenReader<'_>) -> Option<Node>
        requires from { token.span.from < 2 ^ 32 }
        requires to { token.span.to < 2 ^ 32 }
        ensures { result ≡ node_after self token spelled.now ahead.entry }
    {
        let span = token.span;
        let node = match token.kind {
            TokenKind::Letter if is_escape(spelled) => text_node(
                span,
                Kind::Escape,
                self.numbers(),
                0,
                0,
            ),
            TokenKind::Letter => text_node(span, Kind::Characters, self.numbers(), 0, 0),
            TokenKind::Blank => {
                let is_piece = self.is_blank_piece(token, ahead);
                text_node(span, Kind::TextBlank, self.numbers(), bit(is_piece, 1), 0)
            }
            TokenKind::Raw => text_node(span, Kind::Raw, self.numbers(), raw_number(spelled), 0),
            TokenKind::Tag => tag_node(span, self.numbers(), spelled, token.effect),
            TokenKind::Begin => text_node(span, Kind::Brace, 0, 0, 0),
            TokenKind::End => text_node(span, Kind::Brace, 0, 1, 0),
            TokenKind::Translation => text_node(
                span,
                Kind::Translation,
                0,
                bit(!self.translated, 1),
                0,
            ),
            _ => return None,
        };
        Some(node)
    }
}

/// Returns a node of this `kind` with the bytes of `span` and the numbers `a`, `b` and `c`, in
/// which no other lies.
pub(crate) fn text_node(span: Span, kind: Kind, a: u16, b: u16, c: u16) -> Node
    requires from { span.from < 2 ^ 32 }
    requires to { span.to < 2 ^ 32 }
    ensures { result ≡ node_of_text span kind a b c }
{
    Node {
        begin: span.from as u32,
        end: span.to as u32,
        inner: 0,
        kind,
        a,
        b,
        c,
    }
}

/// Returns `n` if `holds`, else 0.
fn bit(holds: bool, n: u16) -> u16
    ensures { result ≡ bit holds n }
{
    if holds { n } else { 0 }
}

/// Returns the number of a set of styles: the sum of 1 for b, 2 for c, 4 for e, 8 for i, 16 for sc,
/// 32 for tt and 64 for ul.
fn styles_number(styles: Styles) -> u16
    ensures number { result ≡ styles_number styles }
    ensures small { result < 128 }
{
    bit(styles.b, 1)
        + bit(styles.c, 2)
        + bit(styles.e, 4)
        + bit(styles.i, 8)
        + bit(styles.sc, 16)
        + bit(styles.tt, 32)
        + bit(styles.ul, 64)
}

/// Returns whether `style` is open after a tag of this `effect`; `was` says whether it was open
/// before.
fn is_open_after(style: Style, effect: TagEffect, was: bool) -> bool
    ensures { result ≡ is_open_after style effect was }
{
    match effect {
        TagEffect::Opens(other) => other == style || was,
        TagEffect::Closes(other) => other != style && was,
        _ => was,
    }
}

/// Returns the styles that are open after a tag of this `effect`, if `styles` were before.
fn styles_past(styles: Styles, effect: TagEffect) -> Styles
    ensures { result ≡ styles_past styles effect }
{
    Styles {
        b: is_open_after(Style::B, effect, styles.b),
        c: is_open_after(Style::C, effect, styles.c),
        e: is_open_after(Style::E, effect, styles.e),
        i: is_open_after(Style::I, effect, styles.i),
        sc: is_open_after(Style::Sc, effect, styles.sc),
        tt: is_open_after(Style::Tt, effect, styles.tt),
        ul: is_open_after(Style::Ul, effect, styles.ul),
    }
}

/// Returns whether a token of this `kind` and `effect` is a piece; of blanks it says no.
fn is_piece(kind: TokenKind, effect: TagEffect) -> bool
    ensures { result ≡ is_some (piece_kind kind effect) }
{
    match kind {
        TokenKind::Letter | TokenKind::Raw => true,
        TokenKind::Tag => match effect {
            TagEffect::Mark | TagEffect::Other => true,
            _ => false,
        },
        _ => false,
    }
}

/// Returns whether a piece is among the tokens `ahead`.
fn has_piece(ahead: TokenReader<'_>) -> bool
    ensures { result ≡ has_piece ahead.entry }
{
    for token in ahead {
        if is_piece(token.kind, token.effect) {
            return true;
        }
    }
    false
}

/// Returns whether a letter, by how it is `spelled`, is a `$` with a character.
fn is_escape(spelled: &[u8]) -> bool
    ensures { result ≡ is_escape spelled.now }
{
    spelled.starts_with(b"$") && spelled.len() > 1
}

/// Returns the number of a raw part, by how it is `spelled`: 0 for raw TeX, 1 for a special
/// character, 2 for a text over the staff.
fn raw_number(spelled: &[u8]) -> u16
    ensures { result ≡ raw_number spelled.now }
{
    if spelled.starts_with(b"<v>") {
        0
    } else if spelled.starts_with(b"<sp>") {
        1
    } else {
        2
    }
}

/// Returns the number of a span mark, from 0 to 3; 0 for none.
fn number_of_mark(mark: Option<SpanMark>) -> u16
    ensures { result ≡ number_of_mark mark }
{
    match mark {
        Some(SpanMark::ClosesEu) => 1,
        Some(SpanMark::OpensNlba) => 2,
        Some(SpanMark::ClosesNlba) => 3,
        _ => 0,
    }
}

/// Returns the node of a tag with the bytes of `span` and this `effect`, which is spelled
/// `spelled`. Unless it is one of a style, its first number is `n`.
fn tag_node(span: Span, n: u16, spelled: &[u8], effect: TagEffect) -> Node
    requires from { span.from < 2 ^ 32 }
    requires to { span.to < 2 ^ 32 }
    ensures { result ≡ tag_node span n spelled.now effect }
{
    match effect {
        TagEffect::Opens(style) => text_node(span, Kind::StyleTag, 0, style as u16, 0),
        TagEffect::Closes(style) => text_node(span, Kind::StyleTag, 0, style as u16, 1),
        TagEffect::Mark => text_node(span, Kind::SpanMark, n, number_of_mark(mark_at(spelled)), 0),
        _ => text_node(span, Kind::Tag, n, 0, 0),
    }
}

/// Returns the bytes of `text` in `span`.
fn bytes_in(text: &str, span: Span) -> &[u8]
    requires order { span.from ≤ span.to }
    requires within { span.to ≤ length text.now }
    ensures { result.now ≡ slice_range text.now span.from span.to }
{
    &text.as_bytes()[span.from..span.to]
}

/// Adds `node`, if there is one, after `last`, the last node so far: if both are characters, they
/// become one node in `last`; else `last` goes to `out`, and `node` is the last one.
fn add(last: &mut Option<Node>, node: Option<Node>, out: &mut Vec<Node>) -> Result<(), AllocError>
    ensures { OnOk result ((later : List Node) →
        out.new.items ++ joined (option_to_list last.new ++ later)
        ≡ out.old.items ++ joined (option_to_list last.old ++ (option_to_list node ++ later))) }
{
    let Some(node) = node else {
        return Ok(());
    };
    if let Some(before) = *last {
        if before.kind == Kind::Characters && node.kind == Kind::Characters {
            *last = Some(Node {
                end: node.end,
                ..before
            });
            return Ok(());
        }
        out.push(before)?;
    }
    *last = Some(node);
    Ok(())
}

/// Adds the nodes of a syllable's text to `out` (GregorioRef, "Syllable Text Syntax"). The kept
/// text is `kept`, or `kept` up to the first `(` at which a token would begin. The nodes count its
/// bytes.
pub(crate) fn text_nodes(kept: &str, out: &mut Vec<Node>) -> Result<(), AllocError>
    requires { length kept.now < 2 ^ 32 }
    ensures { OnOk result (out.new.items ≡ out.old.items ++ text_nodes kept.now) }
{
    let mut before = Before::NOTHING;
    let mut last = None;
    let mut tokens = tokens_in(kept);
    while let Some(token) = tokens.next() {
        let spelled = bytes_in(kept, token.span);
        add(&mut last, before.node(token, spelled, tokens.ahead()), out)?;
        before = before.past(token);
    }
    if let Some(node) = last {
        out.push(node)?;
    }
    Ok(())
}
