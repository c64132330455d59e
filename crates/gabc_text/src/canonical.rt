//! The canonical text of a view.

ghost use Rattle.std.specs.Prelude.{◌≡◌, ◌-◌, ◌^◌, ◌≤◌, ◌↔◌, IsTrue, IsSome, None, Some, length, min, cond, [], drop, reverse, List, ℕ};
ghost use Rattle.std.specs.List.{flat_map};
ghost use Rattle.gabc_text.specs.machine.Runs.{text_at, text_after, text_after_run};
ghost use Rattle.gabc_text.specs.machine.ChangedStyles.{common_styles, differs, changed_styles};
ghost use Rattle.gabc_text.specs.TextSpan.{GoOn, GoOnAt, GoesOnAt, IsAsKept, IsOnePart};
ghost use Rattle.gabc_text.specs.TextView.{content_of};
ghost use Rattle.gabc_text.specs.Canonical.{after_common, style_opening, style_closing, listed_styles, braces, boundary, span_bytes, needs_dollar, piece_text, canonical_text};

use crate::styles::Styles;
use crate::token::is_special;
use crate::view::{Piece, PieceKind, TextView};
use gabc_places::{ByteCounter, Put, Span};

/// Returns the styles that are in both sets.
fn common_styles(a: Styles, b: Styles) -> Styles
    ensures { result ≡ common_styles a b }
{
    Styles {
        b: a.b && b.b,
        c: a.c && b.c,
        e: a.e && b.e,
        i: a.i && b.i,
        sc: a.sc && b.sc,
        tt: a.tt && b.tt,
        ul: a.ul && b.ul,
    }
}

/// Returns whether neighbours differ in a style, or did before.
fn differs(before: bool, old: bool, new: bool) -> bool
    ensures { result ≡ differs before old new }
{
    before || old != new
}

/// Returns the first style in which two neighbours differ, and those listed after it: these do not
/// stay open between them.
fn changed_styles(old: Styles, new: Styles) -> Styles
    ensures { result ≡ changed_styles old new }
{
    let b = differs(false, old.b, new.b);
    let c = differs(b, old.c, new.c);
    let e = differs(c, old.e, new.e);
    let i = differs(e, old.i, new.i);
    let sc = differs(i, old.sc, new.sc);
    let tt = differs(sc, old.tt, new.tt);
    Styles {
        b,
        c,
        e,
        i,
        sc,
        tt,
        ul: differs(tt, old.ul, new.ul),
    }
}

/// Puts `text`, if `wanted`.
fn put_if<S: Put>(wanted: bool, text: &str, out: &mut S)
    ensures { out.new ≡ S.taken out.old (cond wanted text.now []) }
{
    if wanted {
        out.put(text.as_bytes());
    }
}

/// Puts those of `texts` that are wanted, in order.
fn put_each<S: Put>(texts: &[(bool, &'static str)], out: &mut S)
    ensures { out.new ≡ S.taken out.old (flat_map (λ t. cond t.0 t.1.now []) texts.now) }
{
    for (wanted, text) in texts {
        put_if(*wanted, text, out);
    }
}

/// Opens `styles` in order.
fn put_opening<S: Put>(styles: Styles, out: &mut S)
    ensures { out.new ≡ S.taken out.old (flat_map style_opening (listed_styles styles)) }
{
    let tags = [
        (styles.b, "<b>"),
        (styles.c, "<c>"),
        (styles.e, "<e>"),
        (styles.i, "<i>"),
        (styles.sc, "<sc>"),
        (styles.tt, "<tt>"),
        (styles.ul, "<ul>"),
    ];
    put_each(&tags, out);
}

/// Closes `styles` from the last on.
fn put_closing<S: Put>(styles: Styles, out: &mut S)
    ensures { out.new
        ≡ S.taken out.old (flat_map style_closing (reverse (listed_styles styles))) }
{
    let tags = [
        (styles.ul, "</ul>"),
        (styles.tt, "</tt>"),
        (styles.sc, "</sc>"),
        (styles.i, "</i>"),
        (styles.e, "</e>"),
        (styles.c, "</c>"),
        (styles.b, "</b>"),
    ];
    put_each(&tags, out);
}

/// Returns the braces before the piece with the index `index`.
fn braces(centre: Option<Span>, index: usize) -> &'static str
    ensures { result.now ≡ braces centre index }
{
    match centre {
        None => "",
        Some(span) => {
            if span.from == index {
                if span.to == index { "{}" } else { "{" }
            } else if span.to == index {
                "}"
            } else {
                ""
            }
        }
    }
}

/// Returns the bytes of `span` in `kept`; none, if it does not lie in them.
fn slice_of(kept: &str, span: Span) -> &[u8]
    ensures { result.now ≡ span_bytes kept.now span }
{
    let bytes = kept.as_bytes();
    if span.from <= span.to && span.to <= bytes.len() {
        &bytes[span.from..span.to]
    } else {
        &[]
    }
}

/// Returns whether `text` is one of the characters that a `$` makes letters. Most characters are
/// small letters, so these are tried first.
fn needs_dollar(text: &[u8]) -> bool
    ensures { result ≡ needs_dollar text.now }
{
    match text {
        [b'a'..=b'z'] => false,
        [byte] => is_special(char::from(*byte)),
        _ => false,
    }
}

/// Puts `bytes`, if there are any.
fn put_some<S: Put>(bytes: &[u8], out: &mut S)
    ensures { out.new ≡ S.taken out.old bytes.now }
{
    if !bytes.is_empty() {
        out.put(bytes);
    }
}

/// Puts the bytes of `span` in `kept`, if there are any.
fn put_span<S: Put>(span: Span, kept: &str, out: &mut S)
    ensures { out.new ≡ S.taken out.old (span_bytes kept.now span) }
{
    if span.from < span.to && span.to <= kept.len() {
        out.put(&kept.as_bytes()[span.from..span.to]);
    }
}

/// Puts the tags and braces between two neighbours with the styles `old` and `new`. If these are
/// the same, there are no tags.
fn put_boundary<S: Put>(old: Styles, new: Styles, braces: &str, out: &mut S)
    ensures { out.new
        ≡ S.taken out.old (boundary (listed_styles old) (listed_styles new) braces.now) }
{
    if old == new {
        put_some(braces.as_bytes(), out);
    } else {
        put_change(old, new, braces, out);
    }
}

/// Puts the tags and braces between two neighbours with the styles `old` and `new`. Few neighbours
/// differ, so it stays out of line.
#[inline(never)]
fn put_change<S: Put>(old: Styles, new: Styles, braces: &str, out: &mut S)
    ensures { out.new
        ≡ S.taken out.old (boundary (listed_styles old) (listed_styles new) braces.now) }
{
    let changed = changed_styles(old, new);
    put_closing(common_styles(old, changed), out);
    put_some(braces.as_bytes(), out);
    put_opening(common_styles(new, changed), out);
}

/// Returns whether `span` lies in the bytes of `kept`.
fn lies_in(span: Span, kept: &str) -> bool
    ensures { IsTrue result ↔ (span.from ≤ span.to) × (span.to ≤ length kept.now) }
{
    span.from <= span.to && span.to <= kept.len()
}

/// Returns whether the span of `piece` lies in `kept`, and its bytes there are the text of `piece`.
#[inline(always)]
fn is_as_kept(piece: Piece, kept: &str) -> bool
    ensures text { IsTrue result → piece_text kept.now piece ≡ span_bytes kept.now piece.span }
    ensures ordered { IsTrue result → piece.span.from ≤ piece.span.to }
    ensures within { IsTrue result → piece.span.to ≤ length kept.now }
    ensures all { IsAsKept kept.now piece → IsTrue result }
{
    if !lies_in(piece.span, kept) {
        return false;
    }
    match piece.kind {
        PieceKind::Char => !needs_dollar(slice_of(kept, piece.span)),
        PieceKind::Blank => matches!(slice_of(kept, piece.span), [b' ']),
        _ => true,
    }
}

/// Returns whether `piece` begins at the end of `run`, after a piece with the styles `old`, and
/// adds nothing but its kept bytes.
#[inline(always)]
fn joins(run: Span, old: Styles, piece: Piece, braces: &str, kept: &str) -> bool
    ensures text { IsTrue result → piece_text kept.now piece ≡ span_bytes kept.now piece.span }
    ensures ordered { IsTrue result → piece.span.from ≤ piece.span.to }
    ensures within { IsTrue result → piece.span.to ≤ length kept.now }
    ensures meets { IsTrue result → run.to ≡ piece.span.from }
    ensures styles { IsTrue result → old ≡ piece.styles }
    ensures no_braces { IsTrue result → braces.now ≡ [] }
    ensures all { braces.now ≡ [] → GoesOnAt kept.now old run.to piece → IsTrue result }
{
    if old != piece.styles {
        return false;
    }
    run.to == piece.span.from && braces.is_empty() && is_as_kept(piece, kept)
}

/// Puts the part of the text of `piece` before its kept bytes, and returns the span of these.
fn put_head<S: Put>(piece: Piece, kept: &str, out: &mut S) -> Span
    ensures text { S.taken out.new (span_bytes kept.now result)
        ≡ S.taken out.old (piece_text kept.now piece) }
    ensures ordered { result.from ≤ result.to }
{
    if is_as_kept(piece, kept) {
        return piece.span;
    }
    let span = if lies_in(piece.span, kept) {
        piece.span
    } else {
        Span { from: 0, to: 0 }
    };
    match piece.kind {
        PieceKind::Blank => {
            out.put(b" ");
            Span {
                from: span.to,
                to: span.to,
            }
        }
        PieceKind::Char => {
            put_if(needs_dollar(slice_of(kept, span)), "$", out);
            span
        }
        _ => span,
    }
}

/// Pieces whose text is one part of the kept bytes: that part, and the index of the piece after
/// them.
#[derive(Clone, Copy)]
struct Run {
    span: Span,
    next: usize,
}

/// Returns the run of no pieces, before the first piece.
fn first_run(pieces: &[Piece]) -> Run
    ensures empty { result.span.from ≡ result.span.to }
    ensures first { result.next ≡ 0 }
    ensures start { (kept : List ℕ) → GoOn kept pieces.now →
        GoOnAt kept Styles.NONE result.span.to pieces.now }
{
    let from = match pieces {
        [first, ..] => first.span.from,
        [] => 0,
    };
    Run {
        span: Span { from, to: from },
        next: 0,
    }
}

/// Returns `run` with all of `pieces` that join it, if its styles are `old`. The loop is over most
/// pieces and puts no bytes, so its variables stay in registers. It is compiled in place, so that
/// what is known of `centre` and `old` there is not tested in the loop.
#[inline(always)]
fn joined_run(pieces: &[Piece], centre: Option<Span>, kept: &str, old: Styles, run: Run) -> Run
    requires ordered { run.span.from ≤ run.span.to }
    requires within { run.next ≤ length pieces.now }
    ensures text { text_after_run centre pieces.now kept.now old result
        ≡ text_after_run centre pieces.now kept.now old run }
    ensures after { run.next ≤ result.next }
    ensures within { result.next ≤ length pieces.now }
    ensures all { centre ≡ None → GoOnAt kept.now old run.span.to (drop run.next pieces.now) →
        result.next ≡ length pieces.now }
{
    let mut span = run.span;
    for index in run.next..pieces.len() {
        let piece = pieces[index];
        if !joins(span, old, piece, braces(centre, index), kept) {
            return Run { span, next: index };
        }
        span.to = piece.span.to;
    }
    Run {
        span,
        next: pieces.len(),
    }
}

/// Returns `run` with all pieces of `view` that join it, if its styles are `old`.
#[inline(never)]
fn whole_run(view: &TextView, kept: &str, old: Styles, run: Run) -> Run
    requires ordered { run.span.from ≤ run.span.to }
    requires within { run.next ≤ length view.now.pieces.items }
    ensures text { text_after view.now kept.now old result
        ≡ text_after view.now kept.now old run }
    ensures after { run.next ≤ result.next }
    ensures within { result.next ≤ length view.now.pieces.items }
{
    joined_run(view.pieces.as_slice(), view.centre, kept, old, run)
}

/// Puts `run` with all pieces that join it, if its styles are `old`, and returns the index of the
/// piece after them.
fn put_run<S: Put>(view: &TextView, kept: &str, old: Styles, run: Run, out: &mut S) -> usize
    requires ordered { run.span.from ≤ run.span.to }
    requires within { run.next ≤ length view.now.pieces.items }
    ensures text { S.taken out.new (text_at view.now kept.now old result)
        ≡ S.taken out.old (text_after view.now kept.now old run) }
    ensures after { run.next ≤ result }
    ensures within { result ≤ length view.now.pieces.items }
{
    let whole = whole_run(view, kept, old, run);
    put_span(whole.span, kept, out);
    whole.next
}

/// Puts the canonical text of `view` without its translation, whose spans count the bytes of
/// `kept`: its pieces with the tags of their styles, one inside another (GregorioRef, "Syllable
/// Text Syntax"). A span that does not lie in the kept text is empty. A room with fewer than
/// `text_len` bytes left takes as many of them as fit. It does not allocate.
pub fn write_text<S: Put>(view: &TextView, kept: &str, out: &mut S)
    ensures { out.new ≡ S.taken out.old (canonical_text (content_of view.now) kept.now) }
{
    match text_span(view, kept) {
        Some(span) => put_span(span, kept, out),
        None => write_pieces(view, kept, out),
    }
}

/// Puts the text of `write_text`, piece by piece. It stays out of line, so that `write_text` is
/// short.
#[inline(never)]
fn write_pieces<S: Put>(view: &TextView, kept: &str, out: &mut S)
    ensures { out.new ≡ S.taken out.old (canonical_text (content_of view.now) kept.now) }
{
    let pieces = view.pieces.as_slice();
    let mut old = Styles::NONE;
    let mut next = put_run(view, kept, old, first_run(pieces), out);
    while next < pieces.len() {
        let piece = pieces[next];
        put_boundary(old, piece.styles, braces(view.centre, next), out);
        let span = put_head(piece, kept, out);
        old = piece.styles;
        let run = Run {
            span,
            next: next + 1,
        };
        next = put_run(view, kept, old, run, out);
    }
    put_boundary(old, Styles::NONE, braces(view.centre, next), out);
}

/// Returns a span of `kept` that is the canonical text of `view`. It returns one at least if `view`
/// has no centre and no style, and its pieces follow one another in `kept` as they are printed. The
/// span of an empty text may be any without bytes.
#[inline(always)]
pub fn text_span(view: &TextView, kept: &str) -> Option<Span>
    ensures text { (span : Span) → result ≡ Some span →
        canonical_text (content_of view.now) kept.now ≡ span_bytes kept.now span }
    ensures one { IsOnePart (content_of view.now) kept.now → IsSome result }
{
    let None = view.centre else {
        return None;
    };
    let pieces = view.pieces.as_slice();
    let whole = joined_run(pieces, None, kept, Styles::NONE, first_run(pieces));
    if whole.next == pieces.len() {
        Some(whole.span)
    } else {
        None
    }
}

/// Returns the number of bytes that `write_text` puts; it saturates at the last value of a `usize`.
pub fn text_len(view: &TextView, kept: &str) -> usize
    ensures { result ≡ min (length (canonical_text (content_of view.now) kept.now)) (2 ^ 64 - 1) }
{
    let mut counter = ByteCounter::new();
    write_text(view, kept, &mut counter);
    counter.count()
}
