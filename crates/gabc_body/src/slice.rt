//! Spans of a kept text.

ghost use Rattle.std.specs.Prelude.{◌≡◌};
ghost use Rattle.gabc_body.specs.Syllable.{slice, text_at};

use gabc_places::Span;

/// Returns the bytes of `span` in `kept`, without those past its end.
pub(crate) fn slice_of(kept: &str, span: Span) -> &[u8]
    ensures { result.now ≡ slice span kept.now }
{
    let bytes = kept.as_bytes();
    let from = span.from.min(bytes.len());
    let to = span.to.min(bytes.len()).max(from);
    &bytes[from..to]
}

/// Returns the text of `span` in `kept`. A span that does not begin and end between characters of
/// `kept` has none.
pub fn text_in(kept: &str, span: Span) -> &str
    ensures { result.now ≡ text_at span kept.now }
{
    if span.from > span.to || !kept.is_char_boundary(span.from) || !kept.is_char_boundary(span.to) {
        return "";
    }
    &kept[span.from..span.to]
}
