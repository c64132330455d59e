//! The canonical header lines.

ghost use Rattle.std.specs.Prelude.{◌≡◌, ◌++◌, encode_utf8_all};
ghost use Rattle.std.specs.Str.{chars};
ghost use Rattle.gabc_headers.specs.Canonical.{canonical_heads, header_line, wants_lines};
ghost use Rattle.gabc_headers.specs.Lines.{lines};
ghost use Rattle.gabc_headers.specs.machine.HeaderText.{before_value, after_value};

use crate::headers::Headers;
use gabc_places::Put;

/// Returns whether `value` is written on lines of its own: it has several lines, or would end too
/// early on its header's line (GregorioRef, "Headers").
pub fn wants_own_lines(value: &str) -> bool
    ensures { result ≡ wants_lines (lines (chars value.now)) }
{
    let mut at_mark = false;
    let mut wants = false;
    for c in value.chars() {
        match c {
            '\n' => wants = true,
            ';' => at_mark = true,
            '%' => wants = wants || at_mark,
            ' ' | '\t' => {}
            _ => at_mark = false,
        }
    }
    wants || at_mark
}

/// The text before and after the value of a header.
#[derive(Clone, Copy)]
struct Frame {
    before: &'static str,
    after: &'static str,
}

/// Returns the frame of `value`: an empty one has no blank before it, and one on its own lines ends
/// with two `;`.
fn frame_of(value: &str) -> Frame
    ensures before { result.before.now
        ≡ before_value (wants_lines (lines (chars value.now))) (chars value.now) }
    ensures after { result.after.now
        ≡ after_value (wants_lines (lines (chars value.now))) (chars value.now) }
{
    if value.is_empty() {
        Frame {
            before: ":",
            after: ";\n",
        }
    } else if wants_own_lines(value) {
        Frame {
            before: ":\n ",
            after: ";;\n",
        }
    } else {
        Frame {
            before: ": ",
            after: ";\n",
        }
    }
}

/// Puts `name`, and `value` in its `frame`.
fn put_framed<S: Put>(name: &str, value: &str, frame: Frame, out: &mut S)
    ensures { out.new
        ≡ S.taken out.old (name.now ++ (frame.before.now ++ (value.now ++ frame.after.now))) }
{
    out.put(name.as_bytes());
    out.put(frame.before.as_bytes());
    out.put(value.as_bytes());
    out.put(frame.after.as_bytes());
}

/// Puts the canonical line, or lines, of the header with the name `name` and the value `value`.
pub(crate) fn put_header<S: Put>(name: &str, value: &str, out: &mut S)
    ensures { out.new
        ≡ S.taken out.old (encode_utf8_all (header_line (chars name.now, chars value.now))) }
{
    put_framed(name, value, frame_of(value), out);
}

/// Puts the canonical header lines of `headers` and `%%`, as many bytes as
/// `HeaderBook::canonical_len` returns. A room with fewer bytes left takes as many of them as fit.
pub fn canon_header<S: Put>(headers: Headers<'_>, out: &mut S)
    ensures { out.new ≡ S.taken out.old (encode_utf8_all (canonical_heads headers.entry)) }
{
    for (name, value) in headers {
        put_header(name, value, out);
    }
    out.put(b"%%");
}
