//! The dump: its first and its last lines.

ghost use Rattle.std.specs.Prelude.{◌≡◌, ◌≤◌, ◌+◌, ◌*◌, encode_utf8_all, length};
ghost use Rattle.std.specs.Str.{chars};
ghost use Rattle.gabc_headers.specs.Canonical.{canonical_heads};
ghost use Rattle.gabc_write.specs.DumpLines.{line_of_header, dump_heads, end_line};

use crate::escape::put_escaped;
use gabc_headers::Headers;
use gabc_places::Put;
use itoa::Buffer;

/// Puts the line of the header with this `name` and `value`: `header NAME:VALUE` and LF.
fn put_header<S: Put>(name: &str, value: &str, out: &mut S)
    ensures { out.new ≡ S.taken out.old (line_of_header (chars name.now, chars value.now)) }
{
    out.put(b"header ");
    put_escaped(name.as_bytes(), out);
    out.put(b":");
    put_escaped(value.as_bytes(), out);
    out.put(b"\n");
}

/// Puts the beginning of a dump, before its syllables: `dump 2`, and a line for each of `headers`.
/// In names and values a backslash is written `\\` and an LF `\n`. It has at most three times as
/// many bytes as `HeaderBook::canonical_len` returns, and 7. A room with fewer bytes left takes as
/// many of them as fit.
pub fn dump_header<S: Put>(headers: Headers<'_>, out: &mut S)
    ensures put { out.new ≡ S.taken out.old (dump_heads headers.entry) }
    ensures short { length (dump_heads headers.entry)
        ≤ 3 * length (encode_utf8_all (canonical_heads headers.entry)) + 7 }
{
    out.put(b"dump 2\n");
    for (name, value) in headers {
        put_header(name, value, out);
    }
}

/// Puts the last line of a dump, for `count` syllables: `end COUNT` and LF, at most 25 bytes.
pub fn dump_end<S: Put>(count: u64, out: &mut S)
    ensures put { out.new ≡ S.taken out.old (end_line count) }
    ensures short { length (end_line count) ≤ 25 }
{
    out.put(b"end ");
    out.put(Buffer::new().format(count).as_bytes());
    out.put(b"\n");
}
