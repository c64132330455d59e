//! The lines of an NABC snippet in a dump.

ghost use Rattle.std.specs.Prelude.{◌≡◌, ◌≤◌, ◌++◌, codes, length, encode_utf8};
ghost use Rattle.std.specs.Fmt.{decimal};
ghost use Rattle.std.specs.List.{flat_map};
ghost use Rattle.gabc_nabc.specs.Parts.{parts_of};
ghost use Rattle.gabc_write.specs.DumpOfNabc.{name_of_code, names_of, line_of_part, lines_of_nabc};
ghost use Rattle.gabc_write.specs.machine.NamesAfterFirst.{names_after};

use crate::dump_item::put_last;
use crate::escape::put_ended;
use gabc_nabc::{CodeReader, Descriptor, GlyphCode, codes_in, parts_in};
use gabc_places::Put;
use itoa::Buffer;

/// Puts the letter `c`.
fn put_letter<S: Put>(c: char, out: &mut S)
    ensures { out.new ≡ S.taken out.old (encode_utf8 c) }
{
    out.put(c.encode_utf8(&mut [0; 4]).as_bytes());
}

/// Puts the name of `code`. A code without a name is its own name.
fn put_name<S: Put>(code: GlyphCode, out: &mut S)
    ensures { out.new ≡ S.taken out.old (name_of_code code) }
{
    match code.name() {
        Some(name) => out.put(name.as_bytes()),
        None => {
            put_letter(code.first, out);
            put_letter(code.second, out);
        }
    }
}

/// Puts the names of `codes`, each with a `!` before it.
fn put_joined<S: Put>(codes: CodeReader<'_>, out: &mut S)
    ensures { out.new ≡ S.taken out.old (names_after codes.entry) }
{
    for code in codes {
        out.put(b"!");
        put_name(code, out);
    }
}

/// Puts the names of `codes`, with a `!` between them.
#[tactic(auto, using(crate::proofs::NamesAfterFirst::names_by_first))]
fn put_names<S: Put>(codes: CodeReader<'_>, out: &mut S)
    ensures { out.new ≡ S.taken out.old (names_of codes.entry) }
{
    let mut others = codes;
    if let Some(first) = others.next() {
        put_name(first, out);
        put_joined(others, out);
    }
}

/// Puts the line of `part` of `kept`.
fn put_part<S: Put>(kept: &str, part: Descriptor, out: &mut S)
    requires order { part.span.from ≤ part.span.to }
    requires within { part.span.to ≤ length kept.now }
    ensures { out.new ≡ S.taken out.old (line_of_part kept.now part) }
{
    let spelled = &kept.as_bytes()[part.span.from..part.span.to];
    if part.space {
        out.put(b"space ");
        put_last(spelled, out);
    } else {
        out.put(b"descriptor ");
        put_ended(spelled, b' ', out);
        put_names(codes_in(kept, part), out);
        out.put(b"\n");
    }
}

/// Puts the lines of the parts of `kept`.
fn put_parts<S: Put>(kept: &str, out: &mut S)
    ensures { out.new ≡ S.taken out.old (flat_map (line_of_part kept.now) (parts_of kept.now)) }
{
    for part in parts_in(kept) {
        put_part(kept, part, out);
    }
}

/// Puts `nabc LINE:`. A score has at most four NABC lines.
fn put_line_number<S: Put>(line: u8, out: &mut S)
    ensures { out.new ≡ S.taken out.old (codes "nabc " ++ (decimal line ++ codes ":")) }
{
    match line {
        0..=9 => out.put(&[b'n', b'a', b'b', b'c', b' ', b'0' + line, b':']),
        _ => {
            out.put(b"nabc ");
            out.put(Buffer::new().format(line).as_bytes());
            out.put(b":");
        }
    }
}

/// Puts the lines of the snippet `kept` of the NABC line `line`: `nabc LINE:S` and those of its
/// parts.
pub(crate) fn put_nabc<S: Put>(line: u8, kept: &str, out: &mut S)
    ensures { out.new ≡ S.taken out.old (lines_of_nabc line kept.now) }
{
    put_line_number(line, out);
    put_last(kept.as_bytes(), out);
    put_parts(kept, out);
}
