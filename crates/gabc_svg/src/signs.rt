//! Puts heads and signs.

ghost use Rattle.std.specs.Prelude.{◌≡◌, ◌∷◌, [], ◌++◌, codes};
ghost use Rattle.std.specs.Fmt.{signed_decimal};
ghost use Rattle.std.specs.List.{flat_map};
ghost use Rattle.gabc_svg.specs.Escape.{escaped};
ghost use Rattle.gabc_svg.specs.OutlineNames.{name_of_head, name_of_nabc, name_of_symbol as symbol_name};
ghost use Rattle.gabc_svg.specs.Xml.{written, written_attribute, written_attributes};
ghost use Rattle.gabc_svg.specs.Page.{outline, sides, rect_content, staff_line_content, field_content, steps_of, course, bow_content, use_content, nabc_at, nabc_content, sign_content, signs_content, head_content, heads_content};

use crate::escape::{put_escaped, put_signed};
use crate::outline_names::{name_of_symbol, put_head_name, put_nabc_name};
use crate::tag::{Name, Tag};
use crate::texts::{height_of_level, put_words};
use crate::xml::{begin_tag, begin_value, put_attribute, put_distance};
use gabc_marks::{
    Bow, Distance, Head, Level, Levels, NabcLine, NabcOutline, NoteHead, Sign, Symbol, height_of,
};
use gabc_places::Put;

/// Puts the attribute that names the outline of `head`.
#[tactic(auto, using(crate::proofs::Written::steps), unfolding(crate::specs::Xml::written_attribute))]
fn put_head_outline<S: Put>(head: Head, out: &mut S)
    ensures { out.new ≡ S.taken out.old (written_attribute (outline (name_of_head head))) }
{
    begin_value(Name::Href, out);
    put_escaped("#", out);
    put_head_name(head, out);
    out.put(b"\"");
}

/// Puts the attribute that names the outline of `symbol`.
#[tactic(auto, using(crate::proofs::Written::steps), unfolding(crate::specs::Xml::written_attribute))]
fn put_symbol_outline<S: Put>(symbol: Symbol, out: &mut S)
    ensures { out.new ≡ S.taken out.old (written_attribute (outline (symbol_name symbol ∷ []))) }
{
    begin_value(Name::Href, out);
    put_escaped("#", out);
    put_escaped(name_of_symbol(symbol), out);
    out.put(b"\"");
}

/// Puts the head of a note, or of several, at the height of its pitch.
#[tactic(auto, using(crate::proofs::Written::steps), unfolding(crate::specs::Xml::written, crate::specs::Xml::opened, crate::specs::Page::use_content, crate::specs::Page::head_content))]
fn put_head<S: Put>(head: NoteHead, out: &mut S)
    ensures { out.new ≡ S.taken out.old (written (head_content head)) }
{
    begin_tag(Tag::Use, out);
    put_head_outline(head.head, out);
    put_distance(Name::X, head.x, out);
    put_distance(Name::Y, height_of(head.pitch), out);
    out.put(b"/>");
}

/// Puts heads.
#[tactic(auto, using(crate::proofs::Written::steps))]
pub(crate) fn put_heads<S: Put>(heads: &[NoteHead], out: &mut S)
    ensures { out.new ≡ S.taken out.old (written (heads_content heads.now)) }
{
    let mut rest = heads;
    while let [head, more @ ..] = rest {
        put_head(*head, out);
        rest = more;
    }
}

/// Puts the outline of `symbol` with its origin at `x` and `y`.
#[tactic(auto, using(crate::proofs::Written::steps), unfolding(crate::specs::Xml::written, crate::specs::Xml::opened, crate::specs::Page::use_content))]
fn put_symbol<S: Put>(symbol: Symbol, x: Distance, y: Distance, out: &mut S)
    ensures { out.new ≡ S.taken out.old (written (use_content (symbol_name symbol ∷ []) x.0 y.0)) }
{
    begin_tag(Tag::Use, out);
    put_symbol_outline(symbol, out);
    put_distance(Name::X, x, out);
    put_distance(Name::Y, y, out);
    out.put(b"/>");
}

/// Puts the attribute that names an outline of NABC.
#[tactic(auto, using(crate::proofs::Written::steps), unfolding(crate::specs::Xml::written_attribute))]
fn put_nabc_outline<S: Put>(nabc: NabcOutline, out: &mut S)
    ensures { out.new ≡ S.taken out.old (written_attribute (outline (name_of_nabc nabc))) }
{
    begin_value(Name::Href, out);
    put_escaped("#", out);
    put_nabc_name(nabc, out);
    out.put(b"\"");
}

/// Returns the distance below the lowest line of the staff of a place `y` below `line` of NABC, in
/// a row with these `levels`.
fn nabc_height(levels: Levels, line: NabcLine, y: Distance) -> Distance
    ensures { result.0 ≡ nabc_at levels line y.0 }
{
    Distance(
        height_of_level(levels, Level::Nabc(line))
            .0
            .saturating_add(y.0),
    )
}

/// Puts an outline of NABC, `y` below its `line` in a row with these `levels`.
#[tactic(auto, using(crate::proofs::Written::steps), unfolding(crate::specs::Xml::written, crate::specs::Xml::opened, crate::specs::Page::nabc_content))]
fn put_nabc<S: Put>(
    levels: Levels,
    nabc: NabcOutline,
    line: NabcLine,
    x: Distance,
    y: Distance,
    out: &mut S,
)
    ensures { out.new ≡ S.taken out.old (written (nabc_content levels nabc line x.0 y.0)) }
{
    begin_tag(Tag::Use, out);
    put_nabc_outline(nabc, out);
    put_distance(Name::X, x, out);
    put_distance(Name::Y, nabc_height(levels, line, y), out);
    put_attribute(Name::Class, "nabc", out);
    out.put(b"/>");
}

/// Puts the place and the size of a rectangle, and ends its tag.
fn put_sides<S: Put>(x: Distance, y: Distance, width: Distance, height: Distance, out: &mut S)
    ensures { out.new ≡ S.taken out.old
        (written_attributes (sides x.0 y.0 width.0 height.0) ++ codes "/>") }
{
    put_distance(Name::X, x, out);
    put_distance(Name::Y, y, out);
    put_distance(Name::Width, width, out);
    put_distance(Name::Height, height, out);
    out.put(b"/>");
}

/// Puts a black rectangle.
#[tactic(auto, using(crate::proofs::Written::steps), unfolding(crate::specs::Xml::written, crate::specs::Xml::opened, crate::specs::Page::rect_content))]
fn put_rect<S: Put>(x: Distance, y: Distance, width: Distance, height: Distance, out: &mut S)
    ensures { out.new ≡ S.taken out.old (written (rect_content x.0 y.0 width.0 height.0)) }
{
    begin_tag(Tag::Rect, out);
    put_sides(x, y, width, height, out);
}

/// Puts a line of the staff.
#[tactic(auto, using(crate::proofs::Written::steps), unfolding(crate::specs::Xml::written, crate::specs::Xml::opened, crate::specs::Page::staff_line_content))]
fn put_staff_line<S: Put>(x: Distance, y: Distance, width: Distance, out: &mut S)
    ensures { out.new ≡ S.taken out.old (written (staff_line_content x.0 y.0 width.0)) }
{
    begin_tag(Tag::Rect, out);
    put_attribute(Name::Class, "staff", out);
    put_sides(x, y, width, Distance(70), out);
}

/// Puts a field of a message.
#[tactic(auto, using(crate::proofs::Written::steps), unfolding(crate::specs::Xml::written, crate::specs::Xml::opened, crate::specs::Page::field_content))]
fn put_field<S: Put>(
    x: Distance,
    y: Distance,
    width: Distance,
    height: Distance,
    is_warning: bool,
    out: &mut S,
)
    ensures { out.new ≡ S.taken out.old
        (written (field_content x.0 y.0 width.0 height.0 is_warning)) }
{
    begin_tag(Tag::Rect, out);
    put_attribute(Name::Class, if is_warning { "mark w" } else { "mark" }, out);
    put_sides(x, y, width, height, out);
}

/// Puts the course of `bow`: its begin, the point towards which it bends, and its end.
fn put_steps<S: Put>(bow: Bow, out: &mut S)
    ensures { out.new ≡ S.taken out.old (flat_map escaped (steps_of bow)) }
{
    put_escaped("M", out);
    put_signed(bow.x.0, out);
    put_escaped(",", out);
    put_signed(bow.y.0, out);
    put_escaped("q", out);
    put_signed(bow.bend_x.0, out);
    put_escaped(",", out);
    put_signed(bow.bend_y.0, out);
    put_escaped(" ", out);
    put_signed(bow.to_x.0, out);
    put_escaped(",", out);
    put_signed(bow.to_y.0, out);
}

/// Puts the attribute with the course of `bow`.
#[tactic(auto, using(crate::proofs::Written::steps), unfolding(crate::specs::Xml::written_attribute))]
fn put_course<S: Put>(bow: Bow, out: &mut S)
    ensures { out.new ≡ S.taken out.old (written_attribute (course bow)) }
{
    begin_value(Name::Course, out);
    put_steps(bow, out);
    out.put(b"\"");
}

/// Puts a bow.
#[tactic(auto, using(crate::proofs::Written::steps), unfolding(crate::specs::Xml::written, crate::specs::Xml::opened, crate::specs::Page::bow_content))]
fn put_bow<S: Put>(bow: Bow, out: &mut S)
    ensures { out.new ≡ S.taken out.old (written (bow_content bow)) }
{
    begin_tag(Tag::Path, out);
    put_attribute(Name::Class, "curve", out);
    put_course(bow, out);
    out.put(b"/>");
}

/// Puts `sign` in a row with these `levels`.
#[tactic(auto, using(crate::proofs::Written::steps), unfolding(crate::specs::Page::sign_content))]
fn put_sign<S: Put>(levels: Levels, sign: Sign<'_>, out: &mut S)
    ensures { out.new ≡ S.taken out.old (written (sign_content levels sign.entry)) }
{
    match sign {
        Sign::Symbol { symbol, x, y } => put_symbol(symbol, x, y, out),
        Sign::Rect {
            x,
            y,
            width,
            height,
        } => put_rect(x, y, width, height, out),
        Sign::StaffLine { x, y, width } => put_staff_line(x, y, width, out),
        Sign::Words(words) => put_words(levels, words, out),
        Sign::Nabc {
            outline,
            line,
            x,
            y,
        } => put_nabc(levels, outline, line, x, y, out),
        Sign::Bow(bow) => put_bow(bow, out),
        Sign::Field {
            x,
            y,
            width,
            height,
            is_warning,
        } => put_field(x, y, width, height, is_warning, out),
    }
}

/// Puts signs in a row with these `levels`.
#[tactic(auto, using(crate::proofs::Written::steps))]
pub(crate) fn put_signs<S: Put>(levels: Levels, signs: &[Sign<'_>], out: &mut S)
    ensures { out.new ≡ S.taken out.old (written (signs_content levels signs.now)) }
{
    let mut rest = signs;
    while let [sign, more @ ..] = rest {
        put_sign(levels, *sign, out);
        rest = more;
    }
}
