//! Puts the text of a picture.

ghost use Rattle.std.specs.Prelude.{◌≡◌, ◌≤◌, ◌+◌, ◌-◌, length};
ghost use Rattle.std.specs.List.{flat_map};
ghost use Rattle.gabc_svg.specs.Escape.{escaped};
ghost use Rattle.gabc_svg.specs.Xml.{and_then, written, written_attributes, written_attribute};
ghost use Rattle.gabc_svg.specs.Page.{translation, moved_to, heads_content, signs_content, part_attributes, parts_in, parts_here, part_content, parts_content, row_content, rows_content, title_content, view_box, root_attributes, flat_levels, page_of};

use crate::escape::{put_escaped, put_signed};
use crate::signs::{put_heads, put_signs};
use crate::tag::{Name, Tag};
use crate::xml::{begin_tag, begin_value, close_tag, put_attribute, put_number};
use gabc_marks::{Distance, Levels, Part, Picture, Row};
use gabc_places::Put;

/// The levels of signs that are in no row.
const FLAT: Levels = Levels {
    text: Distance::ZERO,
    translation: Distance::ZERO,
    above: Distance::ZERO,
    first: Distance::ZERO,
    second: Distance::ZERO,
    third: Distance::ZERO,
    fourth: Distance::ZERO,
};

/// Puts the value of the attribute that moves a group by `x` and `y`.
fn put_translation<S: Put>(x: Distance, y: Distance, out: &mut S)
    ensures { out.new ≡ S.taken out.old (flat_map escaped (translation x.0 y.0)) }
{
    put_escaped("translate(", out);
    put_signed(x.0, out);
    put_escaped(",", out);
    put_signed(y.0, out);
    put_escaped(")", out);
}

/// Puts the attribute that moves a group by `x` and `y`.
#[tactic(auto, using(crate::proofs::Written::steps), unfolding(crate::specs::Xml::written_attribute))]
fn put_moved<S: Put>(x: Distance, y: Distance, out: &mut S)
    ensures { out.new ≡ S.taken out.old (written_attribute (moved_to x.0 y.0)) }
{
    begin_value(Name::Transform, out);
    put_translation(x, y, out);
    out.put(b"\"");
}

/// Puts the attributes of the group of `part`.
fn put_part_attributes<S: Put>(part: &Part<'_>, out: &mut S)
    ensures { out.new ≡ S.taken out.old (written_attributes (part_attributes part.now)) }
{
    put_attribute(Name::Class, "syllable", out);
    put_number(Name::Begin, part.begin, out);
    put_number(Name::End, part.end, out);
    put_moved(part.x, Distance::ZERO, out);
}

/// Puts the heads and the signs of `part` in a row with these `levels`.
fn put_inner<S: Put>(levels: Levels, part: &Part<'_>, out: &mut S)
    ensures { out.new ≡ S.taken out.old
        (written (and_then (heads_content part.now.heads.items) (signs_content levels part.now.signs.items))) }
{
    put_heads(part.heads.as_slice(), out);
    put_signs(levels, part.signs.as_slice(), out);
}

/// Puts the group of `part` in a row with these `levels`.
#[tactic(auto, using(crate::proofs::Written::steps), unfolding(crate::specs::Xml::written, crate::specs::Xml::opened, crate::specs::Page::part_content))]
fn put_part<S: Put>(levels: Levels, part: &Part<'_>, out: &mut S)
    ensures { out.new ≡ S.taken out.old (written (part_content levels part.now)) }
{
    begin_tag(Tag::Group, out);
    put_part_attributes(part, out);
    out.put(b">");
    put_inner(levels, part, out);
    close_tag(Tag::Group, out);
}

/// Puts the groups of `parts` in a row with these `levels`.
#[tactic(auto, using(crate::proofs::Written::steps))]
fn put_parts<S: Put>(levels: Levels, parts: &[Part<'_>], out: &mut S)
    ensures { out.new ≡ S.taken out.old (written (parts_content levels parts.now)) }
{
    let mut rest = parts;
    while let [part, more @ ..] = rest {
        put_part(levels, part, out);
        rest = more;
    }
}

/// Puts the group of `row`, which has these `parts`.
#[tactic(auto, using(crate::proofs::Written::steps), unfolding(crate::specs::Xml::written, crate::specs::Xml::opened, crate::specs::Page::row_content))]
fn put_row<S: Put>(row: &Row<'_>, parts: &[Part<'_>], out: &mut S)
    ensures { out.new ≡ S.taken out.old (written (row_content row.now parts.now)) }
{
    begin_tag(Tag::Group, out);
    put_attribute(Name::Class, "row", out);
    put_moved(row.x, row.y, out);
    out.put(b">");
    put_signs(row.levels, row.signs.as_slice(), out);
    put_parts(row.levels, parts, out);
    close_tag(Tag::Group, out);
}

/// Returns the number of the `left` parts that `row` has, after which `later` come: all of them if
/// it is the last row.
fn count_of(row: &Row<'_>, later: &[Row<'_>], left: usize) -> usize
    ensures count { result ≡ parts_in row.now later.now left }
    ensures within { result ≤ left }
{
    match later {
        [] => left,
        [_, ..] => row.parts.min(left),
    }
}

/// Puts the group of `row`, after which `later` come, with its parts of those from `passed` on, and
/// returns the index of the next row's first part.
fn put_next_row<S: Put>(
    row: &Row<'_>,
    later: &[Row<'_>],
    parts: &[Part<'_>],
    passed: usize,
    out: &mut S,
) -> usize
    requires { passed ≤ length parts.now }
    ensures put { out.new ≡ S.taken out.old
        (written (row_content row.now (parts_here row.now later.now parts.now passed))) }
    ensures passed { result ≡ passed + parts_in row.now later.now (length parts.now - passed) }
    ensures within { result ≤ length parts.now }
{
    let count = count_of(row, later, parts.len() - passed);
    put_row(row, &parts[passed..passed + count], out);
    passed + count
}

/// Puts the groups of `rows` with their `parts`: the last one has all that are left.
fn put_rows<S: Put>(rows: &[Row<'_>], parts: &[Part<'_>], out: &mut S)
    ensures { out.new ≡ S.taken out.old (written (rows_content rows.now parts.now)) }
{
    let mut rest = rows;
    let mut passed = 0;
    while let [row, more @ ..] = rest {
        passed = put_next_row(row, more, parts, passed, out);
        rest = more;
    }
}

/// Puts the name of a score as its title, if it has one.
#[tactic(auto, using(crate::proofs::Written::steps), unfolding(crate::specs::Xml::written, crate::specs::Xml::opened, crate::specs::Page::title_content))]
fn put_title<S: Put>(name: &str, out: &mut S)
    ensures { out.new ≡ S.taken out.old (written (title_content name.now)) }
{
    if !name.is_empty() {
        begin_tag(Tag::Title, out);
        out.put(b">");
        put_escaped(name, out);
        close_tag(Tag::Title, out);
    }
}

/// Puts the attribute with the width and the height of `picture`.
#[tactic(auto, using(crate::proofs::Written::steps), unfolding(crate::specs::Xml::written_attribute))]
fn put_view_box<S: Put>(picture: &Picture<'_>, out: &mut S)
    ensures { out.new ≡ S.taken out.old (written_attribute (view_box picture.now)) }
{
    begin_value(Name::ViewBox, out);
    put_escaped("0 0 ", out);
    put_signed(picture.width.0, out);
    put_escaped(" ", out);
    put_signed(picture.height.0, out);
    out.put(b"\"");
}

/// Puts the attributes of a picture.
fn put_root_attributes<S: Put>(picture: &Picture<'_>, out: &mut S)
    ensures { out.new ≡ S.taken out.old (written_attributes (root_attributes picture.now)) }
{
    put_attribute(Name::Xmlns, "http://www.w3.org/2000/svg", out);
    put_attribute(Name::Space, "preserve", out);
    put_view_box(picture, out);
    put_attribute(Name::Class, "chant", out);
}

/// Puts the text of `picture`.
#[tactic(auto, using(crate::proofs::Written::steps), unfolding(crate::specs::Xml::written, crate::specs::Xml::opened))]
pub fn put_picture<S: Put>(picture: &Picture<'_>, out: &mut S)
    ensures { out.new ≡ S.taken out.old (written (page_of picture.now)) }
{
    begin_tag(Tag::Svg, out);
    put_root_attributes(picture, out);
    out.put(b">");
    put_title(picture.name, out);
    put_signs(FLAT, picture.title.as_slice(), out);
    put_rows(picture.rows.as_slice(), picture.parts.as_slice(), out);
    close_tag(Tag::Svg, out);
}
