//! Puts tags and attributes.

ghost use Rattle.std.specs.Prelude.{◌≡◌, ◌∷◌, [], ◌++◌, cond, codes};
ghost use Rattle.std.specs.Fmt.{decimal, signed_decimal};
ghost use Rattle.gabc_svg.specs.Xml.{opened, closed, written_attribute, written_attributes, valued, text_of_tag, text_of_name};

use crate::escape::{put_decimal, put_escaped, put_signed};
use crate::tag::{Name, Tag};
use gabc_marks::Distance;
use gabc_places::Put;

/// Puts the begin of a tag that opens the element `tag`, up to its attributes.
#[tactic(auto, using(crate::proofs::Written::steps), unfolding(crate::specs::Xml::opened))]
pub(crate) fn begin_tag<S: Put>(tag: Tag, out: &mut S)
    ensures { out.new ≡ S.taken out.old (opened tag []) }
{
    out.put(tag.begin().as_bytes());
}

/// Puts the tag that closes the element `tag`.
pub(crate) fn close_tag<S: Put>(tag: Tag, out: &mut S)
    ensures { out.new ≡ S.taken out.old (closed tag) }
{
    out.put(tag.close().as_bytes());
}

/// Puts the begin of the attribute `name`, up to its value.
pub(crate) fn begin_value<S: Put>(name: Name, out: &mut S)
    ensures { out.new ≡ S.taken out.old (codes " " ++ (text_of_name name ++ codes "=\"")) }
{
    out.put(name.begin().as_bytes());
}

/// Puts the attribute `name` with this `value`.
#[tactic(auto, using(crate::proofs::Written::steps), unfolding(crate::specs::Xml::written_attribute))]
pub(crate) fn put_attribute<S: Put>(name: Name, value: &str, out: &mut S)
    ensures { out.new ≡ S.taken out.old (written_attribute (valued name value.now)) }
{
    begin_value(name, out);
    put_escaped(value, out);
    out.put(b"\"");
}

/// Puts the attribute `name` with this `value`, if `is_there`.
pub(crate) fn put_if<S: Put>(is_there: bool, name: Name, value: &str, out: &mut S)
    ensures { out.new ≡ S.taken out.old
        (written_attributes (cond is_there (valued name value.now ∷ []) [])) }
{
    if is_there {
        put_attribute(name, value, out);
    }
}

/// Puts the attribute `name` with the distance `value` as its value, in thousandths of a staff
/// space.
#[tactic(auto, using(crate::proofs::Written::steps), unfolding(crate::specs::Xml::written_attribute))]
pub(crate) fn put_distance<S: Put>(name: Name, value: Distance, out: &mut S)
    ensures { out.new ≡ S.taken out.old
        (written_attribute (valued name (signed_decimal value.0))) }
{
    begin_value(name, out);
    put_signed(value.0, out);
    out.put(b"\"");
}

/// Puts the attribute `name` with `number` as its value.
#[tactic(auto, using(crate::proofs::Written::steps), unfolding(crate::specs::Xml::written_attribute))]
pub(crate) fn put_number<S: Put>(name: Name, number: u32, out: &mut S)
    ensures { out.new ≡ S.taken out.old (written_attribute (valued name (decimal number))) }
{
    begin_value(name, out);
    put_decimal(number, out);
    out.put(b"\"");
}
