//! The table of the tags' names. Code and definitions read this one.

ghost use Rattle.std.specs.Prelude.{◌≡◌};
ghost use Rattle.gabc_text.specs.TagNames.{known_tags};
ghost use Rattle.gabc_text.specs.Token.{tag_names};

use crate::styles::Style;
use crate::token::{RawKind, TagEffect};

/// The known tags: the name between the `<` and the `>`, in ASCII, and the effect of the tag.
#[rattlefmt::skip]
pub(crate) const TAGS: [(&str, TagEffect); 21] = [
    ("b", TagEffect::Opens(Style::B)),
    ("/b", TagEffect::Closes(Style::B)),
    ("c", TagEffect::Opens(Style::C)),
    ("/c", TagEffect::Closes(Style::C)),
    ("e", TagEffect::Opens(Style::E)),
    ("/e", TagEffect::Closes(Style::E)),
    ("i", TagEffect::Opens(Style::I)),
    ("/i", TagEffect::Closes(Style::I)),
    ("sc", TagEffect::Opens(Style::Sc)),
    ("/sc", TagEffect::Closes(Style::Sc)),
    ("tt", TagEffect::Opens(Style::Tt)),
    ("/tt", TagEffect::Closes(Style::Tt)),
    ("ul", TagEffect::Opens(Style::Ul)),
    ("/ul", TagEffect::Closes(Style::Ul)),
    ("eu", TagEffect::Mark),
    ("/eu", TagEffect::Mark),
    ("nlba", TagEffect::Mark),
    ("/nlba", TagEffect::Mark),
    ("v", TagEffect::Begins(RawKind::V)),
    ("sp", TagEffect::Begins(RawKind::Sp)),
    ("alt", TagEffect::Begins(RawKind::Alt)),
];

/// The number of characters of a tag's name that are kept: more than any name in the table has.
pub(crate) const KEPT: usize = 6;

/// Law: the names in the table are these, each with the effect of its tag.
pub fn tag_names_are_these()
    ensures { tag_names ≡ known_tags }
{}
