//! Puts the texts of a picture.

ghost use Rattle.std.specs.Prelude.{◌≡◌};
ghost use Rattle.gabc_svg.specs.Xml.{written, written_attributes};
ghost use Rattle.gabc_svg.specs.Page.{level_at, style_attributes, words_attributes, words_content};

use crate::escape::put_escaped;
use crate::tag::{Name, Tag};
use crate::xml::{begin_tag, close_tag, put_attribute, put_distance, put_if};
use gabc_marks::{Distance, Level, Levels, NabcLine, Styles, Words};
use gabc_places::Put;

/// Returns the distance of `level` below the lowest line of the staff, in a row with these
/// `levels`.
pub(crate) fn height_of_level(levels: Levels, level: Level) -> Distance
    ensures { result.0 ≡ level_at levels level }
{
    match level {
        Level::Text => levels.text,
        Level::Translation => levels.translation,
        Level::Above => levels.above,
        Level::Nabc(NabcLine::First) => levels.first,
        Level::Nabc(NabcLine::Second) => levels.second,
        Level::Nabc(NabcLine::Third) => levels.third,
        Level::Nabc(NabcLine::Fourth) => levels.fourth,
        Level::At(y) => y,
    }
}

/// Puts the attributes of letters in these `styles`.
#[tactic(auto, using(crate::proofs::Written::steps))]
fn put_styles<S: Put>(styles: Styles, out: &mut S)
    ensures { out.new ≡ S.taken out.old (written_attributes (style_attributes styles)) }
{
    put_if(styles.bold, Name::FontWeight, "bold", out);
    put_if(styles.italic, Name::FontStyle, "italic", out);
    put_if(styles.small_capitals, Name::FontVariant, "small-caps", out);
    put_if(styles.typewriter, Name::FontFamily, "monospace", out);
    put_if(styles.underlined, Name::TextDecoration, "underline", out);
    put_if(styles.red, Name::Class, "red", out);
}

/// Puts the attributes of `words` in a row with these `levels`.
fn put_words_attributes<S: Put>(levels: Levels, words: Words<'_>, out: &mut S)
    ensures { out.new ≡ S.taken out.old (written_attributes (words_attributes levels words.entry)) }
{
    put_distance(Name::X, words.x, out);
    put_distance(Name::Y, height_of_level(levels, words.level), out);
    put_distance(Name::FontSize, words.size, out);
    put_distance(Name::TextLength, words.width, out);
    put_attribute(Name::LengthAdjust, "spacingAndGlyphs", out);
    put_styles(words.styles, out);
}

/// Puts the element of `words` in a row with these `levels`.
#[tactic(auto, using(crate::proofs::Written::steps), unfolding(crate::specs::Xml::written, crate::specs::Xml::opened, crate::specs::Page::words_content))]
pub(crate) fn put_words<S: Put>(levels: Levels, words: Words<'_>, out: &mut S)
    ensures { out.new ≡ S.taken out.old (written (words_content levels words.entry)) }
{
    begin_tag(Tag::Text, out);
    put_words_attributes(levels, words, out);
    out.put(b">");
    put_escaped(words.text, out);
    close_tag(Tag::Text, out);
}
