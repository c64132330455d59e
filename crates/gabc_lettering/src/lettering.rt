//! The text of a syllable, as words beside each other.

use crate::language::{Language, base_letter, first_vowel};
use crate::runs::{Run, WordLine, front_within, lines_of};
use gabc_marks::{Distance, Level, Sign, Styles, Words, styled_width, text_between, text_width};
use gabc_nodes::{Kind, Node};
use std::alloc::{AllocError, Global};

/// The size of the sung text, of a translation, and of a text over the staff.
pub const TEXT_SIZE: Distance = Distance(1600);

const TRANSLATION_SIZE: Distance = Distance(1200);

pub const ABOVE_SIZE: Distance = Distance(1100);

/// The end of a text that is cut.
const DOTS: &str = "…";

/// The left and the right end of a letter, or of the centre.
#[derive(Clone, Copy, Debug)]
struct Letter {
    left: Distance,
    right: Distance,
}

/// Characters that are being read, and may be parted by what is not kept: the bytes from `at` up to
/// `end` are still to be added, in these styles.
#[derive(Clone, Copy, Debug)]
struct Open {
    at: u32,
    end: u32,
    styles: u16,
}

/// The text of a syllable from 0 on: its words, its letters without accents (`letters`), and its
/// centre; its translation, and its texts over the staff.
#[derive(Debug, Drop)]
pub struct Lettering<'a> {
    words: Vec<Words<'a>>,
    letters: Vec<char>,
    places: Vec<Letter>,
    /// The left end of its centre, if a brace opens it, and the centre, if braces give it.
    opened: Option<Distance>,
    centre: Option<Letter>,
    pub(crate) width: Distance,
    translation: Option<&'a str>,
    above: Vec<&'a str>,
    input: &'a str,
    language: Language,
    /// The characters that are being read.
    open: Option<Open>,
}

/// Adds `text` to `signs` in italics, cut with dots if it is wider than `room`, and returns its
/// width.
fn put_beside<'a>(
    text: &'a str,
    x: Distance,
    level: Level,
    size: Distance,
    room: Distance,
    signs: &mut Vec<Sign<'a>>,
) -> Result<Distance, AllocError> {
    let mut words = Words {
        text,
        x,
        level,
        width: text_width(text, size),
        size,
        styles: Styles::ITALIC,
    };
    if words.width <= room {
        signs.push(Sign::Words(words))?;
        return Ok(words.width);
    }
    let dots = text_width(DOTS, size);
    words.text = front_within(text, size, Styles::ITALIC, room - dots);
    words.width = text_width(words.text, size);
    signs.push(Sign::Words(words))?;
    signs.push(Sign::Words(Words {
        text: DOTS,
        x: x + words.width,
        width: dots,
        ..words
    }))?;
    Ok(words.width + dots)
}

/// Returns the styles with this number: the sum of 1 for b, 2 for c, 4 for e, 8 for i, 16 for sc,
/// 32 for tt and 64 for ul.
pub(crate) fn styles_of(number: u16) -> Styles {
    Styles {
        bold: number % 2 == 1,
        red: number / 2 % 2 == 1,
        italic: number / 4 % 4 != 0,
        small_capitals: number / 16 % 2 == 1,
        typewriter: number / 32 % 2 == 1,
        underlined: number / 64 % 2 == 1,
    }
}

/// Returns the text of the special character with this `name`; one that is not known is its own
/// name (GregorioRef, "Special Characters").
fn special_text(name: &str) -> &str {
    match name {
        "ae" => "æ",
        "oe" => "œ",
        "'ae" | "'æ" => "ǽ",
        "'oe" | "'œ" => "œ́",
        "A/" => "A",
        "R/" => "℟",
        "V/" => "℣",
        "+" => "†",
        "-" => "",
        name => name,
    }
}

/// Returns the text between the tags of a raw part.
fn inner_of(text: &str) -> &str {
    let begun = text.split_once('>').map_or(text, |(_, inner)| inner);
    begun.rsplit_once('<').map_or(begun, |(inner, _)| inner)
}

impl<'a> Lettering<'a> {
    /// Returns an empty text for the score `input`, which is in this `language`.
    pub fn new(alloc: Global, input: &'a str, language: Language) -> Lettering<'a> {
        Lettering {
            input,
            language,
            open: None,
            words: Vec::new(alloc),
            letters: Vec::new(alloc),
            places: Vec::new(alloc),
            opened: None,
            centre: None,
            width: Distance::ZERO,
            translation: None,
            above: Vec::new(alloc),
        }
    }

    /// Removes all words, the translation and the texts over the staff.
    pub fn clear(&mut self) {
        self.words.clear();
        self.letters.clear();
        self.places.clear();
        self.above.clear();
        self.opened = None;
        self.centre = None;
        self.width = Distance::ZERO;
        self.translation = None;
        self.open = None;
    }

    /// Returns whether there is no text.
    pub(crate) fn is_empty(&self) -> bool {
        self.words.is_empty()
    }

    /// Adds the letters of `text`, which begins at `x`.
    fn add_letters(&mut self, text: &str, x: Distance, styles: Styles) -> Result<(), AllocError> {
        let mut at = x;
        for c in text.chars() {
            let mut buffer = [0; 4];
            let width = styled_width(c.encode_utf8(&mut buffer), TEXT_SIZE, styles);
            self.letters.push(base_letter(c))?;
            self.places.push(Letter {
                left: at,
                right: at + width,
            })?;
            at += width;
        }
        Ok(())
    }

    /// Adds `text` in the styles with this number.
    fn add(&mut self, text: &'a str, number: u16) -> Result<(), AllocError> {
        if text.is_empty() {
            return Ok(());
        }
        let styles = styles_of(number);
        let x = self.width;
        let width = styled_width(text, TEXT_SIZE, styles);
        self.words.push(Words {
            text,
            x,
            level: Level::Text,
            width,
            size: TEXT_SIZE,
            styles,
        })?;
        self.add_letters(text, x, styles)?;
        self.width += width;
        Ok(())
    }

    /// Adds a raw part of this kind, with its tags: 1 is a special character, 2 a text over the
    /// staff; raw TeX is not drawn.
    fn add_raw(&mut self, text: &'a str, kind: u16, styles: u16) -> Result<(), AllocError> {
        match kind {
            1 => self.add(special_text(inner_of(text)), styles),
            2 => {
                self.above.push(inner_of(text))?;
                Ok(())
            }
            _ => Ok(()),
        }
    }

    /// Returns the middle of its centre: as braces give it, else of its first vowel.
    pub(crate) fn middle(&self) -> Distance {
        if let Some(centre) = self.centre {
            return (centre.left + centre.right).half();
        }
        let (begin, end) = first_vowel(self.letters.as_slice(), self.language);
        let left = self.places.get(begin).map_or(Distance::ZERO, |it| it.left);
        let last = end.checked_sub(1).and_then(|last| self.places.get(last));
        let right = last.map_or(self.width, |it| it.right);
        (left + right).half()
    }

    /// Adds its words to `signs`, from `x` on.
    pub(crate) fn put_words(
        &self,
        x: Distance,
        signs: &mut Vec<Sign<'a>>,
    ) -> Result<(), AllocError> {
        for it in &self.words {
            let mut words = *it;
            words.x += x;
            signs.push(Sign::Words(words))?;
        }
        Ok(())
    }

    /// Adds its translation to `signs`, from `x` on, cut to `room`, and returns its right end, if
    /// it has one.
    pub(crate) fn put_translation(
        &self,
        x: Distance,
        room: Distance,
        signs: &mut Vec<Sign<'a>>,
    ) -> Result<Option<Distance>, AllocError> {
        let Some(text) = self.translation else {
            return Ok(None);
        };
        let width = put_beside(text, x, Level::Translation, TRANSLATION_SIZE, room, signs)?;
        Ok(Some(x + width))
    }

    /// Adds its texts over the staff to `signs`, from `x` on, each cut to `room`, and returns their
    /// right end, if it has any.
    pub(crate) fn put_above(
        &self,
        x: Distance,
        room: Distance,
        signs: &mut Vec<Sign<'a>>,
    ) -> Result<Option<Distance>, AllocError> {
        let mut end: Option<Distance> = None;
        for text in &self.above {
            let right = x + put_beside(*text, x, Level::Above, ABOVE_SIZE, room, signs)?;
            end = Some(end.map_or(right, |end| end.max(right)));
        }
        Ok(end)
    }

    /// Adds the rest of the characters that are being read, up to the byte `end`.
    fn add_open(&mut self, end: u32) -> Result<(), AllocError> {
        let Some(open) = self.open else {
            return Ok(());
        };
        let text = text_between(self.input, open.at, end.min(open.end));
        self.add(text, open.styles)
    }

    /// Ends the characters that are being read.
    pub fn close(&mut self) -> Result<(), AllocError> {
        self.add_open(u32::MAX)?;
        self.open = None;
        Ok(())
    }

    /// Skips `node`, which is not kept: the characters that are being read continue after it.
    pub fn pass_gap(&mut self, node: Node) -> Result<(), AllocError> {
        self.add_open(node.begin)?;
        if let Some(open) = self.open {
            self.open = Some(Open {
                at: node.end,
                ..open
            });
        }
        Ok(())
    }

    /// Adds `node`, which is one of the text.
    pub fn add_node(&mut self, node: Node) -> Result<(), AllocError> {
        self.close()?;
        let text = text_between(self.input, node.begin, node.end);
        match node.kind {
            Kind::Characters => {
                self.open = Some(Open {
                    at: node.begin,
                    end: node.end,
                    styles: node.a,
                });
                Ok(())
            }
            Kind::Escape => self.add(text.strip_prefix('$').unwrap_or(text), node.a),
            Kind::TextBlank if node.b == 1 => self.add(" ", node.a),
            Kind::Raw => self.add_raw(text, node.b, node.a),
            Kind::Brace => {
                self.add_brace(node.b == 0);
                Ok(())
            }
            Kind::Translation if node.b == 1 && text != "[/]" => {
                let inner = text.strip_prefix('[').unwrap_or(text);
                self.translation = Some(inner.strip_suffix(']').unwrap_or(inner));
                Ok(())
            }
            _ => Ok(()),
        }
    }

    /// Adds a brace of the centre: the first one, if it `opens`, or else the second one.
    fn add_brace(&mut self, opens: bool) {
        let right = self.width;
        if opens {
            self.opened = self.opened.or(Some(right));
        } else {
            let centre = self.opened.map(|left| Letter { left, right });
            self.centre = self.centre.or(centre);
        }
    }

    /// Breaks its words into lines no wider than `room`, and returns those after the first one.
    pub(crate) fn cut(
        &mut self,
        alloc: Global,
        room: Distance,
    ) -> Result<Vec<WordLine<'a>>, AllocError> {
        let mut further = Vec::new(alloc);
        if self.width <= room {
            return Ok(further);
        }
        let mut runs = Vec::new(alloc);
        for words in &self.words {
            runs.push(Run {
                text: words.text,
                styles: words.styles,
            })?;
        }
        self.words.clear();
        for line in lines_of(alloc, runs.as_slice(), TEXT_SIZE, room)? {
            if self.words.is_empty() {
                self.width = line.width;
                self.words.extend_from_slice(line.words.as_slice())?;
            } else {
                further.push(line)?;
            }
        }
        Ok(further)
    }
}
