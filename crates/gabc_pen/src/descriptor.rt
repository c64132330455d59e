//! A descriptor of NABC, by the names that a hand has for its parts.

use crate::cluster::{BETWEEN, Cluster};
use gabc_marks::{Distance, Hand, NabcOutline};
use std::alloc::{AllocError, Global};

/// The rise of a neume for each step of its pitch, and the default pitch: 5, of `f`.
const RISE: Distance = Distance(90);

const USUAL_PITCH: i32 = 5;

/// The modifiers of a glyph in the order of the names of a hand, each with its letter there.
const MODIFIERS: [(char, char); 6] = [
    ('M', 'M'),
    ('S', 'S'),
    ('G', 'G'),
    ('-', 'N'),
    ('>', 'B'),
    ('~', 'T'),
];

/// Whether points before a glyph, and after it, are part of its outline: the best ways come first.
const WAYS: [(bool, bool); 4] = [(true, true), (true, false), (false, true), (false, false)];

/// Letters with the number of their place.
#[derive(Clone, Copy, Debug)]
struct Letters {
    outline: NabcOutline,
    place: u16,
}

/// A descriptor: the name of its glyphs, of the points before and after them, and its letters.
#[derive(Debug, Drop)]
pub(crate) struct Descriptor {
    pub(crate) hand: Hand,
    glyphs: String,
    before: String,
    after: String,
    letters: Vec<Letters>,
    rise: Distance,
    /// Whether the hand lacks some of its letters.
    lacks_letters: bool,
    /// The name that is being looked up.
    name: String,
}

/// Appends points to `name`: their `kind`, their letter, if they have one, and their `count`.
fn push_points(kind: &str, letter: u16, count: u16, name: &mut String) -> Result<(), AllocError> {
    name.push_str(kind)?;
    if let Ok(letter @ b'a'..=b'z') = u8::try_from(letter) {
        name.push(char::from(letter))?;
    }
    if let Some(digit) = char::from_digit(u32::from(count), 10) {
        name.push(digit)?;
    }
    Ok(())
}

impl Descriptor {
    /// Returns an empty descriptor in the hand of St. Gall.
    pub(crate) fn new(alloc: Global) -> Descriptor {
        Descriptor {
            hand: Hand::StGall,
            glyphs: String::new(alloc),
            before: String::new(alloc),
            after: String::new(alloc),
            letters: Vec::new(alloc),
            rise: Distance::ZERO,
            lacks_letters: false,
            name: String::new(alloc),
        }
    }

    /// Removes all its parts; its hand stays.
    pub(crate) fn clear(&mut self) {
        self.glyphs.clear();
        self.before.clear();
        self.after.clear();
        self.letters.clear();
        self.rise = Distance::ZERO;
        self.lacks_letters = false;
    }

    /// Adds a glyph with this `spelling`. Its `pitch` is 1 plus a height, or 0 for the default;
    /// only that of the first glyph counts.
    pub(crate) fn add_glyph(&mut self, spelling: &str, pitch: u16) -> Result<(), AllocError> {
        if self.glyphs.is_empty() {
            let steps = match pitch {
                0 => 0,
                pitch => i32::from(pitch) - 1 - USUAL_PITCH,
            };
            self.rise = RISE.times(steps);
        } else {
            self.glyphs.push('E')?;
        }
        self.glyphs.push_str(spelling.get(..2).unwrap_or(spelling))?;
        for (sign, letter) in &MODIFIERS {
            if spelling.contains(*sign) {
                self.glyphs.push(*letter)?;
            }
        }
        match spelling.chars().rev().find(|c| c.is_ascii_digit()) {
            Some(digit) => self.glyphs.push(digit),
            None => Ok(()),
        }
    }

    /// Adds `count` points with this `letter`: before the glyphs if `is_before`, else after them.
    pub(crate) fn add_points(
        &mut self,
        is_before: bool,
        letter: u16,
        count: u16,
    ) -> Result<(), AllocError> {
        if is_before {
            push_points("pp", letter, count, &mut self.before)
        } else {
            push_points("su", letter, count, &mut self.after)
        }
    }

    /// Adds letters with this `spelling` at this `place`, or records that the hand lacks them.
    pub(crate) fn add_letters(&mut self, spelling: &str, place: u16) -> Result<(), AllocError> {
        self.name.clear();
        for c in spelling.chars() {
            match c {
                '0'..='9' => break,
                '-' => self.name.push('N')?,
                c => self.name.push(c)?,
            }
        }
        match self.hand.outline(self.name.as_str()) {
            Some(outline) => self.letters.push(Letters { outline, place })?,
            None => self.lacks_letters = true,
        }
        Ok(())
    }

    /// Puts its glyphs and points beside each other into `cluster`, and returns whether the hand
    /// has all of them. The points before the glyphs are part of their outline if `with_before`,
    /// those after them if `with_after`.
    fn put_row(
        &mut self,
        with_before: bool,
        with_after: bool,
        cluster: &mut Cluster,
    ) -> Result<bool, AllocError> {
        cluster.clear();
        self.name.clear();
        self.name.push_str(self.glyphs.as_str())?;
        if with_before {
            self.name.push_str(self.before.as_str())?;
        } else if !cluster.append(self.hand, self.before.as_str(), self.rise)? {
            return Ok(false);
        }
        if with_after {
            self.name.push_str(self.after.as_str())?;
            return cluster.append(self.hand, self.name.as_str(), self.rise);
        }
        if !cluster.append(self.hand, self.name.as_str(), self.rise)? {
            return Ok(false);
        }
        cluster.append(self.hand, self.after.as_str(), self.rise)
    }

    /// Puts its letters around the outlines in `cluster`: of two at one place the second is outside
    /// the first.
    fn put_letters(&self, cluster: &mut Cluster) -> Result<(), AllocError> {
        for (at, it) in self.letters.iter().enumerate() {
            let further = self
                .letters
                .iter()
                .take(at)
                .filter(|before| before.place == it.place)
                .fold(Distance::ZERO, |further, before| {
                    further + before.outline.metrics.width + BETWEEN
                });
            cluster.surround(it.outline, it.place, further)?;
        }
        Ok(())
    }

    /// Puts its outlines into `cluster`, with points as part of the outline of the glyphs if the
    /// hand has it so, and returns whether the hand has all of them and there is one.
    pub(crate) fn compose(&mut self, cluster: &mut Cluster) -> Result<bool, AllocError> {
        if self.lacks_letters {
            return Ok(false);
        }
        for (with_before, with_after) in &WAYS {
            if self.put_row(*with_before, *with_after, cluster)? {
                self.put_letters(cluster)?;
                return Ok(!cluster.placed.is_empty());
            }
        }
        Ok(false)
    }
}
