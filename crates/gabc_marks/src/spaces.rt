//! The spaces of a picture, each with its name, in thousandths of a staff space. In brackets are
//! the dimensions of GregorioTeX, if it has any.

use crate::distance::Distance;

/// Between two lines of the score (spacelinestext).
pub const BETWEEN_LINES: Distance = Distance(1200);
/// Between the texts of two words (interwordspacetext).
pub const BETWEEN_WORDS: Distance = Distance(550);
/// Between the notes of two words, and of two syllables of a word (interwordspacenotes,
/// intersyllablespacenotes).
pub const BETWEEN_NOTES_OF_WORDS: Distance = Distance(900);

pub const BETWEEN_NOTES: Distance = Distance(600);
/// Between the neumes of a syllable: without a spacing, by `/`, `//`, `/0`, `/!`, and by a blank,
/// which `/[..]` takes as its unit (interglyphspace, interelementspace, largerspace, halfspace,
/// glyphspace).
pub const AFTER_NEUME: Distance = Distance(220);

pub const SMALL: Distance = Distance(450);

pub const MEDIUM: Distance = Distance(750);

pub const HALF: Distance = Distance(120);

pub const TINY: Distance = Distance(60);

pub const LARGE: Distance = Distance(1000);
/// After an alteration, a clef, a bar and a custos (spaceafterlineclef, spacearounddivisio,
/// alterationspace).
pub const AFTER_ALTERATION: Distance = Distance(180);

pub const AFTER_CLEF: Distance = Distance(700);

pub const AFTER_BAR: Distance = Distance(500);

pub const AFTER_CUSTOS: Distance = Distance(400);
/// Between the NABC of two snippets, and by `/` and `//` in it (nabcinterelementspace,
/// nabclargerspace); by a back-tick as much to the left.
pub const BETWEEN_NEUMES: Distance = Distance(300);

pub const NABC_SMALL: Distance = Distance(200);

pub const NABC_LARGE: Distance = Distance(500);
/// Between two letters that still seem to touch, and around a hyphen.
pub const LETTERS_TOUCH: Distance = Distance(80);

pub const AROUND_HYPHEN: Distance = Distance(200);
/// Between two translations.
pub const BETWEEN_TRANSLATIONS: Distance = Distance(600);
/// The width that a custos takes at a line's end, and its distance from the end of the staff.
pub const CUSTOS: Distance = Distance(900);

pub const CUSTOS_TO_END: Distance = Distance(50);
/// After the clef at a line's begin.
pub const AFTER_LINE_CLEF: Distance = Distance(800);
/// After the initial, and between it and the annotations over it (initialspace, annotationraise).
pub const AFTER_INITIAL: Distance = Distance(600);

pub const OVER_INITIAL: Distance = Distance(500);
/// From the lowest line of the staff to the text at the least; from the lowest sign to the text;
/// and from the text, or the lowest sign if there is no text, to the end of the row.
pub const TO_TEXT: Distance = Distance(1800);

pub const BELOW_SIGNS: Distance = Distance(1400);

pub const BELOW_TEXT: Distance = Distance(500);
/// From the text to a translation, and below that (translationheight).
pub const TO_TRANSLATION: Distance = Distance(1500);

pub const BELOW_TRANSLATION: Distance = Distance(500);
/// Over the highest sign, and between rows of NABC, and between these and texts over the staff
/// (nabcspace, abovelinestextraise).
pub const OVER_SIGNS: Distance = Distance(300);

pub const BETWEEN_ROWS: Distance = Distance(250);

pub const OVER_ROWS: Distance = Distance(200);
/// Below a title, and at each side of a picture.
pub const BELOW_TITLE: Distance = Distance(1000);

pub const MARGIN: Distance = Distance(1200);
