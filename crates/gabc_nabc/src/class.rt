//! The classes of characters in NABC.

ghost use Rattle.std.specs.Prelude.{◌≡◌};
ghost use Rattle.gabc_nabc.specs.CharClass.{class_of_character};

use NabcClass::{
    Bang, Digit, Hyphen, Letter, LetterH, LetterL, LetterP, LetterS, LetterT, LetterU, Modifier,
    Other, Pitch, Slash, Tick,
};

/// The class of a character, by its roles in a descriptor or a space.
#[derive(Clone, Copy)]
pub(crate) enum NabcClass {
    /// `h`, which begins a pitch and no code, and is a pitch itself.
    LetterH,
    /// `l` and `p`, which are pitches, and `s`: with the letters that would make no code of them.
    LetterL,
    LetterP,
    LetterS,
    LetterT,
    LetterU,
    /// Another letter that is a pitch.
    Pitch,
    /// Another letter.
    Letter,
    /// `1` to `9`.
    Digit,
    /// `S`, `G`, `M`, `>` and `~`.
    Modifier,
    /// `-`, a modifier that may be in letters too.
    Hyphen,
    Bang,
    Slash,
    Tick,
    Other,
}

/// The class of each character below 128.
#[rattlefmt::skip]
const CLASSES: [NabcClass; 128] = [
    Other, Other, Other, Other, Other, Other, Other, Other, // U+0000 to U+0007
    Other, Other, Other, Other, Other, Other, Other, Other, // U+0008 to U+000F
    Other, Other, Other, Other, Other, Other, Other, Other, // U+0010 to U+0017
    Other, Other, Other, Other, Other, Other, Other, Other, // U+0018 to U+001F
    Other, Bang, Other, Other, Other, Other, Other, Other, // SPACE ! " # $ % & '
    Other, Other, Other, Other, Other, Hyphen, Other, Slash, // ( ) * + , - . /
    Other, Digit, Digit, Digit, Digit, Digit, Digit, Digit, // 0 1 2 3 4 5 6 7
    Digit, Digit, Other, Other, Other, Other, Modifier, Other, // 8 9 : ; < = > ?
    Other, Other, Other, Other, Other, Other, Other, Modifier, // @ A B C D E F G
    Other, Other, Other, Other, Other, Modifier, Other, Other, // H I J K L M N O
    Other, Other, Other, Modifier, Other, Other, Other, Other, // P Q R S T U V W
    Other, Other, Other, Other, Other, Other, Other, Other, // X Y Z [ \ ] ^ _
    Tick, Pitch, Pitch, Pitch, Pitch, Pitch, Pitch, Pitch, // ` a b c d e f g
    LetterH, Pitch, Pitch, Pitch, LetterL, Pitch, Pitch, Letter, // h i j k l m n o
    LetterP, Letter, Letter, LetterS, LetterT, LetterU, Letter, Letter, // p q r s t u v w
    Letter, Letter, Letter, Other, Other, Other, Modifier, Other, // x y z { | } ~ DEL
];

/// Returns the class of the character `c`, by the table if it is below 128.
#[inline(always)]
pub(crate) fn class_of(c: char) -> NabcClass
    ensures { result ≡ class_of_character c }
{
    match (&CLASSES).get(c as usize) {
        Some(class) => *class,
        None => Other,
    }
}
