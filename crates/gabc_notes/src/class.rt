//! The classes of characters in notes.

ghost use Rattle.std.specs.Prelude.{◌≡◌};
ghost use Rattle.gabc_notes.specs.machine.CharClass.{class_of_character};

use CharClass::{
    Alter, At, Bang, BarMark, Blank, Capital, CapitalZ, ClefDigit, ClefLetter, Close, Colon, Digit,
    FlatB, Hash, Hyphen, Open, Other, Pitch, Plus, Question, Sign, Slash, SmallZ, Suffix, Zero,
};

/// The class of a character, by its roles in items.
#[derive(Clone, Copy)]
pub(crate) enum CharClass {
    Hyphen,
    /// The pitch `b`, which a clef may have too.
    FlatB,
    /// The pitches `c` and `f`, which begin a clef too.
    ClefLetter,
    Pitch,
    Capital,
    /// `1` to `5`, which end a clef.
    ClefDigit,
    Zero,
    Digit,
    /// `'` and `_`, which may come after bars too.
    Sign,
    Suffix,
    Alter,
    Hash,
    Plus,
    Question,
    BarMark,
    Colon,
    Slash,
    Bang,
    Blank,
    SmallZ,
    CapitalZ,
    Open,
    Close,
    At,
    Other,
}

/// The class of each character below 128.
#[rattlefmt::skip]
const CLASSES: [CharClass; 128] = [
    Other, Other, Other, Other, Other, Other, Other, Other, // U+0000 to U+0007
    Other, Blank, Blank, Other, Other, Other, Other, Other, // U+0008 to U+000F
    Other, Other, Other, Other, Other, Other, Other, Other, // U+0010 to U+0017
    Other, Other, Other, Other, Other, Other, Other, Other, // U+0018 to U+001F
    Blank, Bang, Other, Hash, Other, Other, Other, Sign, // SPACE ! " # $ % & '
    Other, Other, Other, Plus, BarMark, Hyphen, Suffix, Slash, // ( ) * + , - . /
    Zero, ClefDigit, ClefDigit, ClefDigit, ClefDigit, ClefDigit, Digit, Digit, // 0 1 2 3 4 5 6 7
    Digit, Digit, Colon, BarMark, Suffix, Suffix, Suffix, Question, // 8 9 : ; < = > ?
    At, Capital, Capital, Capital, Capital, Capital, Capital, Capital, // @ A B C D E F G
    Capital, Capital, Capital, Capital, Capital, Capital, Capital, Suffix, // H I J K L M N O
    Capital, Other, Suffix, Other, Other, Other, Suffix, Suffix, // P Q R S T U V W
    Alter, Alter, CapitalZ, Open, Other, Close, BarMark, Sign, // X Y Z [ \ ] ^ _
    BarMark, Pitch, FlatB, ClefLetter, Pitch, Pitch, ClefLetter, Pitch, // ` a b c d e f g
    Pitch, Pitch, Pitch, Pitch, Pitch, Pitch, Pitch, Suffix, // h i j k l m n o
    Pitch, Suffix, Suffix, Suffix, Other, Other, Suffix, Suffix, // p q r s t u v w
    Alter, Alter, SmallZ, Other, Other, Other, Suffix, Other, // x y z { | } ~ DEL
];

/// Returns the class of the character `c`, by the table if it is below 128.
#[inline(always)]
pub(crate) fn class_of(c: char) -> CharClass
    ensures { result ≡ class_of_character c }
{
    match (&CLASSES).get(c as usize) {
        Some(class) => *class,
        None => Other,
    }
}
