//! Finds the first vowel of a syllable, by the language of a score (GregorioRef, "Vowel
//! Detection").

/// A language, by its vowels. One that is not known has those of Latin.
#[derive(Clone, Copy, Debug, PartialEq, Eq)]
pub enum Language {
    Latin,
    English,
    /// Church Slavonic, Polish, Czech and Slovak: an r or an l may be a vowel.
    Slavonic,
    Hungarian,
}

impl Language {
    /// Returns the language that the header `language` names.
    pub fn of(name: &str) -> Language {
        match name {
            "en" | "eng" | "english" | "English" => Language::English,
            "cu"
            | "chu"
            | "slavonic"
            | "pl"
            | "pol"
            | "polish"
            | "cs"
            | "ces"
            | "cze"
            | "czech"
            | "sk"
            | "slk"
            | "slo"
            | "slovak"
            | "Polish"
            | "Czech"
            | "Slovak"
            | "Slavonic" => Language::Slavonic,
            "hu" | "hun" | "hungarian" | "Hungarian" => Language::Hungarian,
            _ => Language::Latin,
        }
    }

    /// Returns whether the small letter `c` is a vowel.
    fn has_vowel(self, c: char) -> bool {
        match self {
            Language::Latin => matches!(c, 'a' | 'e' | 'i' | 'o' | 'u' | 'y' | 'æ' | 'œ'),
            Language::Slavonic => matches!(c, 'a' | 'e' | 'i' | 'o' | 'u' | 'y'),
            Language::English | Language::Hungarian => matches!(c, 'a' | 'e' | 'i' | 'o' | 'u'),
        }
    }

    /// Returns whether the small letter `c` is a vowel if there is no other.
    fn has_late_vowel(self, c: char) -> bool {
        match self {
            Language::Slavonic => c == 'r' || c == 'l',
            Language::English => c == 'w' || c == 'y',
            Language::Latin | Language::Hungarian => false,
        }
    }
}

/// Returns the small letter of `c` without its accent.
pub(crate) fn base_letter(c: char) -> char {
    match c {
        'À'..='Å' | 'à'..='å' | 'Ā' | 'ā' | 'Ă' | 'ă' | 'Ą' | 'ą' => 'a',
        'È'..='Ë' | 'è'..='ë' | 'Ē' | 'ē' | 'Ĕ' | 'ĕ' | 'Ę' | 'ę' | 'Ě' | 'ě' => 'e',
        'Ì'..='Ï' | 'ì'..='ï' | 'Ī' | 'ī' | 'Ĭ' | 'ĭ' => 'i',
        'Ò'..='Ö' | 'ò'..='ö' | 'Ō' | 'ō' | 'Ŏ' | 'ŏ' | 'Ő' | 'ő' => 'o',
        'Ù'..='Ü' | 'ù'..='ü' | 'Ū' | 'ū' | 'Ŭ' | 'ŭ' | 'Ů' | 'ů' | 'Ű' | 'ű' => 'u',
        'Ý' | 'ý' | 'ÿ' | 'Ÿ' => 'y',
        'Æ' | 'æ' | 'Ǽ' | 'ǽ' => 'æ',
        'Œ' | 'œ' => 'œ',
        _ => c.to_ascii_lowercase(),
    }
}

/// Returns whether the Latin vowel `letters[at]` is read as a consonant: the u of qu, and an i
/// before a vowel at the beginning of a word.
fn is_consonant(letters: &[char], at: usize) -> bool {
    let next = letters
        .get(at.saturating_add(1))
        .is_some_and(|c| Language::Latin.has_vowel(*c));
    match letters.get(at) {
        Some('u') => follows_q(letters, at),
        Some('i') => next && !letters.iter().take(at).any(|c| c.is_alphabetic()),
        _ => false,
    }
}

/// Returns whether the letter before `letters[at]` is a q.
fn follows_q(letters: &[char], at: usize) -> bool {
    at.checked_sub(1)
        .and_then(|before| letters.get(before))
        .is_some_and(|c| *c == 'q')
}

/// Returns whether the vowel `letters[at]` counts: no consonant in Latin, and no u of qu in
/// English.
fn counts(letters: &[char], at: usize, language: Language) -> bool {
    match language {
        Language::Latin => !is_consonant(letters, at),
        Language::English => !(letters.get(at) == Some(&'u') && follows_q(letters, at)),
        Language::Slavonic | Language::Hungarian => true,
    }
}

/// Returns the index of the first of `letters` that is a vowel and counts, if there is one.
fn vowel_at(letters: &[char], language: Language) -> Option<usize> {
    for (at, c) in letters.iter().enumerate() {
        if language.has_vowel(*c) && counts(letters, at, language) {
            return Some(at);
        }
    }
    None
}

/// Returns the index after the vowel that begins at `at`: in English with the vowels directly after
/// it.
fn vowel_end(letters: &[char], at: usize, language: Language) -> usize {
    let mut end = at.saturating_add(1);
    if language != Language::English {
        return end;
    }
    for c in letters.iter().skip(end) {
        if !language.has_vowel(*c) && !language.has_late_vowel(*c) {
            return end;
        }
        end = end.saturating_add(1);
    }
    end
}

/// Returns the index of the first vowel of `letters`, which are small and without accents, and the
/// index after it; those of all letters if none is a vowel.
pub(crate) fn first_vowel(letters: &[char], language: Language) -> (usize, usize) {
    let late = || letters.iter().position(|c| language.has_late_vowel(*c));
    match vowel_at(letters, language).or_else(late) {
        Some(at) => (at, vowel_end(letters, at, language)),
        None => (0, letters.len()),
    }
}
