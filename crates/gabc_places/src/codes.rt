//! The table of codes. Code and definitions read this one.

use crate::severity::Severity;

/// The severity of each code, its name in messages, and its text in messages; in the order in which
/// the codes are declared.
#[rattlefmt::skip]
pub const CODES: [(Severity, &str, &str); 25] = [
    (Severity::Error, "E1", "character left out of the notes"),
    (Severity::Error, "E2", "character left out of the text"),
    (Severity::Error, "E3", "character left out of the NABC notes"),
    (Severity::Error, "E4", "header without a usable name left out"),
    (Severity::Error, "E5", "nabc-lines out of range left out"),
    (Severity::Error, "E6", "unfinished end of the notes left out"),
    (Severity::Warning, "W1", "no name header"),
    (Severity::Warning, "W2", "header given again"),
    (Severity::Warning, "W3", "style tag not matched"),
    (Severity::Warning, "W4", "centring brace not matched or second"),
    (Severity::Warning, "W5", "second translation left out"),
    (Severity::Warning, "W6", "tag not known"),
    (Severity::Warning, "W7", "NABC code not known"),
    (Severity::Warning, "W8", "macro not defined"),
    (Severity::Warning, "W9", "text without notes at the end"),
    (Severity::Warning, "W10", "fusion bracket not matched"),
    (Severity::Warning, "W11", "eu or nlba open at the end"),
    (Severity::Warning, "W12", "note before any clef"),
    (Severity::Fatal, "F1", "not UTF-8"),
    (Severity::Fatal, "F2", "no %% line"),
    (Severity::Fatal, "F3", "header value not ended"),
    (Severity::Fatal, "F4", "header limit"),
    (Severity::Fatal, "F5", "syllable limit"),
    (Severity::Fatal, "F6", "input ends inside notes, a tag, a raw part or a translation"),
    (Severity::Fatal, "F7", "input limit"),
];
