//! The limits of a run, in bytes.

ghost use Rattle.std.specs.Prelude.{◌≡◌, ◌↔◌, IsSome, IfSome};
ghost use Rattle.gabc_places.specs.Limits.{AreLimits, AreUsual};

/// The most bytes of the headers, of a syllable and of the whole input.
#[derive(Clone, Copy, Debug, PartialEq, Eq)]
pub struct Limits {
    /// The most bytes of the headers.
    pub header: u32,
    /// The most bytes of a syllable.
    pub syllable: u32,
    /// The most bytes of the input.
    pub input: u32,
    pub ghost in_range: { AreLimits header syllable input },
}

impl Limits {
    /// The default limits: 65,536 bytes of headers, 16,384 bytes of a syllable, 4,294,967,295 bytes
    /// of input.
    pub const DEFAULT: Limits = Limits {
        header: 65_536,
        syllable: 16_384,
        input: u32::MAX,
    };

    /// Returns limits in bytes. `header` and `syllable` have to be 64 to 16,777,216, and `input` at
    /// least 64; for other numbers it returns `None`.
    pub fn new(header: u32, syllable: u32, input: u32) -> Option<Limits>
        ensures in_range { IsSome result ↔ AreLimits header syllable input }
        ensures header { IfSome result (λ limits. limits.header ≡ header) }
        ensures syllable { IfSome result (λ limits. limits.syllable ≡ syllable) }
        ensures input { IfSome result (λ limits. limits.input ≡ input) }
    {
        let range = 64..=16_777_216;
        if range.contains(&header) && range.contains(&syllable) && input >= 64 {
            Some(Limits {
                header,
                syllable,
                input,
            })
        } else {
            None
        }
    }
}

impl Default for Limits {
    ghost is_default = { λ l. AreUsual l.header l.syllable l.input };

    fn default() -> Limits {
        Limits::DEFAULT
    }
}
