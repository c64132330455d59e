//! The table of the codes' names. Code and definitions read this one.

ghost use Rattle.std.specs.Prelude.{◌≡◌, [], ◌∷◌, map};
ghost use Rattle.gabc_nabc.specs.KnownNames.{names_spelled};

/// The known codes: two letters and the name of the neume, in this project's words.
#[rattlefmt::skip]
pub(crate) const NAMES: [(char, char, &str); 31] = [
    ('v', 'i', "virga"),
    ('p', 'u', "punctum"),
    ('t', 'a', "tractulus"),
    ('g', 'r', "gravis"),
    ('c', 'l', "clivis"),
    ('p', 'e', "pes"),
    ('p', 'o', "porrectus"),
    ('t', 'o', "torculus"),
    ('c', 'i', "climacus"),
    ('s', 'c', "scandicus"),
    ('p', 'f', "porrectus-flexus"),
    ('s', 'f', "scandicus-flexus"),
    ('t', 'r', "torculus-resupinus"),
    ('s', 't', "stropha"),
    ('d', 's', "distropha"),
    ('t', 's', "tristropha"),
    ('t', 'g', "trigonus"),
    ('b', 'v', "bivirga"),
    ('t', 'v', "trivirga"),
    ('p', 'r', "pressus-maior"),
    ('p', 'i', "pressus-minor"),
    ('v', 's', "virga-strata"),
    ('o', 'r', "oriscus"),
    ('s', 'a', "salicus"),
    ('p', 'q', "pes-quassus"),
    ('p', 't', "pes-stratus"),
    ('q', 'l', "quilisma-three-loops"),
    ('q', 'i', "quilisma-two-loops"),
    ('u', 'n', "uncinus"),
    ('o', 'c', "oriscus-clivis"),
    ('n', 'i', "nihil"),
];

/// Law: the codes in the table of names are these, each with its name.
pub fn names_are_these()
    ensures { map (λ row. (row.0 ∷ row.1 ∷ [], row.2.now)) NAMES ≡ names_spelled }
{}
