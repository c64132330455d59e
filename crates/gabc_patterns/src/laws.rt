//! The laws of patterns and of tables, each the contract of a function that does nothing.
//!
//! A law of tables holds for rows of any type `K` of kinds. `¬ IsItem rows []` says that no row
//! spells the empty text.

ghost use Rattle.std.specs.Prelude.{◌≡◌, ◌↔◌, ℕ, List, [], ◌∷◌, ◌++◌, true, map, Decides};
ghost use Rattle.gabc_patterns.specs.Pattern.{Pattern, Spells};
ghost use Rattle.gabc_patterns.specs.LongestItems.{Table, Longest, IsItem, IsReading, OneKind, IsSnippet, IsViable};
ghost use Rattle.gabc_patterns.specs.ItemsRead.{ReadsTo};
ghost use Rattle.gabc_patterns.specs.Kept.{Keeps, Trims, IsKeptText};
ghost use Rattle.gabc_patterns.specs.Derivative.{may_end, derivative, is_snippet, is_viable};
ghost use Rattle.gabc_patterns.specs.Function.{items, keep, more_kept, trim, kept_text};
ghost use Rattle.gabc_patterns.specs.Reads.{spells, items_by, is_read, goes_on, whole_front};

/// Law: the derivative of a pattern spells what may follow a character, and a test shows whether it
/// spells the empty text.
pub fn derivative_spells_what_follows()
    ensures to { (p : Pattern) (c : ℕ) (t : List ℕ) → Spells p (c ∷ t) → Spells (derivative c p) t }
    ensures from { (p : Pattern) (c : ℕ) (t : List ℕ) → Spells (derivative c p) t →
        Spells p (c ∷ t) }
    ensures end { (p : Pattern) → Decides (may_end p) (Spells p []) }
{}

/// Law: two longest items that begin at one place are one.
pub fn longest_is_one<K>()
    ensures { (rows : Table K) (a b x y : List ℕ) → a ++ x ≡ b ++ y → Longest (IsItem rows) a x →
        Longest (IsItem rows) b y → (a ≡ b) × (x ≡ y) }
{}

/// Law: two readings of a text cut it alike, and are one if no text is spelled by rows of two
/// kinds.
pub fn reading_is_one<K>()
    ensures texts { (rows : Table K) → ¬ IsItem rows [] → (is js : List (K × List ℕ)) (t : List ℕ) →
        IsReading rows is t → IsReading rows js t → map (λ i. i.1) is ≡ map (λ i. i.1) js }
    ensures kinds { (rows : Table K) → ¬ IsItem rows [] → OneKind rows →
        (is js : List (K × List ℕ)) (t : List ℕ) → IsReading rows is t →
        IsReading rows js t → is ≡ js }
{}

/// Law: reading by derivatives, with the fallback run in parallel, decides which texts are snippets
/// and which are viable.
pub fn derivatives_decide<K>()
    ensures snippet { (rows : Table K) → ¬ IsItem rows [] → (t : List ℕ) →
        Decides (is_snippet rows t) (IsSnippet rows t) }
    ensures viable { (rows : Table K) → ¬ IsItem rows [] → (t : List ℕ) →
        Decides (is_viable rows t) (IsViable rows t) }
{}

/// Law: the function `items` reads each snippet.
pub fn items_read<K>()
    ensures { (rows : Table K) → ¬ IsItem rows [] → (t : List ℕ) → IsSnippet rows t →
        IsReading rows (items rows t) t }
{}

/// Law: a text has one list of items that reads it to the first place where no item begins, if no
/// text is spelled by rows of two kinds, and the function `items` returns such a list. A snippet is
/// read to its end.
pub fn items_read_as_far_as_one_begins<K>()
    ensures items { (rows : Table K) → ¬ IsItem rows [] → (t : List ℕ) →
        (rest : List ℕ) × ReadsTo rows (items rows t) t rest }
    ensures one { (rows : Table K) → ¬ IsItem rows [] → OneKind rows →
        (is js : List (K × List ℕ)) (t r s : List ℕ) → ReadsTo rows is t r → ReadsTo rows js t s →
        (is ≡ js) × (r ≡ s) }
    ensures snippet { (rows : Table K) → ¬ IsItem rows [] → (is : List (K × List ℕ)) (t : List ℕ) →
        IsReading rows is t ↔ ReadsTo rows is t [] }
{}

/// Law: the functions `keep`, `trim` and `kept_text` compute what the relations say, and no other
/// value is so related.
pub fn kept_is_computed<K>()
    ensures keeps { (rows : Table K) → ¬ IsItem rows [] → (t all : List ℕ) → Keeps rows [] t all →
        all ≡ keep rows t }
    ensures keep { (rows : Table K) → ¬ IsItem rows [] → (t : List ℕ) →
        Keeps rows [] t (keep rows t) }
    ensures trims { (rows : Table K) → ¬ IsItem rows [] → (t prefix : List ℕ) →
        Trims rows t prefix → prefix ≡ trim rows t }
    ensures trim { (rows : Table K) → ¬ IsItem rows [] → (t : List ℕ) → Trims rows t (trim rows t) }
    ensures is_kept_text { (rows : Table K) → ¬ IsItem rows [] → (t kept : List ℕ) →
        IsKeptText rows t kept → kept ≡ kept_text rows t }
    ensures kept_text { (rows : Table K) → ¬ IsItem rows [] → (t : List ℕ) →
        IsKeptText rows t (kept_text rows t) }
{}

/// Law: the kept text of a prefix of a text stays kept, whatever follows; what is kept after it
/// depends on what was kept of it.
pub fn kept_prefix_stays<K>()
    ensures { (rows : Table K) (s t : List ℕ) →
        keep rows (s ++ t) ≡ keep rows s ++ more_kept rows (keep rows s) t }
{}

/// Law: a viable text is kept whole; a snippet is its own longest prefix and its own kept text.
pub fn viable_text_is_kept<K>()
    ensures keeps { (rows : Table K) (t : List ℕ) → IsViable rows t → Keeps rows [] t t }
    ensures trims { (rows : Table K) (t : List ℕ) → IsSnippet rows t → Trims rows t t }
    ensures is_kept_text { (rows : Table K) (t : List ℕ) → IsSnippet rows t → IsKeptText rows t t }
{}

/// Law: what is kept is kept again, whole; so is a kept text, and it is a snippet.
pub fn kept_text_is_kept_again<K>()
    ensures keeps { (rows : Table K) (t all : List ℕ) → Keeps rows [] t all →
        Keeps rows [] all all }
    ensures is_kept_text { (rows : Table K) (t kept : List ℕ) → IsKeptText rows t kept →
        IsKeptText rows kept kept }
    ensures snippet { (rows : Table K) (t kept : List ℕ) → IsKeptText rows t kept →
        IsSnippet rows kept }
{}

/// Law: each prefix of what is kept is viable.
pub fn prefixes_of_kept_are_viable<K>()
    ensures { (rows : Table K) (t all prefix rest : List ℕ) → Keeps rows [] t all →
        all ≡ prefix ++ rest → IsViable rows prefix }
{}

/// Law: a test shows whether a pattern spells a text, by what may follow each character.
pub fn spelling_is_decided()
    ensures { (p : Pattern) (t : List ℕ) → Decides (spells p t) (Spells p t) }
{}

/// Law: the items, each the longest beginning that a row spells, are those of the function `items`,
/// if no text is spelled by rows of two kinds.
pub fn items_are_longest_parts<K>()
    ensures { (rows : Table K) → ¬ IsItem rows [] → OneKind rows → (t : List ℕ) →
        items_by rows t ≡ items rows t }
{}

/// Law: whether such items make up a text decides which texts are snippets, and a text that they
/// make up with something after it is viable.
pub fn reading_is_decided<K>()
    ensures snippet { (rows : Table K) → ¬ IsItem rows [] → OneKind rows → (t : List ℕ) →
        Decides (is_read rows t) (IsSnippet rows t) }
    ensures viable { (rows : Table K) → ¬ IsItem rows [] → OneKind rows →
        (ends : List (List ℕ)) (t : List ℕ) → goes_on rows ends t ≡ true → IsViable rows t }
{}

/// Law: the longest beginning of a text that such items make up is what the function `trim` leaves
/// of it.
pub fn whole_front_is_trimmed_to<K>()
    ensures { (rows : Table K) → ¬ IsItem rows [] → OneKind rows → (t : List ℕ) →
        whole_front rows t ≡ trim rows t }
{}
