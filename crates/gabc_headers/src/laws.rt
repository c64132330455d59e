//! Laws of the definitions alone. Each function's contract is a law; its body does nothing, or
//! calls another law that it rests on.

ghost use Rattle.std.specs.Prelude.{◌≡◌, ◌+◌, ◌<◌, ◌≤◌, ℕ, Bool, true, false, List, [], ◌∷◌, ◌++◌, length, take, Option, Result, Ok, Err};
ghost use Rattle.std.specs.Char.{IsScalar};
ghost use Rattle.std.specs.List.{All};
ghost use Rattle.std.specs.declared.hash.DefaultHasher.{DefaultHasher};
ghost use Rattle.gabc_places.specs.declared.code.Fault.{Fault};
ghost use Rattle.gabc_places.specs.declared.limits.Limits.{Limits};
ghost use Rattle.gabc_places.specs.LargerLimits.{AreNoLess};
ghost use Rattle.gabc_places.specs.Findings.{AreInOrder, LieBetween};
ghost use Rattle.gabc_places.specs.Place.{place_after};
ghost use Rattle.gabc_places.specs.StageLaw.{concat_of};
ghost use Rattle.gabc_headers.specs.declared.heads.Heads.{Heads};
ghost use Rattle.gabc_headers.specs.declared.heads.HeadFault.{HeadFault};
ghost use Rattle.gabc_headers.specs.Heads.{head_len, heads_of, findings_of, line_place};
ghost use Rattle.gabc_headers.specs.Book.{macros_of, nabc_lines_of, standing_entries};
ghost use Rattle.gabc_headers.specs.Canonical.{canonical_heads, header_lines};
ghost use Rattle.gabc_headers.specs.Lines.{bytes_len};
ghost use Rattle.gabc_headers.specs.HeadsAgain.{heads_again};
ghost use Rattle.gabc_headers.specs.HeadsOfGroups.{AreHeads};
ghost use Rattle.gabc_headers.specs.HeldText.{IsHeld};
ghost use Rattle.gabc_headers.specs.TooLong.{is_too_long};
ghost use Rattle.gabc_headers.specs.EntryMap.{put_all};
ghost use Rattle.gabc_headers.specs.Groups.{Group, AreGroups, parts_of_groups};
ghost use Rattle.gabc_headers.specs.HeadEvents.{emitted_by, events_of_broken, events_of_heads, events_of_stopped, inputs_after};
ghost use Rattle.gabc_headers.specs.witness.HeadEvents.{events_left, fresh_stage, reading, stage_past};
ghost use Rattle.gabc_places.specs.Decoder.{fault_items};
ghost use Rattle.gabc_headers.specs.witness.Parts.{outside, parts};

pub use crate::nabc_lines::nabc_lines_are_these;

/// Law: the lines of the headers, whatever they are, can be cut into groups.
pub fn lines_have_groups()
    ensures { (lines : List (List ℕ)) → (groups : List Group) × AreGroups lines groups }
{}

/// Law: two cuttings of the same lines are one.
pub fn groups_are_unique()
    ensures { (lines : List (List ℕ)) (groups others : List Group) → AreGroups lines groups →
        AreGroups lines others → groups ≡ others }
{}

/// Law: the parts of lines, the first of which has the number k and begins at point n, follow from
/// their groups: of each header its name and its value, and the parts left out.
pub fn groups_give_parts()
    ensures { (lines : List (List ℕ)) (groups : List Group) (k n : ℕ) → AreGroups lines groups →
        parts outside k n lines ≡ parts_of_groups k n groups }
{}

/// Law: the headers of a text are those of the groups of its lines, and no others are.
pub fn heads_are_of_groups()
    ensures are { (limits : Limits) (t : List ℕ) → AreHeads limits t (heads_of limits t) }
    ensures one { (limits : Limits) (t : List ℕ) (read : Result Heads HeadFault) →
        AreHeads limits t read → read ≡ heads_of limits t }
{}

/// Law: headers that are put in turn, each of which replaces the value of an earlier one of its
/// name unless it is an `annotation`, leave the book: each name at the place of its first header
/// and with the value of its last.
pub fn last_value_at_first_place()
    ensures { (entries : List (List ℕ × List ℕ)) →
        put_all [] entries ≡ standing_entries [] entries }
{}

/// Law: the findings of headers are in order: by their places, none twice.
pub fn findings_in_order()
    ensures { (limits : Limits) (t : List ℕ) → AreInOrder (findings_of (heads_of limits t)) }
{}

/// Law: headers that are read without a fault have a line that begins with `%%`; their body is
/// after these two characters.
pub fn the_body_follows_the_mark()
    ensures { (limits : Limits) (t : List ℕ) (heads : Heads) → heads_of limits t ≡ Ok heads →
        head_len t + 2 ≤ length t }
{}

/// Law: headers that are read whole have their findings at the first place of the text or later,
/// and no later than the line `%%`.
pub fn findings_lie_before_the_body()
    ensures { (limits : Limits) (t : List ℕ) (heads : Heads) → heads_of limits t ≡ Ok heads →
        LieBetween (line_place 1) (place_after (take (head_len t) t)) heads.findings }
{}

/// Law: the text after the line `%%` is no matter to the headers: if those of a text are read
/// whole, then with another text after these two characters they end there too, and are read whole
/// with the same book.
pub fn the_headers_end_at_their_mark()
    ensures length { (limits : Limits) (t more : List ℕ) (heads : Heads)
        → heads_of limits t ≡ Ok heads → head_len (take (head_len t + 2) t ++ more) ≡ head_len t }
    ensures book { (limits : Limits) (t more : List ℕ) (heads : Heads)
        → heads_of limits t ≡ Ok heads
        → (other : Heads) × (heads_of limits (take (head_len t + 2) t ++ more) ≡ Ok other)
        × (other.book ≡ heads.book) }
{}

/// Law: the canonical lines of a book, with whatever follows their `%%`, are read as that book
/// under the same limits or larger ones: no header is left out, none comes twice, and nothing stops
/// them. They end at this `%%`. All that can be found is that there is no header `name`. It would
/// not hold if a value on lines of its own had no blank before it.
pub fn book_again()
    ensures read { (limits larger : Limits) (t more : List ℕ) (heads : Heads)
        → AreNoLess limits larger → heads_of limits t ≡ Ok heads
        → heads_of larger (canonical_heads heads.book ++ more) ≡ Ok (heads_again heads.book) }
    ensures ends { (limits : Limits) (t more : List ℕ) (heads : Heads)
        → heads_of limits t ≡ Ok heads
        → head_len (canonical_heads heads.book ++ more) ≡ length (header_lines heads.book) }
{}

/// Law: the canonical lines of a book have no more bytes than the limit of the headers, and with
/// `%%` and an LF no more than the limit of the input.
pub fn canonical_lines_are_within_the_limits()
    ensures { (limits : Limits) (t : List ℕ) (heads : Heads) → heads_of limits t ≡ Ok heads →
        (bytes_len (header_lines heads.book) ≤ limits.header)
        × (bytes_len (canonical_heads heads.book) + 1 ≤ limits.input) }
{}

/// Law: larger limits change nothing if the headers were not too long: headers that are read, or
/// that are stopped by something else, are read or stopped so under limits that are no less, if the
/// limit of the input is the same. The fault of headers that are too long never has the end of the
/// text as its point.
pub fn larger_limits_change_no_headers()
    ensures same { (limits larger : Limits) (t : List ℕ) → AreNoLess limits larger
        → limits.input ≡ larger.input
        → ((stop : HeadFault) → heads_of limits t ≡ Err stop → is_too_long stop.fault.code ≡ false)
        → heads_of larger t ≡ heads_of limits t }
    ensures inside { (limits : Limits) (t : List ℕ) (stop : HeadFault)
        → heads_of limits t ≡ Err stop → is_too_long stop.fault.code ≡ true
        → stop.at_end ≡ false }
{}

/// Law: a text whose headers are stopped by its end alone is read so under all limits that are no
/// less than its bytes.
pub fn a_held_text_is_held_under_other_limits()
    ensures { (limits other : Limits) (t : List ℕ) → IsHeld limits t →
        bytes_len t ≤ limits.header → bytes_len t ≤ other.header →
        heads_of other t ≡ heads_of limits t }
{}

/// Law: the numbers that the headers of a book give are in range: at most 4 NABC lines, the macros
/// of ten digits, and at least the two bytes of the `%%`.
pub fn the_numbers_of_headers_are_in_range()
    ensures lines { (book : List (List ℕ × List ℕ)) → nabc_lines_of book ≤ 4 }
    ensures macros { (book : List (List ℕ × List ℕ)) → macros_of book < 1024 }
    ensures mark { (book : List (List ℕ × List ℕ)) → 2 ≤ bytes_len (canonical_heads book) }
{
    nabc_lines_are_these();
}

/// Law: emitted character by character, the headers of a text are what they are when they are read
/// whole, followed by the characters of its body and its end: no finding, stop or character comes
/// twice, and none is left out.
pub fn events_make_the_headers()
    ensures { (limits : Limits) (t : List ℕ) → All IsScalar t →
        concat_of (events_left limits (reading []) (inputs_after [] t))
        ≡ events_of_heads t (heads_of limits t) }
{}

/// Law: the events of a text's characters do not wait for the end of the input. A text that breaks
/// off emits its findings, its headers and each character of its body. If a fault stops it, this
/// fault comes after them, unless the headers were stopped before. Then the end emits nothing more.
pub fn events_need_no_end()
    ensures broken { (limits : Limits) (t : List ℕ) → All IsScalar t →
        let xs = inputs_after [] t in
        emitted_by false xs (events_left limits (reading []) xs)
        ≡ events_of_broken t (heads_of limits t) }
    ensures stopped { (limits : Limits) (t : List ℕ) (fault : Fault) (ended : Bool) →
        All IsScalar t → let xs = inputs_after [] t ++ Err fault ∷ [] in
        emitted_by ended xs (events_left limits (reading []) xs)
        ≡ events_of_stopped fault t (heads_of limits t) }
{}

/// Law: once a stage has read the characters of a text whose headers are whole, it holds their
/// book; a fault after them does not change the book.
pub fn the_book_is_read()
    ensures { (limits : Limits) (hasher : DefaultHasher) (t : List ℕ) (heads : Heads)
        (fault : Option Fault) → All IsScalar t → heads_of limits t ≡ Ok heads →
        (stage_past (fresh_stage limits hasher) (inputs_after [] t ++ fault_items fault)).book
        ≡ heads.book }
{}
