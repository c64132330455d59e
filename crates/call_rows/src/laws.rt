//! Calls laws, each once: at a type of kinds, and if a law takes arguments, at those that a caller
//! has.

use gabc_headers::{HeadEvent, HeaderStage};
use gabc_nabc::NabcStage;
use gabc_notes::NoteStage;
use gabc_places::{Code, Fault, Limits, Place, Room, laws as places};
use std::alloc::{AllocError, Global};
use std::io;

/// Calls the laws of tables of patterns.
fn call_patterns() {
    gabc_patterns::laws::derivative_spells_what_follows();
    gabc_patterns::laws::longest_is_one::<u8>();
    gabc_patterns::laws::reading_is_one::<u8>();
    gabc_patterns::laws::derivatives_decide::<u8>();
    gabc_patterns::laws::items_read::<u8>();
    gabc_patterns::laws::kept_is_computed::<u8>();
    gabc_patterns::laws::kept_prefix_stays::<u8>();
    gabc_patterns::laws::viable_text_is_kept::<u8>();
    gabc_patterns::laws::kept_text_is_kept_again::<u8>();
    gabc_patterns::laws::prefixes_of_kept_are_viable::<u8>();
}

/// Calls the laws of texts and places.
fn call_places() {
    places::texts_are_plain();
    places::codes_are_these();
    places::texts_are_scalars_within_the_limit();
    places::text_again();
    places::a_prefix_of_a_text_is_read_of_a_prefix_of_its_bytes();
    places::first_place();
    places::characters_come_after_the_text_before();
    places::places_need_nothing_after();
    places::earliest_is_least();
}

/// Calls the laws of headers.
fn call_headers() {
    gabc_headers::laws::lines_have_groups();
    gabc_headers::laws::groups_are_unique();
    gabc_headers::laws::groups_give_parts();
    gabc_headers::laws::heads_are_of_groups();
    gabc_headers::laws::last_value_at_first_place();
    gabc_headers::laws::findings_in_order();
    gabc_headers::laws::findings_lie_before_the_body();
    gabc_headers::laws::the_body_follows_the_mark();
    gabc_headers::laws::book_again();
    gabc_headers::laws::canonical_lines_are_within_the_limits();
    gabc_headers::laws::events_make_the_headers();
    gabc_headers::laws::events_need_no_end();
    gabc_headers::laws::the_headers_end_at_their_mark();
    gabc_headers::laws::the_book_is_read();
}

/// Calls the laws of notes and of NABC.
fn call_notes() {
    let notes = NoteStage::new(true, 2);
    gabc_notes::laws::stages_that_report_the_same_agree(&notes, &notes);
    gabc_notes::laws::stages_after_one_text_agree();
    gabc_notes::laws::an_opener_is_reported_inside_raw();
    gabc_notes::laws::a_kept_character_is_kept_again();
    gabc_notes::laws::a_kept_text_gives_the_stage_back(&notes);
    gabc_notes::laws::no_item_is_empty();
    gabc_notes::laws::an_item_has_one_kind();
    gabc_notes::laws::kept_again();
    let nabc = NabcStage::new();
    gabc_nabc::laws::stages_after_one_text_agree();
    gabc_nabc::laws::a_kept_text_gives_the_stage_back(&nabc);
    gabc_nabc::laws::no_part_is_empty();
    gabc_nabc::laws::a_part_has_one_kind();
    gabc_nabc::laws::parts_are_computed();
    gabc_nabc::laws::kept_again();
}

/// Calls the laws of texts, of scores and of writers.
fn call_scores() {
    gabc_text::laws::view_again();
    gabc_score::laws::given_syllables_are_within_the_limits();
    gabc_score::laws::no_limit_is_passed_by_short_units();
    gabc_score::laws::a_score_warns_as_its_parts_do();
    gabc_score::laws::a_stage_of_headers_emits_the_events();
    gabc_score::laws::syllables_are_fewer_than_bytes();
    gabc_score::stage_laws::texts_are_read_in_full();
    gabc_score::stage_laws::inputs_that_cease_give_no_stop();
    gabc_score::stage_laws::nothing_follows_a_stop();
    gabc_score::stage_laws::the_end_comes_with_the_end();
    gabc_write::laws::syllable_again();
    gabc_write::laws::body_again();
    gabc_write::laws::file_again();
    gabc_write::laws::score_is_printed();
    gabc_write::laws::score_again();
}

/// Returns whether a stage of headers stops with the fault that comes in, and then emits nothing.
fn headers_stop(alloc: Global) -> Result<bool, AllocError> {
    let mut out = Room::with_limit(alloc, 4)?;
    let mut stage = HeaderStage::with_limits(alloc, Limits::DEFAULT)?;
    let fault = Fault {
        place: Place::START,
        code: Code::F1,
    };
    gabc_headers::stage_laws::an_input_is_taken(&mut stage, Err(fault), &mut out);
    gabc_headers::stage_laws::the_end_is_taken(&mut stage, &mut out);
    drop(stage);
    Ok(out.slice() == [HeadEvent::Stop(fault)].as_slice())
}

/// Returns whether a fresh stage of headers stops at the end of an empty input.
fn empty_headers_stop(alloc: Global) -> Result<bool, AllocError> {
    let mut out = Room::with_limit(alloc, 2)?;
    let inputs = Vec::new(alloc);
    gabc_headers::stage_laws::a_fresh_stage_emits(alloc, Limits::DEFAULT, inputs, &mut out)?;
    let fault = Fault {
        place: Place::START,
        code: Code::F2,
    };
    Ok(out.slice() == [HeadEvent::Stop(fault)].as_slice())
}

/// Returns whether fresh stages of notes and of NABC emit one event of an empty snippet.
fn snippets_end(alloc: Global) -> Result<bool, AllocError> {
    let mut out = Room::with_limit(alloc, 3)?;
    gabc_notes::laws::a_fresh_stage_emits(false, 0, Vec::new(alloc), &mut out);
    let count = out.slice().len();
    out.clear();
    gabc_nabc::laws::a_fresh_stage_emits(Vec::new(alloc), &mut out);
    Ok(count == 1 && out.slice().len() == 1)
}

/// Calls laws, and prints whether those that drive a stage emit what they have to.
pub(crate) fn call_laws(rt: &HostRuntime) -> io::Result<()> {
    call_patterns();
    call_places();
    call_headers();
    call_notes();
    call_scores();
    let alloc = rt.alloc();
    let well = headers_stop(alloc)? && empty_headers_stop(alloc)? && snippets_end(alloc)?;
    println!(rt;
        "laws: {}",
        if well {
            "stages emit what they have to"
        } else {
            "a stage differs"
        }
    )
}
