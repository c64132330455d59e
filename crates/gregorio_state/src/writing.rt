//! The bytes of a saved state, written.

ghost use Rattle.std.specs.Prelude.{◌≡◌, ◌++◌, ◌+◌, ◌*◌, ◌<◌, ◌≤◌, ◌^◌, max, map, length, drop, OnOk, OnErr, IfOk, IsOk};
ghost use Rattle.std.specs.Int.{w16, w32, w64};
ghost use Rattle.gregorio_state.specs.Fields.{score_of, phase_of, fields_of, holding, phase_holding, with_held};
ghost use Rattle.gregorio_state.specs.machine.HeldTexts.{text_held};
ghost use Rattle.gregorio_state.specs.Conditions.{AreStateFields};
ghost use Rattle.gabc_places.specs.Filling.{filled};
ghost use Rattle.gregorio_state.specs.machine.Lengths.{AreShort};
ghost use Rattle.gregorio_state.specs.StateBytes.{number_bytes, flag_bytes, text_bytes, place_bytes, opener_bytes, spans_number, format_number, clef_bytes, alter_number, score_bytes, phase_bytes, state_bytes};

use crate::fields::{Phase, ScoreFields, StateFields};
use crate::put_text::PutText;
use crate::too_short::TooShort;
use gabc_neumes::{Alter, Clef};
use gabc_places::{BufferFiller, ByteCounter, Place, Put};
use gregorio_jobs::Format;

/// Puts `number` in 2 bytes, the highest first.
#[tactic(auto, unfolding(crate::specs::StateBytes::number_bytes))]
fn put_u16<S: Put>(number: u16, out: &mut S)
    ensures { out.new ≡ S.taken out.old (number_bytes w16 number) }
{
    out.put(&number.to_be_bytes());
}

/// Puts `number` in 4 bytes, the highest first.
#[tactic(auto, unfolding(crate::specs::StateBytes::number_bytes))]
fn put_u32<S: Put>(number: u32, out: &mut S)
    ensures { out.new ≡ S.taken out.old (number_bytes w32 number) }
{
    out.put(&number.to_be_bytes());
}

/// Puts `number` in 8 bytes, the highest first.
#[tactic(auto, unfolding(crate::specs::StateBytes::number_bytes))]
fn put_u64<S: Put>(number: u64, out: &mut S)
    ensures { out.new ≡ S.taken out.old (number_bytes w64 number) }
{
    out.put(&number.to_be_bytes());
}

/// Puts `flag`: 0, or 1 if it is set.
fn put_flag<S: Put>(flag: bool, out: &mut S)
    ensures { out.new ≡ S.taken out.old (flag_bytes flag) }
{
    out.put(&[u8::from(flag)]);
}

/// Returns the number of bytes of `text`.
fn len_of<T: PutText>(text: &T) -> usize
    requires { length (T.text text.now) < 2 ^ 32 }
    ensures { result ≡ length (T.text text.now) }
{
    let mut counter = ByteCounter::new();
    text.put_into(&mut counter);
    counter.count()
}

/// Puts the length of `text` in bytes, and `text`.
fn put_text<T: PutText, S: Put>(text: &T, out: &mut S)
    requires { length (T.text text.now) < 2 ^ 32 }
    ensures { out.new ≡ S.taken out.old (text_bytes (T.text text.now)) }
{
    put_u32(len_of(text) as u32, out);
    text.put_into(out);
}

/// Puts `place`.
fn put_place<S: Put>(place: Place, out: &mut S)
    ensures { out.new ≡ S.taken out.old (place_bytes place) }
{
    put_u64(place.line, out);
    put_u64(place.column, out);
}

/// Puts the place `opener`, or the line 0 and the column 0 if there is none.
fn put_opener<S: Put>(opener: Option<Place>, out: &mut S)
    ensures { out.new ≡ S.taken out.old (opener_bytes opener) }
{
    match opener {
        None => put_place(Place { line: 0, column: 0 }, out),
        Some(place) => put_place(place, out),
    }
}

/// Returns the number of `format`.
fn number_of_format(format: Format) -> u8
    ensures { result ≡ format_number format }
{
    match format {
        Format::Gabc => 0,
        Format::Dump => 1,
    }
}

/// Puts `clef`: 1 for a c and 2 for an f, its `b`, its line; or 0 three times if there is none.
fn put_clef<S: Put>(clef: Option<Clef>, out: &mut S)
    ensures { out.new ≡ S.taken out.old (clef_bytes clef) }
{
    match clef {
        None => out.put(&[0, 0, 0]),
        Some(clef) => {
            let letter = if clef.f { 2 } else { 1 };
            out.put(&[letter, u8::from(clef.flat), clef.line]);
        }
    }
}

/// Returns the number of `alter`.
fn number_of_alter(alter: Alter) -> u8
    ensures { result ≡ alter_number alter }
{
    match alter {
        Alter::None => 0,
        Alter::Flat => 1,
        Alter::Natural => 2,
        Alter::Sharp => 3,
    }
}

/// Puts the number of each of `alters`.
fn put_alters<S: Put>(alters: &[Alter], out: &mut S)
    ensures { out.new ≡ S.taken out.old (map alter_number alters.now) }
{
    for alter in alters {
        out.put(&[number_of_alter(*alter)]);
    }
}

/// Returns the number of the open spans: 1 for that of `<eu>` and 2 for that of `<nlba>`, added up.
fn number_of_spans(eu: bool, nlba: bool) -> u8
    ensures { result ≡ spans_number eu nlba }
{
    u8::from(eu) + 2 * u8::from(nlba)
}

impl ScoreFields<'_> {
    /// Puts the fields in their order, with `held` as the pending text. Each text has to have less
    /// than 2^32 bytes.
    fn write<H: PutText, S: Put>(&self, held: &H, out: &mut S)
        requires held { length (H.text held.now) < 2 ^ 32 }
        requires kept { length self.now.kept.now < 2 ^ 32 }
        ensures { out.new
            ≡ S.taken out.old (score_bytes (with_held (H.text held.now) (score_of self.now))) }
    {
        out.put(&[self.nabc_lines]);
        put_u16(self.macros, out);
        put_u32(self.syllables, out);
        put_u32(self.canonical, out);
        out.put(&[number_of_spans(self.in_eu, self.in_nlba)]);
        put_flag(self.sounded, out);
        put_clef(self.clef, out);
        put_alters(&self.alters, out);
        put_text(held, out);
        put_flag(self.in_comment, out);
        put_opener(self.notes_opener, out);
        put_opener(self.inner_opener, out);
        put_text(&self.kept, out);
    }
}

impl Phase<'_> {
    /// Returns the pending text. In the headers it is empty.
    fn held(&self) -> &str
        ensures { result.now ≡ text_held (phase_of self.now) }
    {
        match self {
            Phase::Headers(_) => "",
            Phase::Score(fields) => fields.held,
        }
    }

    /// Puts 0 and the text of the headers, or 1 and the fields of the score with `held` as the
    /// pending text. Each text has to have less than 2^32 bytes.
    fn write<H: PutText, S: Put>(&self, held: &H, out: &mut S)
        requires { AreShort (phase_holding (H.text held.now) (phase_of self.now)) }
        ensures { out.new
            ≡ S.taken out.old (phase_bytes (phase_holding (H.text held.now) (phase_of self.now))) }
    {
        match self {
            Phase::Headers(text) => {
                out.put(&[0]);
                put_text(text, out);
            }
            Phase::Score(fields) => {
                out.put(&[1]);
                fields.write(held, out);
            }
        }
    }
}

impl StateFields<'_> {
    /// Puts the bytes of the state, as many as `len` returns. The fields have to meet the
    /// conditions of a saved state.
    pub fn write<S: Put>(&self, out: &mut S)
        requires { AreStateFields (fields_of self.now) }
        ensures { out.new ≡ S.taken out.old (state_bytes (fields_of self.now)) }
    {
        let held = self.phase.held();
        self.write_holding(&held, out);
    }

    /// Puts the bytes of the state with `held` as the pending text.
    fn write_holding<H: PutText, S: Put>(&self, held: &H, out: &mut S)
        requires { AreStateFields (holding (H.text held.now) (fields_of self.now)) }
        ensures { out.new
            ≡ S.taken out.old (state_bytes (holding (H.text held.now) (fields_of self.now))) }
    {
        out.put(b"GSAV");
        out.put(&[3]);
        out.put(&[number_of_format(self.format)]);
        put_flag(self.all_warnings, out);
        put_u32(self.limits.header, out);
        put_u32(self.limits.syllable, out);
        put_u32(self.limits.input, out);
        put_u32(self.taken, out);
        put_place(self.place, out);
        out.put(&[self.pending.len() as u8]);
        out.put(self.pending);
        put_flag(self.after_cr, out);
        put_flag(self.has_error, out);
        self.phase.write(held, out);
    }

    /// Writes the bytes of the state with `held` as the pending text to the front of `buf`, as many
    /// as fit.
    fn fill<H: PutText>(&self, held: &H, buf: &mut [u8])
        requires { AreStateFields (holding (H.text held.now) (fields_of self.now)) }
        ensures { buf.new
            ≡ filled buf.old 0 (state_bytes (holding (H.text held.now) (fields_of self.now))) }
    {
        self.write_holding(held, &mut BufferFiller { buf, len: 0 });
    }

    /// Writes the bytes of the state to the front of `buf`, and returns their number. Fails if
    /// `buf` has fewer bytes than the state, and then `buf` is unchanged. The fields have to meet
    /// the conditions of a saved state.
    pub fn save_into(&self, buf: &mut [u8]) -> Result<usize, TooShort>
        requires { AreStateFields (fields_of self.now) }
        ensures written { OnOk result (buf.new ≡ state_bytes (fields_of self.now)
            ++ drop (length (state_bytes (fields_of self.now))) buf.old) }
        ensures len { IfOk result (λ len. len ≡ length (state_bytes (fields_of self.now))) }
        ensures longer { OnErr result
            (length buf.old < length (state_bytes (fields_of self.now))) }
        ensures unchanged { OnErr result (buf.new ≡ buf.old) }
    {
        let held = self.phase.held();
        self.save_holding(&held, buf)
    }

    /// Writes the bytes of the state as `save_into` does, with the text `held` in place of the
    /// pending text of the fields, which is not read. The fields with that text have to meet the
    /// conditions of a saved state. It does not fail if `buf` is as long as `len` can return.
    pub fn save_holding<H: PutText>(&self, held: &H, buf: &mut [u8]) -> Result<usize, TooShort>
        requires { AreStateFields (holding (H.text held.now) (fields_of self.now)) }
        ensures written { OnOk result (
            let bytes = state_bytes (holding (H.text held.now) (fields_of self.now)) in
            buf.new ≡ bytes ++ drop (length bytes) buf.old) }
        ensures len { IfOk result (λ len. len
            ≡ length (state_bytes (holding (H.text held.now) (fields_of self.now)))) }
        ensures longer { OnErr result (length buf.old
            < length (state_bytes (holding (H.text held.now) (fields_of self.now)))) }
        ensures unchanged { OnErr result (buf.new ≡ buf.old) }
        ensures short { max self.now.limits.header (2 * self.now.limits.syllable) + 128
            ≤ length buf.old → IsOk result }
    {
        let len = self.len_holding(held);
        if buf.len() < len {
            return Err(TooShort);
        }
        self.fill(held, buf);
        Ok(len)
    }

    /// Returns the number of bytes of the state: at most the limit of the headers or twice the
    /// limit of a syllable, whichever is more, and 128. The fields have to meet the conditions of a
    /// saved state.
    pub fn len(&self) -> usize
        requires { AreStateFields (fields_of self.now) }
        ensures len { result ≡ length (state_bytes (fields_of self.now)) }
        ensures short { result
            ≤ max self.now.limits.header (2 * self.now.limits.syllable) + 128 }
    {
        let held = self.phase.held();
        self.len_holding(&held)
    }

    /// Returns the number of bytes of the state as `len` does, with the text `held` in place of the
    /// pending text of the fields, which is not read. The fields with that text have to meet the
    /// conditions of a saved state.
    pub fn len_holding<H: PutText>(&self, held: &H) -> usize
        requires { AreStateFields (holding (H.text held.now) (fields_of self.now)) }
        ensures len { result
            ≡ length (state_bytes (holding (H.text held.now) (fields_of self.now))) }
        ensures short { result
            ≤ max self.now.limits.header (2 * self.now.limits.syllable) + 128 }
    {
        let mut counter = ByteCounter::new();
        self.write_holding(held, &mut counter);
        counter.count()
    }
}
