//! A machine that reads items a character at a time.

ghost use Rattle.std.specs.Prelude.{◌≡◌, IfSome};
ghost use Rattle.gabc_notes.specs.machine.ItemMachine.{IsShortStep, begins_item, goes_on_note, begun_item, in_pitch, in_bar, in_break, going_on, falling_back, next_or_begun, next_state, kind_at_end, kind_of_full, whole_at, raw_state, attribute_state};

use crate::class::CharClass;
use crate::item::ItemKind;

/// An item that nothing can follow.
#[derive(Clone, Copy)]
pub(crate) enum FullItem {
    Alteration,
    Clef,
    Spacing,
    Custos,
    Break,
    Attribute,
    Fusion,
}

/// The state of the item machine.
#[derive(Clone, Copy)]
pub(crate) enum ItemState {
    /// Between items.
    Start,
    /// After the `-` of a note.
    Dash,
    /// After `-` and a small pitch.
    DashPitch,
    /// In a note: after a capital, a suffix or its digits.
    Body,
    /// After a small pitch that begins no clef.
    Pitch,
    /// After `c` or `f`.
    ClefPitch,
    /// After `cb` or `fb`, which are two notes if no digit follows.
    ClefFlat,
    /// After a clef.
    Clef,
    /// After a clef and `@`.
    Join,
    /// After a clef, `@` and `c` or `f`.
    JoinPitch,
    /// After a clef, `@` and `cb` or `fb`.
    JoinFlat,
    /// After an alteration that may have `?`.
    Altered,
    /// After a pitch and `#`.
    Sharp,
    Bar,
    Colon,
    /// After the `?` of a bar.
    BarAsked,
    /// After a `'` or `_` of a bar or its digits.
    BarSigned,
    Slash,
    Blanks,
    SmallZ,
    CapitalZ,
    /// In an attribute.
    Raw,
    /// In a spacing `/[..]`.
    SlashRaw,
    At,
    Done(FullItem),
}

/// Returns the state after the first character of an item, if that may begin one.
fn begins(class: CharClass) -> Option<ItemState>
    ensures { result ≡ begun_item class }
{
    match class {
        CharClass::Hyphen => Some(ItemState::Dash),
        CharClass::ClefLetter => Some(ItemState::ClefPitch),
        CharClass::FlatB | CharClass::Pitch => Some(ItemState::Pitch),
        CharClass::Capital => Some(ItemState::Body),
        CharClass::BarMark => Some(ItemState::Bar),
        CharClass::Colon => Some(ItemState::Colon),
        CharClass::Slash => Some(ItemState::Slash),
        CharClass::Bang => Some(ItemState::Done(FullItem::Spacing)),
        CharClass::Blank => Some(ItemState::Blanks),
        CharClass::SmallZ => Some(ItemState::SmallZ),
        CharClass::CapitalZ => Some(ItemState::CapitalZ),
        CharClass::Open => Some(ItemState::Raw),
        CharClass::At => Some(ItemState::At),
        CharClass::Close => Some(ItemState::Done(FullItem::Fusion)),
        _ => None,
    }
}

/// Returns the state after a small pitch and a character more, if the item goes on.
fn on_pitch(class: CharClass) -> Option<ItemState>
    ensures { result ≡ in_pitch class }
{
    match class {
        CharClass::Sign | CharClass::Suffix => Some(ItemState::Body),
        CharClass::Alter => Some(ItemState::Altered),
        CharClass::Hash => Some(ItemState::Sharp),
        CharClass::Plus => Some(ItemState::Done(FullItem::Custos)),
        _ => None,
    }
}

/// Returns the state after a bar and a character more, if it goes on.
fn on_bar(class: CharClass) -> Option<ItemState>
    ensures { result ≡ in_bar class }
{
    match class {
        CharClass::Zero | CharClass::ClefDigit | CharClass::Digit => Some(ItemState::Bar),
        CharClass::Question => Some(ItemState::BarAsked),
        CharClass::Sign => Some(ItemState::BarSigned),
        _ => None,
    }
}

/// Returns the state after a break and a character more, if it goes on.
fn on_break(class: CharClass) -> Option<ItemState>
    ensures { result ≡ in_break class }
{
    match class {
        CharClass::Plus | CharClass::Hyphen => Some(ItemState::Done(FullItem::Break)),
        _ => None,
    }
}

/// Returns the state after a character more, if the item goes on.
#[inline(always)]
pub(crate) fn goes_on(state: ItemState, class: CharClass) -> Option<ItemState>
    ensures { result ≡ going_on state class }
{
    match (state, class) {
        (ItemState::Start, _) => begins(class),
        (ItemState::Dash, CharClass::FlatB | CharClass::ClefLetter | CharClass::Pitch) => Some(
            ItemState::DashPitch,
        ),
        (ItemState::Dash, CharClass::Capital) => Some(ItemState::Body),
        (ItemState::DashPitch | ItemState::Body, CharClass::Sign | CharClass::Suffix) => Some(
            ItemState::Body,
        ),
        (ItemState::Body, CharClass::Zero | CharClass::ClefDigit | CharClass::Digit) => Some(
            ItemState::Body,
        ),
        (ItemState::ClefPitch, CharClass::FlatB) => Some(ItemState::ClefFlat),
        (ItemState::ClefPitch | ItemState::ClefFlat, CharClass::ClefDigit) => Some(ItemState::Clef),
        (ItemState::Pitch | ItemState::ClefPitch, _) => on_pitch(class),
        (ItemState::Clef, CharClass::At) => Some(ItemState::Join),
        (ItemState::Join, CharClass::ClefLetter) => Some(ItemState::JoinPitch),
        (ItemState::JoinPitch, CharClass::FlatB) => Some(ItemState::JoinFlat),
        (ItemState::JoinPitch | ItemState::JoinFlat, CharClass::ClefDigit) => Some(ItemState::Done(
            FullItem::Clef,
        )),
        (ItemState::Altered | ItemState::Sharp, CharClass::Question) => Some(ItemState::Done(
            FullItem::Alteration,
        )),
        (ItemState::Sharp, CharClass::Hash) => Some(ItemState::Altered),
        (ItemState::Colon, CharClass::Colon) => Some(ItemState::Bar),
        (ItemState::Bar | ItemState::Colon, _) => on_bar(class),
        (ItemState::BarAsked | ItemState::BarSigned, CharClass::Sign) => Some(ItemState::BarSigned),
        (ItemState::BarSigned, CharClass::Zero | CharClass::ClefDigit | CharClass::Digit) => Some(
            ItemState::BarSigned,
        ),
        (ItemState::Slash, CharClass::Slash | CharClass::Zero | CharClass::Bang) => Some(
            ItemState::Done(FullItem::Spacing),
        ),
        (ItemState::Slash, CharClass::Open) => Some(ItemState::SlashRaw),
        (ItemState::Blanks, CharClass::Blank) => Some(ItemState::Blanks),
        (ItemState::SmallZ, CharClass::Zero) => Some(ItemState::Done(FullItem::Custos)),
        (ItemState::SmallZ | ItemState::CapitalZ, _) => on_break(class),
        (ItemState::Raw, CharClass::Close) => Some(ItemState::Done(FullItem::Attribute)),
        (ItemState::Raw, _) => Some(ItemState::Raw),
        (ItemState::SlashRaw, CharClass::Close) => Some(ItemState::Done(FullItem::Spacing)),
        (ItemState::SlashRaw, _) => Some(ItemState::SlashRaw),
        (ItemState::At, CharClass::Open) => Some(ItemState::Done(FullItem::Fusion)),
        _ => None,
    }
}

/// Returns the state of the reading if the item ended at its longest so far.
fn falls_back(state: ItemState) -> Option<ItemState>
    ensures { result ≡ falling_back state }
{
    match state {
        ItemState::Start | ItemState::Dash | ItemState::Raw | ItemState::SlashRaw => None,
        ItemState::ClefFlat | ItemState::JoinPitch | ItemState::JoinFlat => Some(ItemState::Pitch),
        ItemState::Join => Some(ItemState::At),
        _ => Some(ItemState::Start),
    }
}

/// Returns the state after a character more: the item goes on, or a new one begins.
fn goes_on_again(state: ItemState, class: CharClass) -> Option<ItemState>
    ensures { result ≡ next_or_begun state class }
{
    match goes_on(state, class) {
        Some(next) => Some(next),
        None => begins(class),
    }
}

/// Returns the state after a character more: the item goes on, or it ended at its longest and the
/// reading goes on from there.
#[inline(always)]
pub(crate) fn next_state(state: ItemState, class: CharClass) -> Option<ItemState>
    ensures { result ≡ next_state state class }
{
    match goes_on(state, class) {
        Some(next) => Some(next),
        None => match falls_back(state) {
            Some(back) => goes_on_again(back, class),
            None => None,
        },
    }
}

/// Returns whether a pitch but `b` begins an item in this state.
fn begins_item(state: ItemState) -> bool
    ensures { result ≡ begins_item state }
{
    match state {
        ItemState::Dash | ItemState::Join | ItemState::Raw | ItemState::SlashRaw => false,
        _ => true,
    }
}

/// Returns whether a suffix or sign goes on with a note in this state.
fn goes_on_note(state: ItemState) -> bool
    ensures { result ≡ goes_on_note state }
{
    match state {
        ItemState::DashPitch | ItemState::Body | ItemState::Pitch | ItemState::ClefPitch => true,
        _ => false,
    }
}

/// Returns the state after a character, if it is one of those that most notes have: a pitch but `b`
/// that begins one, a frequent suffix or sign that goes on with one, a bar, a space, or `x`.
/// Without this `alterations` take 11 % more instructions in runs (docs/BENCHMARKS.md).
#[inline(always)]
pub(crate) fn short_step(state: ItemState, c: char) -> Option<ItemState>
    ensures { IfSome result (λ next. IsShortStep state c next) }
{
    match c {
        'c' | 'f' if begins_item(state) => Some(ItemState::ClefPitch),
        'a' | 'd'..='n' | 'p' if begins_item(state) => Some(ItemState::Pitch),
        'A'..='N' | 'P' if begins_item(state) => Some(ItemState::Body),
        '.' | '_' | '\'' | 'v' | 's' | 'w' | 'o' if goes_on_note(state) => Some(ItemState::Body),
        'r' | '~' | '<' | '>' if goes_on_note(state) => Some(ItemState::Body),
        ',' | ';' if begins_item(state) => Some(ItemState::Bar),
        ' ' if begins_item(state) => Some(ItemState::Blanks),
        '!' if begins_item(state) => Some(ItemState::Done(FullItem::Spacing)),
        '/' => match state {
            ItemState::Slash => Some(ItemState::Done(FullItem::Spacing)),
            _ if begins_item(state) => Some(ItemState::Slash),
            _ => None,
        },
        ':' => match state {
            ItemState::Colon => Some(ItemState::Bar),
            _ if begins_item(state) => Some(ItemState::Colon),
            _ => None,
        },
        'x' => match state {
            ItemState::Pitch | ItemState::ClefPitch => Some(ItemState::Altered),
            _ => None,
        },
        _ => None,
    }
}

/// Returns the kind of an item that nothing can follow.
fn full_kind(full: FullItem) -> ItemKind
    ensures { result ≡ kind_of_full full }
{
    match full {
        FullItem::Alteration => ItemKind::Alteration,
        FullItem::Clef => ItemKind::Clef,
        FullItem::Spacing => ItemKind::Spacing,
        FullItem::Custos => ItemKind::Custos,
        FullItem::Break => ItemKind::Break,
        FullItem::Attribute => ItemKind::Attribute,
        FullItem::Fusion => ItemKind::Fusion,
    }
}

/// Returns the kind of the item, if it may end here.
pub(crate) fn ends(state: ItemState) -> Option<ItemKind>
    ensures { result ≡ kind_at_end state }
{
    match state {
        ItemState::Done(full) => Some(full_kind(full)),
        ItemState::DashPitch | ItemState::Body | ItemState::Pitch | ItemState::ClefPitch => Some(
            ItemKind::Note,
        ),
        ItemState::Clef => Some(ItemKind::Clef),
        ItemState::Altered | ItemState::Sharp => Some(ItemKind::Alteration),
        ItemState::Bar | ItemState::Colon | ItemState::BarAsked | ItemState::BarSigned => Some(
            ItemKind::Bar,
        ),
        ItemState::Slash | ItemState::Blanks => Some(ItemKind::Spacing),
        ItemState::SmallZ | ItemState::CapitalZ => Some(ItemKind::Break),
        ItemState::At => Some(ItemKind::Fusion),
        _ => None,
    }
}

/// Returns whether what was read is a snippet.
pub(crate) fn is_whole(state: ItemState) -> bool
    ensures { result ≡ whole_at state }
{
    match state {
        ItemState::Dash | ItemState::Raw | ItemState::SlashRaw => false,
        _ => true,
    }
}

/// Returns whether a text that ends in this state lies inside raw.
pub(crate) fn is_raw(state: ItemState) -> bool
    ensures { result ≡ raw_state state }
{
    match state {
        ItemState::Raw | ItemState::SlashRaw => true,
        _ => false,
    }
}

/// Returns whether a text that ends in this state ends with an attribute.
pub(crate) fn is_attribute(state: ItemState) -> bool
    ensures { result ≡ attribute_state state }
{
    match state {
        ItemState::Done(FullItem::Attribute) => true,
        _ => false,
    }
}
