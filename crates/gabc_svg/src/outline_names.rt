//! The names of outlines: a file of symbols has each by its name.

ghost use Rattle.std.specs.Prelude.{◌≡◌};
ghost use Rattle.std.specs.List.{flat_map};
ghost use Rattle.gabc_svg.specs.Escape.{escaped};
ghost use Rattle.gabc_svg.specs.OutlineNames.{name_of_family, name_of_ending, name_of_single, name_of_symbol as symbol_name, name_of_joined, name_of_head, name_of_hand, name_of_nabc};

use crate::escape::{put_decimal, put_escaped};
use gabc_marks::{Ending, Family, Hand, Head, Joined, NabcOutline, Single, Symbol};
use gabc_places::Put;

/// Returns the name of a family of neumes.
fn family_name(family: Family) -> &'static str
    ensures { result.now ≡ name_of_family family }
{
    match family {
        Family::Pes => "pes",
        Family::PesQuadratum => "pes-quadratum",
        Family::PesQuassus => "pes-quassus",
        Family::QuilismaPes => "quilisma-pes",
        Family::QuilismaPesQuadratum => "quilisma-pes-quadratum",
        Family::Flexus => "clivis",
        Family::FlexusOriscus => "clivis-oriscus",
        Family::Torculus => "torculus",
        Family::TorculusQuilisma => "torculus-quilisma",
        Family::Porrectus => "porrectus",
        Family::Scandicus => "scandicus",
        Family::Salicus => "salicus",
        Family::TorculusResupinus => "torculus-resupinus",
        Family::TorculusResupinusQuilisma => "torculus-resupinus-quilisma",
        Family::PorrectusFlexus => "porrectus-flexus",
    }
}

/// Returns the end of a neume's name, after its steps, by its `ending`.
fn ending_name(ending: Ending) -> &'static str
    ensures { result.now ≡ name_of_ending ending }
{
    match ending {
        Ending::Plain => "",
        Ending::Deminutus => "-deminutus",
        Ending::Ascendens => "-ascendens",
        Ending::Descendens => "-descendens",
    }
}

/// Returns the name of the outline of one note.
fn single_name(single: Single) -> &'static str
    ensures { result.now ≡ name_of_single single }
{
    match single {
        Single::Punctum => "punctum",
        Single::PunctumOver => "punctum-over",
        Single::PunctumUnder => "punctum-under",
        Single::PunctumAscendens => "punctum-ascendens",
        Single::PunctumDescendens => "punctum-descendens",
        Single::PunctumDeminutus => "punctum-deminutus",
        Single::Cavum => "cavum",
        Single::Inclinatum => "inclinatum",
        Single::InclinatumAuctus => "inclinatum-auctus",
        Single::InclinatumDeminutus => "inclinatum-deminutus",
        Single::InclinatumCavum => "inclinatum-cavum",
        Single::Stropha => "stropha",
        Single::StrophaAucta => "stropha-aucta",
        Single::Quilisma => "quilisma",
        Single::OriscusUp => "oriscus-up",
        Single::OriscusDown => "oriscus-down",
        Single::OriscusUpScapus => "oriscus-up-scapus",
        Single::OriscusDownScapus => "oriscus-down-scapus",
        Single::OriscusDeminutus => "oriscus-deminutus",
        Single::Linea => "linea",
        Single::LineaPunctum => "linea-punctum",
        Single::Virga => "virga",
        Single::VirgaReversa => "virga-reversa",
        Single::VirgaReversaAscendens => "virga-reversa-ascendens",
        Single::VirgaReversaDescendens => "virga-reversa-descendens",
    }
}

/// Returns the name of the outline of `symbol`.
pub(crate) fn name_of_symbol(symbol: Symbol) -> &'static str
    ensures { result.now ≡ symbol_name symbol }
{
    match symbol {
        Symbol::CClef => "c-clef",
        Symbol::FClef => "f-clef",
        Symbol::Flat => "flat",
        Symbol::Natural => "natural",
        Symbol::Sharp => "sharp",
        Symbol::CustosUp => "custos-up",
        Symbol::CustosDown => "custos-down",
        Symbol::Mora => "mora",
        Symbol::TailUp => "tail-up",
        Symbol::TailDown => "tail-down",
        Symbol::Virgula => "virgula",
        Symbol::Accent => "accent",
        Symbol::Grave => "grave",
        Symbol::Circle => "circle",
        Symbol::LowerArc => "lower-arc",
        Symbol::UpperArc => "upper-arc",
        Symbol::Brace => "brace",
        Symbol::BracketLeft => "bracket-left",
        Symbol::BracketRight => "bracket-right",
    }
}

/// Puts the name of a neume that is one outline: its family, its steps, and its begin and its
/// ending.
fn put_joined_name<S: Put>(joined: Joined, out: &mut S)
    ensures { out.new ≡ S.taken out.old (flat_map escaped (name_of_joined joined)) }
{
    put_escaped(family_name(joined.family), out);
    put_escaped("-", out);
    put_decimal(u32::from(joined.first), out);
    put_decimal(u32::from(joined.second), out);
    put_decimal(u32::from(joined.third), out);
    put_escaped(if joined.is_debilis { "-debilis" } else { "" }, out);
    put_escaped(ending_name(joined.ending), out);
}

/// Puts the name of the outline of `head`.
pub(crate) fn put_head_name<S: Put>(head: Head, out: &mut S)
    ensures { out.new ≡ S.taken out.old (flat_map escaped (name_of_head head)) }
{
    match head {
        Head::Stroke(steps) => {
            put_escaped("stroke-", out);
            put_decimal(u32::from(steps), out);
        }
        Head::Joined(joined) => put_joined_name(joined, out),
        Head::Single(single) => put_escaped(single_name(single), out),
    }
}

/// Returns the prefix of the names of the outlines of `hand`.
fn hand_name(hand: Hand) -> &'static str
    ensures { result.now ≡ name_of_hand hand }
{
    match hand {
        Hand::StGall => "stgall-",
        Hand::Laon => "laon-",
    }
}

/// Puts the name of an outline of NABC.
pub(crate) fn put_nabc_name<S: Put>(outline: NabcOutline, out: &mut S)
    ensures { out.new ≡ S.taken out.old (flat_map escaped (name_of_nabc outline)) }
{
    put_escaped(hand_name(outline.hand), out);
    put_escaped(outline.name, out);
}
