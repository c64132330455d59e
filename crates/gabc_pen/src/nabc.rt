//! NABC over the notes: neumes in a hand, and as its text what the hand lacks.

use crate::cluster::Cluster;
use crate::descriptor::Descriptor;
use crate::nabc_rows::{NabcRows, PerLine, Reach, add_reach};
use gabc_marks::{
    Distance, Extent, Hand, Level, NabcLine, Sign, Styles, Words, spaces, text_between, text_width,
};
use gabc_nodes::{Kind, Node};
use std::alloc::{AllocError, Global};

/// The size of a descriptor that is written as its text, and its reach.
const TEXT_SIZE: Distance = Distance(900);

const TEXT_REACH: Reach = Reach {
    up: Distance(700),
    down: Distance(250),
};

/// A part of a descriptor that is being read: its node, and the first byte that is not in its
/// spelling yet.
#[derive(Clone, Copy, Debug)]
struct Piece {
    node: Node,
    at: u32,
}

/// The hand of each line of NABC.
pub type Hands = PerLine<Hand>;

/// The NABC that is being read: a snippet on `line`, drawn from `begin` up to `x`.
#[derive(Debug, Drop)]
pub struct Nabc<'a> {
    input: &'a str,
    hands: Hands,
    line: NabcLine,
    begin: Distance,
    x: Distance,
    /// The node of the descriptor that is being read.
    open: Option<Node>,
    descriptor: Descriptor,
    piece: Option<Piece>,
    spelling: String,
    cluster: Cluster,
}

/// Returns whether the glyph with these letters is an uncinus or an oriscus-clivis, which Laon has
/// and St. Gall has not.
fn is_of_laon(first: u16, second: u16) -> bool {
    let letters = (u8::try_from(first).ok(), u8::try_from(second).ok());
    matches!(letters, (Some(b'u'), Some(b'n')) | (Some(b'o'), Some(b'c')))
}

/// Returns the line of NABC with this `number`, from 1; any other than 1 to 3 is the fourth.
fn nabc_line(number: u16) -> NabcLine {
    match number {
        1 => NabcLine::First,
        2 => NabcLine::Second,
        3 => NabcLine::Third,
        _ => NabcLine::Fourth,
    }
}

/// Returns the hands of a score with these `nodes`: a line with a neume that Laon has and St. Gall
/// has not is in that of Laon, the others are in that of St. Gall.
pub fn hands_of(nodes: &[Node]) -> Hands {
    let mut hands = PerLine::all(Hand::StGall);
    let mut line = NabcLine::First;
    for node in nodes {
        match node.kind {
            Kind::Snippet => line = nabc_line(node.a),
            Kind::NabcGlyph if is_of_laon(node.a, node.b) => hands.set(line, Hand::Laon),
            _ => {}
        }
    }
    hands
}

/// Returns the distance that the space spelled `text` moves the next neume right: negative for
/// back-ticks, and 0 for any other text.
fn distance_of(text: &str) -> Distance {
    match text {
        "/" => spaces::NABC_SMALL,
        "//" => spaces::NABC_LARGE,
        "`" => -spaces::NABC_SMALL,
        "``" => -spaces::NABC_LARGE,
        _ => Distance::ZERO,
    }
}

impl<'a> Nabc<'a> {
    /// Returns the NABC of the score `input` in these `hands`, before its first snippet.
    pub fn new(alloc: Global, input: &'a str, hands: Hands) -> Nabc<'a> {
        Nabc {
            input,
            hands,
            line: NabcLine::First,
            begin: Distance::ZERO,
            x: Distance::ZERO,
            open: None,
            descriptor: Descriptor::new(alloc),
            piece: None,
            spelling: String::new(alloc),
            cluster: Cluster::new(alloc),
        }
    }

    /// Begins a snippet on the line with the number `line`, from `x` on.
    pub fn begin(&mut self, line: u16, x: Distance) {
        self.line = nabc_line(line);
        self.descriptor.hand = self.hands.get(self.line);
        self.begin = x;
        self.x = x;
    }

    /// Appends to the spelling of the part that is being read its bytes before the byte `end` of
    /// the score.
    fn spell(&mut self, end: u32) -> Result<(), AllocError> {
        match self.piece {
            Some(piece) => {
                let text = text_between(self.input, piece.at, end.min(piece.node.end));
                self.spelling.push_str(text)
            }
            None => Ok(()),
        }
    }

    /// Skips `node`, which is not kept: the part that is being read continues after it.
    pub fn pass_gap(&mut self, node: Node) -> Result<(), AllocError> {
        self.spell(node.begin)?;
        if let Some(piece) = self.piece {
            self.piece = Some(Piece {
                at: node.end,
                ..piece
            });
        }
        Ok(())
    }

    /// Ends the part that is being read, if there is one, and adds it to the descriptor.
    fn end_piece(&mut self) -> Result<(), AllocError> {
        self.spell(u32::MAX)?;
        let Some(Piece { node, .. }) = self.piece else {
            return Ok(());
        };
        self.piece = None;
        let spelling = self.spelling.as_str();
        match node.kind {
            Kind::NabcGlyph => self.descriptor.add_glyph(spelling, node.c),
            Kind::NabcPoints => self.descriptor.add_points(node.a == 1, node.b, node.c),
            Kind::NabcLetters => self.descriptor.add_letters(spelling, node.c),
            _ => Ok(()),
        }
    }

    /// Ends the descriptor that is being read, if there is one, and draws it into `signs`, with its
    /// reach in `rows`: as its text if the hand lacks a part of it.
    fn end_descriptor(
        &mut self,
        signs: &mut Vec<Sign<'a>>,
        rows: &mut NabcRows,
    ) -> Result<(), AllocError> {
        self.end_piece()?;
        let Some(node) = self.open else {
            return Ok(());
        };
        self.open = None;
        let width = if self.descriptor.compose(&mut self.cluster)? {
            self.put_cluster(signs, rows)?
        } else {
            self.put_text(node, signs, rows)?
        };
        self.descriptor.clear();
        self.x += width + spaces::NABC_SMALL;
        Ok(())
    }

    /// Draws the outlines of the descriptor into `signs`, with their reach in `rows`, and returns
    /// its width.
    fn put_cluster(
        &self,
        signs: &mut Vec<Sign<'a>>,
        rows: &mut NabcRows,
    ) -> Result<Distance, AllocError> {
        let left = self.cluster.left();
        for it in &self.cluster.placed {
            signs.push(Sign::Nabc {
                outline: it.outline,
                line: self.line,
                x: self.x + it.x - left,
                y: it.y,
            })?;
        }
        add_reach(rows, self.line, self.cluster.reach());
        Ok(self.cluster.width())
    }

    /// Writes the descriptor of `node` into `signs` as its text, with its reach in `rows`, and
    /// returns its width.
    fn put_text(
        &self,
        node: Node,
        signs: &mut Vec<Sign<'a>>,
        rows: &mut NabcRows,
    ) -> Result<Distance, AllocError> {
        let text = text_between(self.input, node.begin, node.end);
        let width = text_width(text, TEXT_SIZE);
        signs.push(Sign::Words(Words {
            text,
            x: self.x,
            level: Level::Nabc(self.line),
            width,
            size: TEXT_SIZE,
            styles: Styles::PLAIN,
        }))?;
        add_reach(rows, self.line, TEXT_REACH);
        Ok(width)
    }

    /// Adds `node`, a descriptor, a part of one or a space. A descriptor that is ended by it is
    /// drawn into `signs`, with its reach in `rows`.
    pub fn add(
        &mut self,
        node: Node,
        signs: &mut Vec<Sign<'a>>,
        rows: &mut NabcRows,
    ) -> Result<(), AllocError> {
        match node.kind {
            Kind::Descriptor => {
                self.end_descriptor(signs, rows)?;
                self.open = Some(node);
            }
            Kind::NabcSpace => {
                self.end_descriptor(signs, rows)?;
                self.x += distance_of(text_between(self.input, node.begin, node.end));
            }
            _ => {
                self.end_piece()?;
                self.spelling.clear();
                self.piece = Some(Piece {
                    node,
                    at: node.begin,
                });
            }
        }
        Ok(())
    }

    /// Ends the snippet, and returns its extent, with the space after it, if anything is in it.
    pub fn end(
        &mut self,
        signs: &mut Vec<Sign<'a>>,
        rows: &mut NabcRows,
    ) -> Result<Option<Extent>, AllocError> {
        self.end_descriptor(signs, rows)?;
        let snippet = Extent {
            left: self.begin,
            right: self.x + spaces::BETWEEN_NEUMES,
        };
        let is_seen = self.begin < self.x;
        self.begin = self.x;
        Ok(if is_seen { Some(snippet) } else { None })
    }
}
