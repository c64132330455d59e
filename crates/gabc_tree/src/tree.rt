//! The tree of a score in memory.

ghost use Rattle.std.specs.Prelude.{◌≡◌, ◌<◌, ◌^◌, take, length, IfOk};
ghost use Rattle.std.specs.Str.{chars};
ghost use Rattle.gabc_places.specs.Text.{utf8_prefix_of};
ghost use Rattle.gabc_tree.specs.NotKept.{not_kept as what_is_not_kept};
ghost use Rattle.gabc_tree.specs.Placed.{bytes_in};
ghost use Rattle.gabc_tree.specs.Tree.{ending_by, characters_before as count_before, file_nodes, score_in, tree_nodes};

use crate::body_nodes::BodyNodes;
use crate::header_nodes::header_nodes;
use crate::holding::hold;
use crate::not_kept::not_kept;
use crate::placing::{Placing, offset};
use crate::taking::NodeTaker;
use gabc_body::InputEnding;
use gabc_nodes::{Kind, Node};
use gabc_places::{Decoded, Fault, Findings, Limits, text_of, valid_front};
use gabc_score::{ScoreRest, score_given};
use std::alloc::{AllocError, Global};
use std::hash::DefaultHasher;
use std::marker::Model;

/// The tree of a score: nodes in the order of the input, each before those that lie in it.
/// Contracts see the list of the nodes.
#[derive(Debug, Drop)]
pub struct Tree {
    nodes: Vec<Node>,
}

impl Model for Tree {
    ghost use Rattle.std.specs.Prelude.{List};
    ghost use Rattle.gabc_nodes.specs.declared.node.Node.{Node};

    ghost Value = { List Node };

    ghost view = { λ t. t.nodes.items };
}

impl Tree {
    /// Returns the nodes in the order of the input, each before those that lie in it. The first one
    /// is the whole input.
    pub fn nodes(&self) -> &[Node]
        ensures { result.now ≡ self.now }
    {
        self.nodes.as_slice()
    }
}

/// All that is known of a score after one reading.
#[derive(Debug, Drop)]
pub struct ScoreRead {
    /// Its tree.
    pub tree: Tree,
    /// The findings, in the order in which they are reported.
    pub findings: Findings,
    /// The fault that ended the reading, if one did.
    pub fault: Option<Fault>,
}

/// Returns the longest front of `bytes` within `limits` that is UTF-8.
pub(crate) fn front_within(bytes: &[u8], limits: Limits) -> &str
    ensures text { chars result.now ≡ utf8_prefix_of (take limits.input bytes.now) }
    ensures short { length result.now < 2 ^ 32 }
{
    let limit = limits.input as usize;
    if limit < bytes.len() {
        valid_front(&bytes[..limit])
    } else {
        valid_front(bytes)
    }
}

/// Returns the number of characters of `text` that begin before its byte `end`.
fn characters_before(text: &str, end: usize) -> usize
    ensures count { result ≡ count_before end (chars text.now) }
{
    let mut left = end;
    let mut count = 0;
    for c in text.chars() {
        if left == 0 {
            break;
        }
        left = left.saturating_sub(c.len_utf8());
        count += 1;
    }
    count
}

/// Returns the tree of an input of `len` bytes: the nodes in `body` with those of `out`, which is
/// not kept, between them. `fault` is the one that ended its reading, if one did.
fn tree_of_parts(
    alloc: Global,
    body: &BodyNodes,
    out: &[Node],
    len: usize,
    fault: Option<Fault>,
) -> Result<Tree, AllocError>
    requires { bytes_in out.now < 2 ^ 32 }
    ensures { IfOk result (λ tree.
        tree ≡ file_nodes out.now body.now.nodes body.now.base len fault) }
{
    let kept = body.nodes();
    let file = Node::leaf(Kind::File, 0, 0, offset(len));
    let room = kept.len().saturating_add(out.len()).saturating_add(2);
    let mut placing = Placing::new(alloc, file, out, room)?;
    placing.place_all(kept)?;
    placing.finish(body.base(), len, fault)?;
    let mut nodes = Vec::new(alloc);
    placing.give(&mut nodes);
    hold(&mut nodes, 0);
    Ok(Tree { nodes })
}

/// Returns the ending of the text of an input with this `fault`.
fn ending_of(fault: Option<Fault>) -> InputEnding
    ensures { result ≡ ending_by fault }
{
    match fault {
        Some(fault) => InputEnding::At(fault),
        None => InputEnding::Whole,
    }
}

/// Returns the nodes of what is not kept of `bytes`, which are read under `limits`: their headers
/// have `heads` characters, `kept` is kept of their body, and `findings` were found in them.
fn not_kept_of(
    alloc: Global,
    bytes: &[u8],
    limits: Limits,
    heads: usize,
    kept: &str,
    findings: &Findings,
) -> Result<Vec<Node>, AllocError>
    ensures nodes { IfOk result (λ nodes. nodes.items ≡ what_is_not_kept heads
        (chars kept.now) findings.now (utf8_prefix_of (take limits.input bytes.now))) }
    ensures few { IfOk result (λ nodes. bytes_in nodes.items < 2 ^ 32) }
{
    let input = front_within(bytes, limits);
    not_kept(alloc, input, heads, kept, findings.as_slice())
}

/// Returns the tree of the score in `bytes`, which is read under `limits` as
/// `gabc_score::score_whole` reads its text. It fails only if memory runs out. The names of headers
/// are hashed with a fixed key: if strangers write the score and `limits.header` is large, take
/// `tree_of_with_hasher`.
pub fn tree_of(alloc: Global, bytes: &[u8], limits: Limits) -> Result<Tree, AllocError>
    ensures { IfOk result (λ tree. tree ≡ tree_nodes limits bytes.now) }
{
    tree_of_with_hasher(alloc, bytes, limits, DefaultHasher::new())
}

/// Returns the tree of the score in `bytes` as `tree_of` does, and hashes the names of its headers
/// from `hasher` on. What it returns does not depend on `hasher`.
pub fn tree_of_with_hasher(
    alloc: Global,
    bytes: &[u8],
    limits: Limits,
    hasher: DefaultHasher,
) -> Result<Tree, AllocError>
    ensures { IfOk result (λ tree. tree ≡ tree_nodes limits bytes.now) }
{
    let ScoreRead { tree, .. } = read_score(alloc, bytes, limits, hasher)?;
    Ok(tree)
}

/// Reads the score in `bytes` under `limits` as `tree_of` does, and returns its tree, its findings
/// and its fault at once. It fails only if memory runs out. The names of headers are hashed from
/// `hasher` on; what it returns does not depend on `hasher`.
pub fn read_score(
    alloc: Global,
    bytes: &[u8],
    limits: Limits,
    hasher: DefaultHasher,
) -> Result<ScoreRead, AllocError>
    ensures tree { IfOk result (λ read. read.tree ≡ tree_nodes limits bytes.now) }
    ensures findings { IfOk result (λ read.
        read.findings ≡ (score_in limits bytes.now).findings) }
    ensures fault { IfOk result (λ read. read.fault ≡ (score_in limits bytes.now).fault) }
{
    let Decoded { text, fault } = text_of(alloc, bytes, true, limits)?;
    let ending = ending_of(fault);
    let mut heads = Vec::new(alloc);
    let head = header_nodes(alloc, &text, limits, hasher, &mut heads)?;
    let mut taker = NodeTaker::new(alloc, heads, offset(head));
    let ScoreRest {
        findings,
        fault,
        ..
    } = score_given(alloc, &text, ending, limits, hasher, &mut taker)?;
    let body = taker.into_body();
    let count = characters_before(text.as_str(), head);
    let out = not_kept_of(alloc, bytes, limits, count, body.kept(), &findings)?;
    let tree = tree_of_parts(alloc, &body, out.as_slice(), bytes.len(), fault)?;
    Ok(ScoreRead {
        tree,
        findings,
        fault,
    })
}
