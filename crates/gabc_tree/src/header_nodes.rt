//! The nodes of the headers.

ghost use Rattle.std.specs.Prelude.{◌≡◌, ◌-◌, ◌++◌, take, encode_utf8_all, Ok, IfOk, OnOk};
ghost use Rattle.gabc_nodes.specs.Node.{leaf};
ghost use Rattle.gabc_nodes.specs.declared.kind.Kind.TheVariants.{ScoreLine};
ghost use Rattle.gabc_tree.specs.HeaderNodes.{head_end, head_nodes, head_nodes_by};
ghost use Rattle.gabc_tree.specs.Placed.{offset as offset_of};

use crate::header_lines::header_lines;
use crate::placing::offset;
use gabc_headers::{Heads, headers_whole_with_hasher};
use gabc_nodes::{Kind, Node};
use gabc_places::{Limits, Text};
use std::alloc::{AllocError, Global};
use std::hash::DefaultHasher;

/// Returns the first `len` bytes of `bytes`, or all of them.
fn front_of(bytes: &[u8], len: usize) -> &[u8]
    ensures { result.now ≡ take len bytes.now }
{
    if len < bytes.len() {
        &bytes[..len]
    } else {
        bytes
    }
}

/// Returns the bytes of `text` before the line `%%`, after which the body begins at the byte
/// `body`.
fn front_before(text: &Text, body: usize) -> &[u8]
    ensures { result.now ≡ take (body - 2) (encode_utf8_all text.now) }
{
    front_of(text.as_str().as_bytes(), body.saturating_sub(2))
}

/// Returns the node of the `%%` after which the body begins at the byte `body`.
fn score_line(body: usize) -> Node
    ensures { result ≡ leaf ScoreLine 0 (offset_of (body - 2)) (offset_of body) }
{
    let begin = offset(body.saturating_sub(2));
    Node::leaf(Kind::ScoreLine, 0, begin, offset(body))
}

/// Adds the nodes of the headers of `text`, which are `heads`, and of the `%%` after them.
fn add_heads(text: &Text, heads: &Heads, out: &mut Vec<Node>) -> Result<(), AllocError>
    ensures { OnOk result
        (out.new.items ≡ out.old.items ++ head_nodes_by text.now (Ok heads.now)) }
{
    let front = front_before(text, heads.body);
    header_lines(front, heads.findings.as_slice(), out)?;
    out.push(score_line(heads.body))?;
    Ok(())
}

/// Appends the nodes of the headers of `text` to `out`, and returns the byte of the text after the
/// `%%`. If a fault ends the headers, it adds none and returns 0.
pub(crate) fn header_nodes(
    alloc: Global,
    text: &Text,
    limits: Limits,
    hasher: DefaultHasher,
    out: &mut Vec<Node>,
) -> Result<usize, AllocError>
    ensures end { IfOk result (λ end. end ≡ head_end limits text.now) }
    ensures nodes { OnOk result (out.new.items ≡ out.old.items ++ head_nodes limits text.now) }
{
    gabc_headers::laws::heads_are_of_groups();
    match headers_whole_with_hasher(alloc, text, limits, hasher)? {
        Ok(heads) => {
            add_heads(text, &heads, out)?;
            Ok(heads.body)
        }
        Err(_) => Ok(0),
    }
}
