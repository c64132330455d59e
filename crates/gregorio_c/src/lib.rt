//! The compiler as a static library for programs in C. `c/gregorio.h` has the rules for a caller in
//! C.
//!
//! A slice crosses as a pointer and a count. A call reads a whole score under the default limits,
//! or makes a step of a run in pieces. It frees all memory that it allocates, keeps nothing between
//! calls, and may be made in any number of threads at once.
#![tactic(auto)]

mod buffers;
mod compiled;
mod dropped;
mod engines;
mod first_bytes;
mod handing_out;
pub mod in_pieces;
mod lengths;
mod message;
mod message_bytes;
mod messages;
mod options;
mod picture;
mod picture_options;
mod pieces;
mod request;
mod step;
mod steps;
mod tree;
mod tree_node;

ghost use Rattle.std.specs.Prelude.{◌≡◌, ◌≤◌, ◌⊎◌, None, IfSome, true, false};
ghost use Rattle.gregorio_c.specs.Answers.{Answer, MessagesAnswer};
ghost use Rattle.gregorio_c.specs.MessageBytes.{BytesAnswer};
ghost use Rattle.gregorio_c.specs.Picture.{PictureAnswer, are_known};
ghost use Rattle.gregorio_c.specs.Request.{request_by, warnings_by};
ghost use Rattle.gregorio_c.specs.Tree.{TreeAnswer};

use compiled::compile;
pub use lengths::Lengths;
pub use message::Message;
use message_bytes::put_bytes;
use messages::tell_messages;
pub use options::Options;
use picture::tell_picture;
pub use picture_options::PictureOptions;
use picture_options::wanted_of;
pub use pieces::{
    gregorio_begin, gregorio_broken, gregorio_end, gregorio_feed, gregorio_state_bound,
};
use request::{request_of, warnings_of};
use std::alloc::Global;
pub use step::Step;
use tree::tell_tree;
pub use tree_node::TreeNode;

/// The answer if a number of the format, of the flags or of options is not known.
const REFUSED: u32 = 3;

/// The answer if a tree or a picture is made.
const MADE: u32 = 0;

/// The answer if there is no memory.
const NO_MEMORY: u32 = 5;

/// Compiles `score`: puts its output into `output`, the lines of its messages into `messages`, and
/// their exact lengths in bytes into `lengths`. A text that is longer than its buffer is left out
/// whole, and the buffer stays as it was. `format` is 0 for canonical GABC and 1 for the dump, and
/// `flags` is 1 for all warnings, else 0. `key` has the words of a key for the names of headers:
/// two random ones if strangers write the score, else none. No answer depends on it. The limits
/// are the default ones.
///
/// Returns the exit status that the program would have: 0, 1 or 2. It returns 3 for another format
/// or flag, and 5 if there is no memory; buffers and lengths stay as they were then.
#[unsafe(no_mangle)]
pub extern "C" fn gregorio_compile(
    alloc: Global,
    score: &[u8],
    format: u32,
    flags: u32,
    key: &[u64],
    output: &mut [u8],
    messages: &mut [u8],
    lengths: &mut Lengths,
) -> u32
    ensures refused { request_by format flags ≡ None → result ≡ 3 }
    ensures unchanged { 3 ≤ result → (output.new ≡ output.old) ×
        ((messages.new ≡ messages.old) × (lengths.new ≡ lengths.old)) }
    ensures answered { IfSome (request_by format flags) (λ request. (result ≡ 5) ⊎
        Answer request score.now output.old output.new messages.old messages.new lengths.new result) }
{
    let Some(request) = request_of(format, flags) else {
        return REFUSED;
    };
    compile(alloc, request, key, score, output, messages, lengths).unwrap_or(NO_MEMORY)
}

/// Reads `score`, puts its messages into `messages`, those of the findings and last that of a fatal
/// fault, and their number into `count`. If there are more of them than `messages` takes, that
/// stays as it was. `flags` is 1 for all warnings, else 0, and `key` as for `gregorio_compile`.
///
/// Returns what `gregorio_compile` does.
#[unsafe(no_mangle)]
pub extern "C" fn gregorio_messages(
    alloc: Global,
    score: &[u8],
    flags: u32,
    key: &[u64],
    messages: &mut [Message],
    count: &mut usize,
) -> u32
    ensures refused { warnings_by flags ≡ None → result ≡ 3 }
    ensures unchanged { 3 ≤ result → (messages.new ≡ messages.old) × (count.new ≡ count.old) }
    ensures answered { IfSome (warnings_by flags) (λ all. (result ≡ 5) ⊎
        MessagesAnswer all score.now messages.old messages.new count.new result) }
{
    let Some(all_warnings) = warnings_of(flags) else {
        return REFUSED;
    };
    tell_messages(alloc, all_warnings, key, score, messages, count).unwrap_or(NO_MEMORY)
}

/// Puts the byte of `score`, from 0, at the place of each of `messages` into `bytes`, if there is
/// room for all; else `bytes` stays as it was. It is the byte of the first character that is shown
/// and is not before the message's line and column, or the end of what is read of the score. Does
/// not allocate.
#[unsafe(no_mangle)]
pub extern "C" fn gregorio_message_bytes(score: &[u8], messages: &[Message], bytes: &mut [u32])
    ensures { BytesAnswer score.now messages.now bytes.old bytes.new }
{
    put_bytes(score, messages, bytes);
}

/// Reads `score`, puts the nodes of its tree into `nodes`, in the order of the score and each
/// before those that lie in it, and their number into `count`. If there are more of them than
/// `nodes` takes, that stays as it was. `key` as for `gregorio_compile`.
///
/// Returns 0, whatever was found in the score: what was left out or not read are nodes. Returns 5
/// if there is no memory; `nodes` and `count` stay as they were then.
#[unsafe(no_mangle)]
pub extern "C" fn gregorio_tree(
    alloc: Global,
    score: &[u8],
    key: &[u64],
    nodes: &mut [TreeNode],
    count: &mut usize,
) -> u32
    ensures answer { (result ≡ 0) ⊎ (result ≡ 5) }
    ensures answered { result ≡ 0 → TreeAnswer score.now nodes.old nodes.new count.new }
    ensures unchanged { result ≡ 5 → (nodes.new ≡ nodes.old) × (count.new ≡ count.old) }
{
    match tell_tree(alloc, key, score, nodes, count) {
        Ok(()) => MADE,
        Err(_) => NO_MEMORY,
    }
}

/// Reads `score`, puts its picture into `picture`, as SVG with references to the outlines of notes
/// by their names, and the number of its bytes into `count`. If `picture` is too small for it, that
/// stays as it was. `options` are none, for the default ones, or one. `key` as for
/// `gregorio_compile`.
///
/// Returns 0 for every score, 3 if a number of the options is not known, and 5 if there is no
/// memory; `picture` and `count` stay as they were then.
#[unsafe(no_mangle)]
pub extern "C" fn gregorio_draw(
    alloc: Global,
    score: &[u8],
    options: &[PictureOptions],
    key: &[u64],
    picture: &mut [u8],
    count: &mut usize,
) -> u32
    ensures refused { are_known options.now ≡ false → result ≡ 3 }
    ensures taken { are_known options.now ≡ true → (result ≡ 0) ⊎ (result ≡ 5) }
    ensures answered { result ≡ 0 → PictureAnswer score.now picture.old picture.new count.new }
    ensures unchanged { 3 ≤ result → (picture.new ≡ picture.old) × (count.new ≡ count.old) }
{
    let Some(wanted) = wanted_of(options) else {
        return REFUSED;
    };
    match tell_picture(alloc, key, score, wanted, picture, count) {
        Ok(()) => MADE,
        Err(_) => NO_MEMORY,
    }
}
