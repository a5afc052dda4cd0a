//! What the kernel answered, read from the words of a line.
ghost use Rattle.pr_plain.specs.CallReading.{reply_bytes_at, fail_at, plain_reply_behind, reply_behind, reply_at};
ghost use Rattle.pr_plain.specs.Readings.{Says, Gives};

use crate::pieces::Pieces;
use crate::refusals::Refused;
use crate::word_readers::{bytes_at, errno_at, id_at, number_at};
use pr_model::Reply;
use std::alloc::Global;

#[tactic(auto, unfolding(crate::specs::CallReading::reply_bytes_at))]
fn reply_bytes_at(alloc: Global, words: &mut Pieces<'_>) -> Result<Reply, Refused>
    ensures { Gives (λ r. (r, words.new)) result (reply_bytes_at words.old) }
{
    Ok(Reply::Bytes(bytes_at(alloc, words)?))
}

#[tactic(auto, unfolding(crate::specs::CallReading::fail_at))]
fn fail_at(words: &mut Pieces<'_>) -> Option<Reply>
    ensures { Says (λ r. (r, words.new)) result (fail_at words.old) }
{
    Some(Reply::Fail(errno_at(words)?))
}

/// The form of reply without bytes that a first word begins.
#[tactic(auto, unfolding(crate::specs::CallReading::plain_reply_behind, crate::specs::CallReading::handle_at, crate::specs::CallReading::used_at, crate::specs::CallReading::half_at, crate::specs::CallReading::pid_at, crate::specs::CallReading::ready_at))]
fn plain_reply_behind(word: &[u8], words: &mut Pieces<'_>) -> Option<Reply>
    ensures { Says (λ r. (r, words.new)) result (plain_reply_behind word.now words.old) }
{
    if word == b"handle".as_slice() {
        Some(Reply::Handle(id_at(words)?))
    } else if word == b"done".as_slice() {
        Some(Reply::Done)
    } else if word == b"used".as_slice() {
        Some(Reply::Used(number_at(words)?))
    } else if word == b"half".as_slice() {
        Some(Reply::Half(number_at(words)?))
    } else if word == b"pid".as_slice() {
        Some(Reply::Pid(id_at(words)?))
    } else if word == b"ready".as_slice() {
        Some(Reply::Ready(id_at(words)?))
    } else if word == b"fail".as_slice() {
        fail_at(words)
    } else {
        None
    }
}

/// The form of reply that a first word begins.
#[tactic(auto, unfolding(crate::specs::CallReading::reply_behind))]
fn reply_behind(alloc: Global, word: &[u8], words: &mut Pieces<'_>) -> Result<Reply, Refused>
    ensures { Gives (λ r. (r, words.new)) result (reply_behind word.now words.old) }
{
    if word == b"bytes".as_slice() {
        reply_bytes_at(alloc, words)
    } else {
        plain_reply_behind(word, words).ok_or(Refused::Malformed)
    }
}

/// Takes a reply.
#[tactic(auto, unfolding(crate::specs::CallReading::reply_at))]
pub fn reply_at(alloc: Global, words: &mut Pieces<'_>) -> Result<Reply, Refused>
    ensures { Gives (λ r. (r, words.new)) result (reply_at words.old) }
{
    let word = words.next().ok_or(Refused::Malformed)?;
    reply_behind(alloc, word, words)
}
