//! Reading replies.
ghost use Rattle.std.specs.Prelude.{◌≡◌};
ghost use Rattle.trace.specs.Reading.{refusal_in, refused_in, long_reply_in, reply_in};

use crate::field::{Spelled, after};
use graph_heap::{Refusal, Reply, Shape};

/// The refusals in the order of their numbers.
const REFUSALS: [Refusal; 10] = [
    Refusal::BadSlot,
    Refusal::NullSlot,
    Refusal::BadIndex,
    Refusal::WrongKind,
    Refusal::TooLarge,
    Refusal::IdentitiesSpent,
    Refusal::NoSpace,
    Refusal::BadStatic,
    Refusal::NotLive,
    Refusal::AlreadyLive,
];

/// Returns the refusal with a number.
#[tactic(auto, unfolding(crate::specs::Reading::refusal_in))]
pub(crate) fn refusal(number: u64) -> Option<Refusal>
    ensures { result ≡ refusal_in number }
{
    REFUSALS
        .iter()
        .copied()
        .find(|r| r.number() as u64 == number)
}

/// Reads the number of a refusal, as a reply.
#[tactic(auto, unfolding(crate::specs::Reading::refused_in))]
fn refused(bytes: &[u8]) -> Option<Reply>
    ensures { result ≡ refused_in bytes.now }
{
    let n = u64::read(bytes)?;
    let r = refusal(n)?;
    Some(Reply::Refused(r))
}

/// Reads a reply of several words.
#[tactic(auto, unfolding(crate::specs::Reading::long_reply_in))]
fn long_reply(bytes: &[u8]) -> Option<Reply>
    ensures { result ≡ long_reply_in bytes.now }
{
    if let Some(rest) = after(b"made ", bytes) {
        u64::read(rest).map(|id| Reply::Made(id))
    } else if let Some(rest) = after(b"ref ", bytes) {
        u64::read(rest).map(|id| Reply::Ref(id))
    } else if let Some(rest) = after(b"word ", bytes) {
        u64::read(rest).map(|w| Reply::Word(w))
    } else if let Some(rest) = after(b"kept ", bytes) {
        u64::read(rest).map(|id| Reply::Kept(id))
    } else if let Some(rest) = after(b"keptword ", bytes) {
        u64::read(rest).map(|w| Reply::KeptWord(w))
    } else if let Some(rest) = after(b"described ", bytes) {
        <(u64, Shape)>::read(rest).map(|(id, shape)| Reply::Described(id, shape))
    } else {
        refused(after(b"refused ", bytes)?)
    }
}

/// Reads a reply.
#[tactic(auto, unfolding(crate::specs::Reading::reply_in))]
pub(crate) fn reply(bytes: &[u8]) -> Option<Reply>
    ensures { result ≡ reply_in bytes.now }
{
    if bytes == b"done".as_slice() {
        Some(Reply::Done)
    } else if bytes == b"stored".as_slice() {
        Some(Reply::Stored)
    } else if bytes == b"is yes".as_slice() {
        Some(Reply::Is(true))
    } else if bytes == b"is no".as_slice() {
        Some(Reply::Is(false))
    } else {
        long_reply(bytes)
    }
}
