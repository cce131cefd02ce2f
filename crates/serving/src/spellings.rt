//! Which messages have a spelling.

ghost use Rattle.std.specs.Prelude.{◌≡◌, true, false};
ghost use Rattle.fab_wire.specs.Spelling.{HasSpelling};
ghost use Rattle.serving.specs.Spellings.{has_some, is_seat, has_short_block, has_whole_lineage, has_whole_choice, request_fits, reply_fits, answer_fits, has_spelling};

use fab_base::{Answer, Boxed, Members, Refusal};
use messages::{Choice, ClientAnswer, Lineage, Message, Reply, Request, Version, Want};

/// The most bytes of a block.
const MOST_BLOCK: usize = 4096;

/// The most bytes of a client.
const MOST_CONTENT: usize = 32768;

/// Whether a message has a spelling: a list of members has at least one, a block at most 4,096 bytes, a client's bytes are at most
/// 32,768, a seat is below 32, a data block below 16, and neither `Refusal::Down` nor `Refusal::NoQuorum` is sent.
#[tactic(auto, unfolding(crate::specs::Spellings::has_spelling))]
pub fn has_spelling(message: &Message) -> bool
    ensures value { result ≡ has_spelling message.now }
    ensures fits { result ≡ true → HasSpelling message.now }
    ensures none { result ≡ false → HasSpelling message.now → ⊥ }
{
    match message {
        Message::Request(_, request) => request_fits(request),
        Message::Reply(_, reply) => reply_fits(reply),
        Message::Learn { group: _, view } => {
            has_some(&view.get().members) && has_some(&view.get().prior)
        }
        Message::Synced { group: _, view: _ } => true,
        Message::Client(ask) => ask.bytes.len() <= MOST_CONTENT,
        Message::ClientReply { id: _, answer } => answer_fits(answer),
    }
}

fn has_some(members: &Members) -> bool
    ensures { result ≡ has_some members.now }
{
    !members.as_slice().is_empty()
}

fn is_seat(want: Want) -> bool
    ensures { result ≡ is_seat want }
{
    match want {
        Want::Seat(seat) => seat <= 31,
        Want::All => true,
    }
}

fn has_short_block(found: &Option<Version>) -> bool
    ensures { result ≡ has_short_block found.now }
{
    match found {
        None => true,
        Some(version) => version.block.len() <= MOST_BLOCK,
    }
}

fn has_whole_lineage(lineage: &Option<Boxed<Lineage>>) -> bool
    ensures { result ≡ has_whole_lineage lineage.now }
{
    match lineage {
        None => true,
        Some(lineage) => has_some(&lineage.get().members) && has_some(&lineage.get().prior),
    }
}

fn has_whole_choice(choice: &Option<Choice>) -> bool
    ensures { result ≡ has_whole_choice choice.now }
{
    match choice {
        None => true,
        Some(choice) => has_some(&choice.members),
    }
}

fn request_fits(request: &Request) -> bool
    ensures { result ≡ request_fits request.now }
{
    match request {
        Request::Read { want } => is_seat(*want),
        Request::OrderRead {
            stamp: _,
            look: _,
            want,
        } => is_seat(*want),
        Request::Write { stamp: _, block } => block.len() <= MOST_BLOCK,
        Request::Modify {
            stamp: _,
            base: _,
            data_block,
            delta,
        } => { *data_block <= 15 && delta.len() <= MOST_BLOCK }
        Request::Accept { ballot: _, members } => has_some(members),
        Request::Order { .. }
        | Request::Collect { .. }
        | Request::OldRead { .. }
        | Request::Prepare { .. } => true,
    }
}

fn reply_fits(reply: &Reply) -> bool
    ensures { result ≡ reply_fits reply.now }
{
    match reply {
        Reply::Found { order: _, newest } => has_short_block(newest),
        Reply::OrderedRead { found } | Reply::Old { found } => has_short_block(found),
        Reply::Moved { view: _, lineage } => has_whole_lineage(lineage),
        Reply::Promise { accepted } => has_whole_choice(accepted),
        Reply::Ordered
        | Reply::Stored
        | Reply::Behind { .. }
        | Reply::Later { .. }
        | Reply::Full { .. }
        | Reply::Retired
        | Reply::Accepted
        | Reply::Outbid { .. }
        | Reply::NotSynced => true,
    }
}

fn answer_fits(answer: &ClientAnswer) -> bool
    ensures { result ≡ answer_fits answer.now }
{
    match answer {
        ClientAnswer::Ended(Answer::Data(bytes)) => bytes.len() <= MOST_CONTENT,
        ClientAnswer::Refused(Refusal::Down | Refusal::NoQuorum) => false,
        ClientAnswer::Ended(_) | ClientAnswer::Refused(_) => true,
    }
}
