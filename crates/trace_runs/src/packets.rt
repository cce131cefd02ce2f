//! A message as it is shown.

use crate::journals::Owner;
use crate::texts::Text;
use messages::{Call, Choice, Look, Message, Packet, Reply, Request, Version, Want};

/// A request's word.
fn request_word(request: &Request) -> &'static str {
    match request {
        Request::Read { .. } => "read",
        Request::Order { .. } => "order",
        Request::OrderRead { .. } => "orderread",
        Request::Write { .. } => "write",
        Request::Modify { .. } => "modify",
        Request::Collect { .. } => "collect",
        Request::OldRead { .. } => "oldread",
        Request::Prepare { .. } => "prepare",
        Request::Accept { .. } => "accept",
    }
}

/// A reply's word.
fn reply_word(reply: &Reply) -> &'static str {
    match reply {
        Reply::Found { .. } => "found",
        Reply::Ordered => "ordered",
        Reply::OrderedRead { .. } => "orderedread",
        Reply::Stored => "stored",
        Reply::Behind { .. } => "behind",
        Reply::Later { .. } => "later",
        Reply::Full { .. } => "full",
        Reply::Moved { .. } => "moved",
        Reply::Old { .. } => "old",
        Reply::Retired => "retired",
        Reply::Promise { .. } => "promise",
        Reply::Accepted => "accepted",
        Reply::Outbid { .. } => "outbid",
        Reply::NotSynced => "notsynced",
    }
}

/// A message's word.
pub fn word_of(message: &Message) -> &'static str {
    match message {
        Message::Request(_, request) => request_word(request),
        Message::Reply(_, reply) => reply_word(reply),
        Message::Learn { .. } => "learn",
        Message::Synced { .. } => "synced",
        Message::Client(_) => "client",
        Message::ClientReply { .. } => "clientreply",
    }
}

/// Whether a reply refuses.
fn is_refusal(reply: &Reply) -> bool {
    matches!(
        reply,
        Reply::Behind { .. }
            | Reply::Later { .. }
            | Reply::Full { .. }
            | Reply::Moved { .. }
            | Reply::Retired
            | Reply::Outbid { .. }
            | Reply::NotSynced
    )
}

/// The kind that a request is drawn as.
fn request_kind(request: &Request) -> &'static str {
    match request {
        Request::Read { .. } | Request::OldRead { .. } => "read",
        Request::Order { .. } | Request::OrderRead { .. } => "order",
        Request::Write { .. } | Request::Modify { .. } => "write",
        Request::Collect { .. } => "collect",
        Request::Prepare { .. } | Request::Accept { .. } => "ballot",
    }
}

/// The kind that a message is drawn as.
pub fn kind_of(message: &Message) -> &'static str {
    match message {
        Message::Request(_, request) => request_kind(request),
        Message::Reply(_, reply) if is_refusal(reply) => "refusal",
        Message::Reply(..) | Message::ClientReply { .. } => "reply",
        Message::Learn { .. } | Message::Synced { .. } => "learn",
        Message::Client(_) => "read",
    }
}

/// Writes where a version is looked for.
fn put_look(text: &mut Text, look: &Look) {
    match look {
        Look::Below(other) => text.put_stamp(" below ", *other),
        Look::At(other) => text.put_stamp(" at ", *other),
    }
}

/// Writes what a request says.
fn put_request(text: &mut Text, request: &Request) {
    match request {
        Request::Read {
            want: Want::Seat(seat),
        } => text.fill(" block of seat %", &[u64::from(*seat)]),
        Request::Read { want: Want::All } => text.put(" all blocks"),
        Request::Order { stamp } | Request::Collect { stamp } => text.put_stamp(" stamp ", *stamp),
        Request::OrderRead { stamp, look, .. } => {
            text.put_stamp(" stamp ", *stamp);
            put_look(text, look);
        }
        Request::Write { stamp, block, .. } => {
            text.put_stamp(" stamp ", *stamp);
            text.put(" block ");
            text.put_hex(block.as_slice());
        }
        Request::Modify {
            stamp,
            base,
            data_block,
            delta,
            ..
        } => {
            text.put_stamp(" stamp ", *stamp);
            text.put_stamp(" base ", *base);
            text.fill(" of % delta ", &[u64::from(*data_block)]);
            text.put_hex(delta.as_slice());
        }
        Request::OldRead { bound: Some(stamp) } => text.put_stamp(" below ", *stamp),
        Request::OldRead { bound: None } => {}
        Request::Prepare { ballot } => text.put_ballot(" ballot ", *ballot),
        Request::Accept { ballot, members } => {
            text.put_ballot(" ballot ", *ballot);
            text.put_members(members.as_slice());
        }
    }
}

/// Writes a version that was found, with its block where it was told.
fn put_version(text: &mut Text, version: &Option<Version>) {
    match version {
        Some(version) => {
            text.put_stamp(" version ", version.stamp);
            text.put(" block ");
            text.put_hex(version.block.as_slice());
        }
        None => text.put(" version none"),
    }
}

/// Writes what a member has accepted to follow a view, with the ballot under which it did.
fn put_choice(text: &mut Text, accepted: &Option<Choice>) {
    match accepted {
        Some(choice) => {
            text.put_ballot(" accepted ", choice.ballot);
            text.put_members(choice.members.as_slice());
        }
        None => text.put(" accepted none"),
    }
}

/// Writes what a reply says.
fn put_reply(text: &mut Text, reply: &Reply) {
    match reply {
        Reply::Found { order, newest } => {
            text.put_stamp(" order ", *order);
            put_version(text, newest);
        }
        Reply::OrderedRead { found } | Reply::Old { found } => put_version(text, found),
        Reply::Behind {
            newest: Some(stamp),
        } => text.put_stamp(" newest ", *stamp),
        Reply::Later { stamp } => text.put_stamp(" stamp ", *stamp),
        Reply::Full { live } => text.fill(" live %", &[u64::from(*live)]),
        Reply::Moved { view, lineage } => {
            text.fill(" to view %", &[u64::from(view.0)]);
            if let Some(known) = lineage {
                text.put_members(known.get().members.as_slice());
            }
        }
        Reply::Promise { accepted } => put_choice(text, accepted),
        Reply::Outbid { ballot } => text.put_ballot(" ballot ", *ballot),
        Reply::Ordered
        | Reply::Stored
        | Reply::Behind { newest: None }
        | Reply::Retired
        | Reply::Accepted
        | Reply::NotSynced => {}
    }
}

/// Writes the stripe and the view that a call names.
fn put_stripe(text: &mut Text, call: &Call) {
    text.fill(
        " group % stripe % view %",
        &[
            call.group.0.into(),
            call.stripe.0.into(),
            call.view.0.into(),
        ],
    );
}

/// Writes what a call is of: an operation, the read of a stripe for a synchronisation, a scrub, or a proposal to follow a view of a group.
fn put_call(text: &mut Text, call: &Call, owner: Owner) {
    match owner {
        Owner::Operation(operation) => text.fill(" op %", &[operation]),
        Owner::Read => put_stripe(text, call),
        Owner::Scrub => {
            text.put(" scrub");
            put_stripe(text, call);
        }
        Owner::Other => text.fill(
            " group % view %",
            &[call.group.0.into(), call.view.0.into()],
        ),
    }
    text.fill(" phase %", &[u64::from(call.phase)]);
}

/// Writes the message of a number, of an operation, as `#7 write 1>0 op 1 phase 2 stamp 1.1.0.1 block 41`; or of a read for a synchronisation, as
/// `#7 oldread 1>0 group 0 stripe 2 view 1 phase 3`; or of a scrub, as `#7 read 1>0 scrub group 0 stripe 2 view 1 phase 1 all blocks`; or of a proposal, as `#1 prepare 3>0 group 0 view 1 phase 1 ballot 1.3.1`; or of a view that is taught,
/// as `#9 learn 3>0 group 0 view 2 members 1 2 3`.
pub fn put_message(text: &mut Text, number: u64, packet: &Packet, owner: Owner) {
    text.fill("#% ", &[number]);
    text.put(word_of(&packet.message));
    text.fill(" %>%", &[packet.from.0.into(), packet.to.0.into()]);
    match &packet.message {
        Message::Request(call, request) => {
            put_call(text, call, owner);
            put_request(text, request);
        }
        Message::Reply(call, reply) => {
            put_call(text, call, owner);
            put_reply(text, reply);
        }
        Message::Learn { group, view } => {
            let view = view.get();
            text.fill(" group % view %", &[group.0.into(), view.number.0.into()]);
            text.put_members(view.members.as_slice());
        }
        Message::Synced { group, view } => {
            text.fill(" group % view %", &[group.0.into(), view.0.into()]);
        }
        Message::Client(_) | Message::ClientReply { .. } => {}
    }
}
