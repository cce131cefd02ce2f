//! Messages that teach views.

ghost use Rattle.std.specs.Prelude.{◌≡◌, ◌≤◌, ◌*◌, IfOk, vec_len};
ghost use Rattle.fab_base.specs.declared.identities.BrickId.{BrickId};
ghost use Rattle.messages.specs.declared.packets.Message.TheVariants as message;
ghost use Rattle.protocol.specs.Nodes.{learn_packets};
ghost use Rattle.protocol.specs.Views.{view_told, is_view};
ghost use Rattle.coord_phase.specs.Messages.{packets_from};
ghost use Rattle.node.specs.Teaching.{teaching};

use fab_base::{Boxed, BrickId, GroupId, NoMem, View};
use messages::{Message, Messages, Reply};
use quorum::is_membership;
use std::alloc::Global;

/// The message that teaches a view of a group.
fn learn_message(alloc: Global, group: GroupId, view: &View) -> Result<Message, NoMem>
    ensures { IfOk result (λ learn. learn ≡ message.Learn group view.now) }
{
    Ok(Message::Learn {
        group,
        view: Boxed::new(alloc, view.copy())?,
    })
}

/// These messages of a view; where it is later than view 1, each right after one that teaches its receiver the view.
#[tactic(auto, using(crate::proofs::Taught::each_taught_more))]
pub(crate) fn teaching(
    alloc: Global,
    group: GroupId,
    view: &View,
    messages: Messages,
) -> Result<Messages, NoMem>
    ensures items { IfOk result (λ taught. taught.items ≡ teaching group view.now messages.items) }
    ensures few { IfOk result (λ taught. vec_len taught ≤ 2 * vec_len messages) }
{
    if view.number.0 <= 1 {
        return Ok(messages);
    }
    let mut taught = Vec::new(alloc);
    for (to, message) in messages {
        taught.push((to, learn_message(alloc, group, view)?))?;
        taught.push((to, message))?;
    }
    Ok(taught)
}

/// A message to each of so many bricks that teaches it a view of a group.
pub(crate) fn learn_messages(
    alloc: Global,
    group: GroupId,
    view: &View,
    bricks: u16,
) -> Result<Messages, NoMem>
    ensures packets { IfOk result (λ messages. (me : BrickId) → packets_from me messages.items ≡ learn_packets me group view.now bricks 0) }
    ensures few { IfOk result (λ messages. vec_len messages ≤ bricks) }
{
    let mut messages = Vec::new(alloc);
    for brick in 0..bricks {
        messages.push((BrickId(brick), learn_message(alloc, group, view)?))?;
    }
    Ok(messages)
}

/// The view that a reply teaches: a later one that it tells with its members.
pub(crate) fn view_told(reply: &Reply) -> Option<View>
    ensures { result ≡ view_told reply.now }
{
    match reply {
        Reply::Moved {
            view,
            lineage: Some(lineage),
        } => {
            let lineage = lineage.get();
            Some(View {
                number: *view,
                members: lineage.members.copy(),
                prior: lineage.prior.copy(),
            })
        }
        _ => None,
    }
}

/// Whether the lists of a view may keep a group of `m` data blocks on a disk of `bricks` bricks.
pub(crate) fn is_view(m: u8, bricks: u16, view: &View) -> bool
    ensures { result ≡ is_view m bricks view.now }
{
    is_membership(m, bricks, view.members.as_slice())
        && is_membership(m, bricks, view.prior.as_slice())
}
