//! The synchronisation of a brick: each stripe of a group is read in a view, one read after another.

ghost use Rattle.std.specs.Prelude.{◌≡◌, ◌≤◌, ◌+◌, ◌++◌, ℕ, None, IfOk, [], vec_len, vec_capacity};
ghost use Rattle.fab_base.specs.declared.identities.BrickId.{BrickId};
ghost use Rattle.fab_base.specs.Layouts as layouts;
ghost use Rattle.protocol.specs.Jobs.{abort_cause};
ghost use Rattle.protocol.specs.Nodes.{Node, synced_packets, read_begun};
ghost use Rattle.stripe_code.specs.Codes.{coding};
ghost use Rattle.coord_phase.specs.Messages.{packets_from};
ghost use Rattle.protocol.specs.Jobs.{begun_job};
ghost use Rattle.view_sync.specs.Jobs.{begun_sync};
ghost use Rattle.node.specs.Jobs.{GoesOn, IsJobOf, FollowsFrom, MakesFrom, begins_sync, by_cause, closed, end_packets, followed_step, job_at, sends_first, sent_in};

use crate::call_sources::CallSource;
use crate::open_calls::fresh_stamp;
use crate::operations::Operation;
use crate::outs::{Outs, Tellings};
use fab_base::{Answer, Ask, BrickId, Cause, GroupId, NoMem, Op, StripeNo, View, ViewNo};
use layout::Layout;
use messages::{Call, Message, Messages};
use protocol::{Answered, SyncAnswer, Told};
use std::alloc::Global;
use view_sync::{Job, JobEnd, JobNext};

/// How many messages the end of a read and what comes after it send at most: the members of a view may collect, and each brick of a disk is told that the view is
/// synced.
const MOST_SENT: usize = 96;

/// A synchronisation that a brick has under way: its view, and the read of its present try.
#[derive(Drop)]
pub struct OpenJob {
    job: Job,
    view: View,
    read: Operation,
}

/// What comes after a read of a synchronisation.
#[derive(Drop)]
pub enum Followed {
    /// Another read begins: what it sends, and the synchronisation with it.
    Reads(Messages, OpenJob),
    /// The synchronisation ends so, and this is sent.
    Ends(Messages, SyncAnswer),
}

/// What a reply to a read comes to.
#[derive(Drop)]
pub enum ReadTurn {
    /// The read goes on: what it sends and tells, and the greatest time that the brick knows then.
    Goes(Outs, u64),
    /// The read has ended: what is told of it, and what comes after it, with what all members may collect sent first.
    Ends(Tellings, Followed),
}

/// What comes after a read by each way in which it may end, and room for all that is sent then.
#[derive(Drop)]
struct Prepared {
    room: Messages,
    answered: Followed,
    // By whatever cause.
    aborted: Followed,
}

/// A message to each of so many bricks that tells it that all stripes of a group are kept in a view.
fn synced_messages(
    alloc: Global,
    group: GroupId,
    view: ViewNo,
    bricks: u16,
) -> Result<Messages, NoMem>
    ensures packets { IfOk result (λ messages. (me : BrickId) → packets_from me messages.items ≡ synced_packets me group view bricks 0) }
    ensures few { IfOk result (λ messages. vec_len messages ≤ bricks) }
{
    let mut messages = Vec::new(alloc);
    for brick in 0..bricks {
        messages.push((BrickId(brick), Message::Synced { group, view }))?;
    }
    Ok(messages)
}

/// What is sent as a synchronisation of a group ends so: where all stripes are kept in its view, each brick of the disk is told it.
fn end_messages(
    alloc: Global,
    layout: &Layout,
    group: GroupId,
    answer: SyncAnswer,
) -> Result<Messages, NoMem>
    ensures packets { IfOk result (λ messages. (me : BrickId) → packets_from me messages.items ≡ end_packets layout.now me group answer) }
    ensures few { IfOk result (λ messages. vec_len messages ≤ 64) }
{
    match answer {
        SyncAnswer::Synced { view } => synced_messages(alloc, group, view, layout.bricks()),
        SyncAnswer::Stopped { .. } | SyncAnswer::Spent { .. } => Ok(Vec::new(alloc)),
    }
}

/// The messages of both, in this order, in room that was made for them.
fn joined(mut room: Messages, mut first: Messages, mut second: Messages) -> Messages
    requires empty { room.items ≡ [] }
    requires room { vec_len first + vec_len second ≤ vec_capacity room }
    ensures items { result.items ≡ first.items ++ second.items }
{
    match room.append(&mut first) {
        Ok(()) => {}
        Err(_) => unreachable!(),
    }
    match room.append(&mut second) {
        Ok(()) => room,
        Err(_) => unreachable!(),
    }
}

/// Begins the read of a stripe for a synchronisation of this view, as the brick's next call. Where no later time or no further call is left, the synchronisation
/// ends.
fn begin_read(
    alloc: Global,
    layout: &Layout,
    job: Job,
    view: View,
    stripe: StripeNo,
    at: CallSource,
) -> Result<Followed, NoMem>
    requires job { (group : layouts.Group) × IsJobOf layout.now job view group }
    requires stripe { stripe.0 ≡ job.attempt.stripe }
    ensures step { IfOk result (λ next. (node : Node) (seq : ℕ) → MakesFrom at node
        → read_begun (coding layout.now) at.me at.now node (job_at job view seq) ≡ followed_step at.me job.group node next) }
    ensures from { IfOk result (FollowsFrom layout.now at.seq job.group) }
    ensures few { IfOk result (λ next. sent_in next ≤ 32) }
{
    let Some((call, stamp)) = at.next(view.number) else {
        return Ok(Followed::Ends(Vec::new(alloc), SyncAnswer::Spent { stripe }));
    };
    let ask = Ask {
        group: job.group(),
        stripe,
        op: Op::ReadStripe,
    };
    let (read, messages) = Operation::begin(alloc, layout, view.copy(), call, &ask, stamp)?;
    Ok(Followed::Reads(messages, OpenJob { job, view, read }))
}

/// Begins a synchronisation of this view of a group of so many stripes, which are all known to be kept in it already, or not: then the first of them is read.
pub(crate) fn start(
    alloc: Global,
    layout: &Layout,
    group: GroupId,
    stripes: u32,
    view: View,
    synced: bool,
    at: CallSource,
) -> Result<Followed, NoMem>
    requires job { (kept : layouts.Group) × IsJobOf layout.now (begun_sync group stripes view.number) view kept }
    ensures step { IfOk result (λ next. (node : Node) → MakesFrom at node → node.job ≡ None
        → begins_sync layout.now at.me at.now node (begun_job group view) synced ≡ followed_step at.me group node next) }
    ensures from { IfOk result (FollowsFrom layout.now at.seq group) }
    ensures few { IfOk result (λ next. sent_in next ≤ 32) }
{
    let (job, next) = Job::start(group, stripes, view.number, synced);
    match next {
        JobNext::Read(stripe) => begin_read(alloc, layout, job, view, stripe, at),
        JobNext::End(answer) => Ok(Followed::Ends(Vec::new(alloc), answer)),
    }
}

/// What a synchronisation of this view does once its read has ended so: was aborted by a cause, or answered.
fn go_on(
    alloc: Global,
    layout: &Layout,
    mut job: Job,
    view: View,
    cause: Option<Cause>,
    at: CallSource,
) -> Result<Followed, NoMem>
    requires job { (group : layouts.Group) × IsJobOf layout.now job view group }
    ensures goes { IfOk result (GoesOn layout.now job view at cause) }
    ensures from { IfOk result (FollowsFrom layout.now at.seq job.group) }
    ensures few { IfOk result (λ next. sent_in next ≤ 64) }
{
    let end = match cause {
        None => JobEnd::Answered,
        Some(cause) => JobEnd::Aborted(cause),
    };
    match job.on_end(end) {
        JobNext::Read(stripe) => begin_read(alloc, layout, job, view, stripe, at),
        JobNext::End(answer) => {
            let messages = end_messages(alloc, layout, job.group(), answer)?;
            Ok(Followed::Ends(messages, answer))
        }
    }
}

/// The cause by which a read was aborted, if it was.
fn abort_cause(answer: &Answer) -> Option<Cause>
    ensures { result ≡ abort_cause answer.now }
{
    match answer {
        Answer::Aborted(cause) => Some(*cause),
        _ => None,
    }
}

/// What is told of a read of this call that has ended: this of its version, if anything, and that it was aborted by a cause or answered.
pub(crate) fn closed(seq: u64, version: Option<Told>, cause: Option<Cause>) -> Tellings
    ensures { result ≡ closed seq version cause }
{
    Tellings {
        version,
        ended: Some(Told::Closed { seq, cause }),
        begun: None,
    }
}

impl Followed {
    /// The same, where the last read was aborted by this cause.
    fn by_cause(self, cause: Cause) -> Followed
        ensures { result ≡ by_cause cause self }
    {
        match self {
            Followed::Reads(messages, open) => Followed::Reads(messages, open),
            Followed::Ends(messages, answer) => {
                let answer = match answer {
                    SyncAnswer::Stopped { stripe, .. } => SyncAnswer::Stopped { stripe, cause },
                    other => other,
                };
                Followed::Ends(messages, answer)
            }
        }
    }

    /// The same, where these messages are sent first, in room that was made for all.
    fn after(self, room: Messages, first: Messages) -> Followed
        requires empty { room.items ≡ [] }
        requires room { vec_len first + sent_in self ≤ vec_capacity room }
        ensures step { (me : BrickId) (group : GroupId) (node : Node) → followed_step me group node result
            ≡ sends_first (packets_from me first.items) (followed_step me group node self) }
        ensures from { (layout : layouts.Layout) (seq : ℕ) (group : GroupId) → FollowsFrom layout seq group self → FollowsFrom layout seq group result }
        ensures few { sent_in result ≡ vec_len first + sent_in self }
    {
        match self {
            Followed::Reads(messages, open) => {
                Followed::Reads(joined(room, first, messages), open)
            }
            Followed::Ends(messages, answer) => {
                Followed::Ends(joined(room, first, messages), answer)
            }
        }
    }
}

impl Prepared {
    ghost use Rattle.std.specs.Prelude.{◌≡◌, ◌≤◌, ◌++◌, ℕ, None, [], ◌∷◌, length, vec_len, vec_capacity};
    ghost use Rattle.fab_base.specs.declared.identities.BrickId.{BrickId};
    ghost use Rattle.fab_base.specs.declared.identities.GroupId.{GroupId};
    ghost use Rattle.fab_base.specs.Layouts as layouts;
    ghost use Rattle.protocol.specs.declared.tellings.Told.TheVariants.{Closed};
    ghost use Rattle.protocol.specs.Nodes.{Node};
    ghost use Rattle.coord_phase.specs.Messages.{packets_from};
    ghost use Rattle.node.specs.Jobs.{FollowsFrom, cause_in, ended_by, followed_step, sends_first, sent_in};
    ghost use Rattle.node.specs.Outcomes.{told_list};
    ghost use Rattle.node.specs.Reads.{IsRoomy};

    /// What comes after the read, which sent these messages and was aborted by this cause, or answered.
    fn taken(self, sent: Messages, cause: Option<Cause>) -> Followed
        requires few { vec_len sent ≤ 32 }
        requires roomy { IsRoomy self }
        ensures step { (me : BrickId) (group : GroupId) (node : Node) → followed_step me group node result
            ≡ sends_first (packets_from me sent.items) (followed_step me group node (ended_by cause self.answered self.aborted)) }
        ensures from { (layout : layouts.Layout) (seq : ℕ) (group : GroupId) → FollowsFrom layout seq group self.answered
            → FollowsFrom layout seq group self.aborted → FollowsFrom layout seq group result }
        ensures few { sent_in result ≤ 96 }
    {
        let Prepared {
            room,
            answered,
            aborted,
        } = self;
        match cause {
            None => answered.after(room, sent),
            Some(cause) => aborted.by_cause(cause).after(room, sent),
        }
    }

    /// What is told of a read of this call and comes after it, which has ended with this.
    fn end(self, seq: u64, outs: Outs) -> (Tellings, Followed)
        requires few { length outs.messages ≤ 32 }
        requires one { length outs.told ≤ 1 }
        requires roomy { IsRoomy self }
        ensures told { told_list result.0 ≡ outs.told ++ (Closed seq (cause_in outs.answers) ∷ []) }
        ensures begun { result.0.begun ≡ None }
        ensures step { (me : BrickId) (group : GroupId) (node : Node) → followed_step me group node result.1
            ≡ sends_first (packets_from me outs.messages) (followed_step me group node (ended_by (cause_in outs.answers) self.answered self.aborted)) }
        ensures from { (layout : layouts.Layout) (seq : ℕ) (group : GroupId) → FollowsFrom layout seq group self.answered
            → FollowsFrom layout seq group self.aborted → FollowsFrom layout seq group result.1 }
        ensures few { sent_in result.1 ≤ 96 }
    {
        let (messages, told, answer, _) = outs.into_parts();
        let cause = match answer {
            Some(Answered { answer, .. }) => abort_cause(&answer),
            None => None,
        };
        (closed(seq, told.only(), cause), self.taken(messages, cause))
    }
}

impl OpenJob {
    ghost use Rattle.std.specs.Prelude.{◌≡◌, ◌≤◌, ℕ, true, false, nat_eq, Some, None, IfOk, OnOk, OnErr, length, vec_len};
    ghost use Rattle.fab_base.specs.declared.identities.BrickId.{BrickId};
    ghost use Rattle.fab_base.specs.Layouts as layouts;
    ghost use Rattle.coord_phase.specs.Operations.{counts, heard, with_state, without_last};
    ghost use Rattle.coord_phase.specs.Decisions.{decided_on};
    ghost use Rattle.protocol.specs.Coordinators as machine;
    ghost use Rattle.protocol.specs.Nodes.{resent, view_in};
    ghost use Rattle.stripe_code.specs.Codes.{coding};
    ghost use Rattle.coord_phase.specs.Messages.{packets_from};
    ghost use Rattle.node.specs.Operations.{shown_of, coordinator_of, EndsOrWaits, IsOperationOf};
    ghost use Rattle.node.specs.Jobs.{GoesOn, FollowsFrom, IsOpenJobOf, sent_in};
    ghost use Rattle.node.specs.Reads.{HasCountedRead, IsAsBefore, IsReadTurn, MayFollow, MovesOn, sent_on};

    /// The group.
    pub(crate) fn group(&self) -> GroupId
        ensures { result ≡ self.now.job.group }
    {
        self.job.group()
    }

    /// The call of its read.
    pub(crate) fn call(&self) -> Call
        ensures { result ≡ (coordinator_of self.now.read).call }
    {
        self.read.call()
    }

    /// The time of its read's stamp.
    pub(crate) fn time(&self) -> u64
        ensures { result ≡ (coordinator_of self.now.read).stamp.time }
    {
        self.read.time()
    }

    /// The view of its read.
    pub(crate) fn view(&self) -> View
        ensures { result ≡ view_in (coordinator_of self.now.read) }
    {
        self.read.view()
    }

    /// Whether its read has the call of this number.
    pub(crate) fn reads(&self, seq: u64) -> bool
        ensures { result ≡ nat_eq (coordinator_of self.now.read).call.seq seq }
    {
        self.call().seq == seq
    }

    /// Whether a message counts in its read.
    pub(crate) fn counts(&self, from: BrickId, message: &Message) -> bool
        ensures { result ≡ counts (shown_of self.now.read) from message.now }
    {
        self.read.counts(from, message)
    }

    /// What comes after its read, once that was aborted by a cause or answered. Nothing has changed yet.
    fn after(
        &self,
        alloc: Global,
        layout: &Layout,
        cause: Option<Cause>,
        at: CallSource,
    ) -> Result<Followed, NoMem>
        requires of { IsOpenJobOf layout.now self.now }
        ensures goes { IfOk result (GoesOn layout.now self.now.job self.now.view at cause) }
        ensures from { IfOk result (FollowsFrom layout.now at.seq self.now.job.group) }
        ensures few { IfOk result (λ next. sent_in next ≤ 64) }
    {
        go_on(alloc, layout, self.job, self.view.copy(), cause, at)
    }

    /// What comes after its read by each way in which a message may end that. None where the message does not end it. Nothing has changed yet.
    fn prepare(
        &self,
        alloc: Global,
        layout: &Layout,
        from: BrickId,
        message: &Message,
        at: CallSource,
    ) -> Result<Option<Prepared>, NoMem>
        requires of { IsOpenJobOf layout.now self.now }
        ensures { IfOk result (MayFollow layout.now self.now at from message.now) }
    {
        if !self.read.may_end(from, message) {
            return Ok(None);
        }
        // By which cause it is aborted is seen only then, and matters only where the synchronisation stops: that sends nothing.
        let any = Cause::Gone { brick: from };
        Ok(Some(Prepared {
            room: Vec::with_capacity(alloc, MOST_SENT)?,
            answered: self.after(alloc, layout, None, at)?,
            aborted: self.after(alloc, layout, Some(any), at)?,
        }))
    }

    /// What its read does with a reply; and what comes after it, if the read ends. A new round of the read has a stamp of this source, which knows the time that the
    /// reply tells.
    ///
    /// # Errors
    ///
    /// `NoMemory` where no memory was left: the read is as it was.
    pub(crate) fn on_reply(
        &mut self,
        alloc: Global,
        layout: &Layout,
        from: BrickId,
        message: &Message,
        at: CallSource,
    ) -> Result<ReadTurn, NoMem>
        requires of { IsOpenJobOf layout.now self.old }
        ensures turn { IfOk result (λ turn. IsReadTurn layout.now self.old from message.now at turn self.new) }
        ensures few { IfOk result (λ turn. sent_on turn ≤ 96) }
        ensures same { (layout : layouts.Layout) → OnErr result (IsAsBefore layout self.old self.new) }
    {
        // All that may come after the read is there before the reply counts: nothing can fail after it.
        let prepared = self.prepare(alloc, layout, from, message, at)?;
        let mut stamps = at.stamps;
        let seq = self.call().seq;
        let fresh = fresh_stamp(stamps, at.now, self.read.stamp_view(), at.me);
        let outs = self
            .read
            .on_reply(alloc, from, message, fresh, &mut stamps)?;
        if outs.answer.is_none() {
            return Ok(ReadTurn::Goes(outs, stamps.known));
        }
        let Some(prepared) = prepared else {
            unreachable!()
        };
        let (told, next) = prepared.end(seq, outs);
        Ok(ReadTurn::Ends(told, next))
    }

    /// What is told of its read and comes after it, where that ends on a member's reply that counts and tells this later view. None where it waits for more
    /// replies. Nothing has changed yet.
    pub(crate) fn moved(
        &self,
        alloc: Global,
        layout: &Layout,
        from: BrickId,
        view: ViewNo,
        at: CallSource,
    ) -> Result<Option<(Tellings, Followed)>, NoMem>
        requires of { IsOpenJobOf layout.now self.now }
        ensures { IfOk result (MovesOn layout.now self.now from view at) }
    {
        let Some(answer) = self.read.ended_by(from, view) else {
            return Ok(None);
        };
        let cause = abort_cause(&answer);
        let next = self.after(alloc, layout, cause, at)?;
        Ok(Some((closed(self.call().seq, None, cause), next)))
    }

    /// Has its read count a reply on which it waits for more.
    ///
    /// # Errors
    ///
    /// `NoMemory` where no memory was left: the read is as it was.
    pub(crate) fn count(&mut self, from: BrickId, message: &Message) -> Result<(), NoMem>
        requires waits { decided_on None (shown_of self.old.read) from message.now ≡ machine.Waits (heard (shown_of self.old.read) from message.now).state }
        requires counts { counts (shown_of self.old.read) from message.now ≡ true }
        ensures counted { OnOk result (HasCountedRead from message.now self.old self.new) }
        ensures same { (layout : layouts.Layout) → OnErr result (IsAsBefore layout self.old self.new) }
    {
        self.read.count(from, message)
    }

    /// Has its read take the last reply that counted back.
    pub(crate) fn take_back(&mut self)
        ensures read { shown_of self.new.read ≡ with_state (shown_of self.old.read) (without_last (shown_of self.old.read).state) }
        ensures job { self.new.job ≡ self.old.job }
        ensures view { self.new.view ≡ self.old.view }
    {
        self.read.take_back();
    }

    /// Its read's present phase again, to each member that is asked without a reply that counts, each message right after one that teaches its receiver the view,
    /// where that is later than view 1.
    pub(crate) fn on_tick(&self, alloc: Global) -> Result<Messages, NoMem>
        ensures packets { IfOk result (λ messages. (layout : layouts.Layout) (me : BrickId) → IsOpenJobOf layout self.now
            → packets_from me messages.items ≡ resent (coding layout) me (Some (coordinator_of self.now.read))) }
        ensures few { IfOk result (λ messages. vec_len messages ≤ 64) }
    {
        self.read.on_tick(alloc)
    }
}
