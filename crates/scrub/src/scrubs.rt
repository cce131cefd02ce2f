//! A scrub of some members of a stripe.

ghost use Rattle.std.specs.Prelude.{◌≡◌, ◌≤◌, ◌&&◌, nat_eq, length, filter};
ghost use Rattle.std.specs.List.{list_any};
ghost use Rattle.protocol.specs.Coordinators.{told_stamp};
ghost use Rattle.protocol.specs.Scrubs.{is_behind_version, lags, lagging_of};

use crate::answers::{ScrubAnswer, ScrubNext};
use coord_phase::{Operation, told_stamp};
use fab_base::{Ask, BrickId, CallId, Cause, GroupId, Members, NoMem, Op, Stamp, StripeNo, View};
use layout::Layout;
use messages::Message;
use protocol::{Counted, Mover, Phase};
use std::alloc::Global;
use std::marker::Model;

/// The most members of a view.
const MOST_MEMBERS: usize = 32;

/// Whether a version that a member told, if it told one, is behind the newest.
fn is_behind_version(newest: Stamp, told: Option<Stamp>) -> bool
    ensures { result ≡ is_behind_version newest told }
{
    match told {
        None => true,
        Some(stamp) => stamp.is_below(newest),
    }
}

/// Whether a brick's reply is among these, and what it tells is behind this version.
fn is_behind_among(newest: Stamp, counted: &[Counted], brick: BrickId) -> bool
    ensures { result ≡ list_any (λ c. nat_eq c.brick.0 brick.0 && is_behind_version newest (told_stamp c.reply)) counted.now }
{
    counted.iter().any(|c| c.brick.0 == brick.0 && is_behind_version(newest, told_stamp(&c.reply)))
}

/// Whether a brick's reply is among these, and what it tells is behind the newest version of all, if one is told.
fn lags(newest: Option<Stamp>, counted: &[Counted], brick: BrickId) -> bool
    ensures { result ≡ lags newest counted.now brick }
{
    match newest {
        None => false,
        Some(newest) => is_behind_among(newest, counted, brick),
    }
}

/// Those of a view's members that lag by these replies, by seat, the newest version that one tells being this.
fn lagging_of(members: &[BrickId], newest: Option<Stamp>, counted: &[Counted]) -> Members
    requires { length members.now ≤ 32 }
    ensures { result ≡ filter (lags newest counted.now) members.now }
{
    let mut lagging = [BrickId(0); MOST_MEMBERS];
    let mut count = 0;
    for member in members {
        if lags(newest, counted, *member) {
            lagging[count] = *member;
            count += 1;
        }
    }
    match Members::new(&lagging[..count]) {
        Some(members) => members,
        None => unreachable!(),
    }
}

/// A scrub of some members of a stripe: its look, and who of them lagged, once that found them to be kept apart.
///
/// A clause sees the operation that looks, in its phase, and who lagged.
#[derive(Drop)]
pub struct Scrub {
    alloc: Global,
    look: Operation,
    lagging: Members,
}

impl Model for Scrub {
    ghost use Rattle.std.specs.Prelude.{◌≡◌};
    ghost use Rattle.protocol.specs.declared.phases.Phase.TheVariants.{Looks};
    ghost use Rattle.scrub.specs.Scrubs.{Scrubbing, CountsSome};

    ghost Value = { Scrubbing };

    ghost view = { λ scrub. record { look = scrub.look; lagging = scrub.lagging } };

    ghost invariant = { λ scrub. (scrub.look.state.phase ≡ Looks) × CountsSome scrub.look };
}

impl Scrub {
    ghost use Rattle.std.specs.Prelude.{◌≡◌, Some, IfOk, OnOk, OnErr, length};
    ghost use Rattle.quorum.specs.Quorums.{IsWithinLimits};
    ghost use Rattle.protocol.specs.Coordinators.{AreEnough, fast_version};
    ghost use Rattle.protocol.specs.Scrubs.{scrub_answer};
    ghost use Rattle.coord_phase.specs.Operations.{PriorIsWithinLimits, counts, group_in_view};
    ghost use Rattle.scrub.specs.Scrubs.{Scrubbing, begun_scrub, members_of, noted, taken_back};
    ghost use Rattle.scrub.specs.Decisions.{Hears, SendsLook};

    /// Begins a scrub of these members of a stripe of the layout, with its stamp of the view: it looks. All members of the view are asked, whose number and that of
    /// the group's data blocks are within the limits of a quorum; so are those before them, where there is a view before. Those that are named are at least a quorum
    /// of them.
    ///
    /// # Errors
    ///
    /// `NoMemory` where no memory was left.
    pub fn start(
        alloc: Global,
        layout: &Layout,
        view: View,
        call: CallId,
        group: GroupId,
        stripe: StripeNo,
        stamp: Stamp,
        only: Members,
    ) -> Result<(Scrub, ScrubNext), NoMem>
        requires limits { IsWithinLimits (group_in_view layout.now view.members group.0).m (length view.members) }
        requires prior { PriorIsWithinLimits (group_in_view layout.now view.members group.0).m view.number view.prior }
        requires view { stamp.view ≡ view.number }
        requires enough { AreEnough (group_in_view layout.now view.members group.0) (Some only) }
        ensures scrub { IfOk result (λ begun. begun.0 ≡ begun_scrub layout.now view call group stripe stamp only) }
        ensures sent { IfOk result (λ begun. SendsLook begun.0 begun.1) }
    {
        let ask = Ask {
            group,
            stripe,
            op: Op::ReadStripe,
        };
        let look = Operation::opened(
            alloc,
            layout,
            &view,
            call,
            ask,
            stamp,
            Phase::Looks,
            Some(only),
        );
        let messages = look.messages(alloc)?;
        let scrub = Scrub {
            alloc,
            look,
            lagging: Members::none(),
        };
        Ok((scrub, ScrubNext::Send(messages)))
    }

    /// Whether a message counts in its look: it is a reply to that of a member that it was to bring to one version, answers it, and is its member's first.
    pub fn counts(&self, from: BrickId, reply: &Message) -> bool
        ensures { result ≡ counts self.now.look from reply.now }
    {
        self.look.counts(from, reply)
    }

    /// What its look does with a message. Once all its members have replied, one that serves the view no more aborts it, the one of the lowest seat; it is clean if
    /// all told one newest version, and no order above that; and else their stripe is to be recovered.
    ///
    /// # Errors
    ///
    /// `NoMemory` where no memory was left; then nothing has changed.
    pub fn on_reply(&mut self, from: BrickId, reply: &Message) -> Result<ScrubNext, NoMem>
        ensures hears { IfOk result (λ next. Hears self.old from reply.now next self.new) }
        ensures err { OnErr result (self.new ≡ self.old) }
    {
        if !self.look.count(self.alloc, from, reply)? || !self.look.is_full() {
            return Ok(ScrubNext::Wait);
        }
        if let Some(Mover { brick, view, .. }) = self.look.mover() {
            let cause = Cause::Moved { brick, view };
            return Ok(ScrubNext::End(ScrubAnswer::Aborted { cause }));
        }
        if self.clean_version().is_some() {
            return Ok(ScrubNext::End(ScrubAnswer::Clean));
        }
        Ok(ScrubNext::Recover)
    }

    /// The version that all members told that replied, if they told one, and no order above it.
    pub fn clean_version(&self) -> Option<Stamp>
        ensures { result ≡ fast_version self.now.look.state.counted }
    {
        self.look.fast_version()
    }

    /// Notes who lags by the replies of its look, once the recovery of its stripe has begun.
    pub fn note_lagging(&mut self)
        ensures { self.new ≡ noted self.old }
    {
        let members = self.look.group().members();
        let newest = self.look.greatest_version();
        self.lagging = lagging_of(members.as_slice(), newest, self.look.counted());
    }

    /// Takes the last reply that counted back.
    pub fn take_back(&mut self)
        ensures { self.new ≡ taken_back self.old }
    {
        self.look.take_back();
    }

    /// Its look again, to each member of the view without a counted reply, those among them that it does not count too.
    ///
    /// # Errors
    ///
    /// `NoMemory` where no memory was left.
    pub fn on_tick(&self) -> Result<ScrubNext, NoMem>
        ensures sent { IfOk result (λ next. SendsLook self.now next) }
    {
        Ok(ScrubNext::Send(self.look.messages(self.alloc)?))
    }

    /// How it ends once all its members have stored the version of this stamp.
    pub fn on_stored(&self, stamp: Stamp) -> ScrubAnswer
        ensures { result ≡ scrub_answer self.now.lagging None (Some stamp) }
    {
        ScrubAnswer::Repaired {
            stamp,
            lagging: self.lagging.copy(),
        }
    }

    /// The members that it brings to one version, as they were named.
    pub fn members(&self) -> Members
        ensures { result ≡ members_of self.now }
    {
        match self.look.only() {
            Some(members) => members,
            None => Members::none(),
        }
    }

    /// The operation that looks: a recovery goes on from it.
    pub fn look(&self) -> &Operation
        ensures { result.now ≡ self.now.look }
    {
        &self.look
    }
}
