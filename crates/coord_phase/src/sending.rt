//! The messages of a phase.

use crate::operations::Operation;
use fab_base::{Bytes, NoMem};
use messages::{Look, Message, Messages, Request, Want};
use protocol::Phase;
use std::alloc::Global;

impl Operation {
    ghost use Rattle.std.specs.Prelude.{◌≡◌, ◌<◌, IfOk, length};
    ghost use Rattle.stripe_code.specs.Codes.{block_code};
    ghost use Rattle.protocol.specs.declared.phases.Phase.TheVariants.{Stores};
    ghost use Rattle.protocol.specs.Coordinators.{asked_group, delta_at, request_of};
    ghost use Rattle.coord_phase.specs.Messages.{phase_messages, HasParity};

    /// All parity blocks of what the phase stores, made in one pass; none where it stores nothing.
    fn parity(&self, alloc: Global) -> Result<Bytes, NoMem>
        ensures { IfOk result (HasParity self.now) }
    {
        match self.stage.phase {
            Phase::Stores => {
                let policy = self.group.policy();
                stripe_code::parity(alloc, policy.m(), policy.n(), self.block, self.stored())
            }
            Phase::Looks
            | Phase::LooksAt(_)
            | Phase::Orders
            | Phase::OrdersAt(_)
            | Phase::Recovers
            | Phase::Descends(_)
            | Phase::LooksBack(_)
            | Phase::Modifies { .. }
            | Phase::Bases(_) => Ok(Bytes::empty(alloc)),
        }
    }

    /// The block that the member at a seat is to keep, of which there are the parity blocks.
    fn block_at(&self, alloc: Global, seat: u8, parity: &[u8]) -> Result<Bytes, NoMem>
        requires stores { self.now.state.phase ≡ Stores }
        requires seat { seat < length self.now.state.group.members }
        requires parity { HasParity self.now parity.now }
        ensures { IfOk result (λ block. block ≡ (block_code self.now.block).encode self.now.state.group.m self.now.state.content seat) }
    {
        let m = self.group.policy().m();
        if seat < m {
            return stripe_code::encode(alloc, m, self.block, self.stored(), seat);
        }
        let size = self.block as usize;
        let at = (seat - m) as usize * size;
        Bytes::from_slice(alloc, &parity[at..at + size])
    }

    /// What the member at a seat is told that a data block changes by: nothing, where its own block stays as it is.
    fn delta_at(&self, alloc: Global, data_block: u8, seat: u8) -> Result<Bytes, NoMem>
        ensures { IfOk result (λ delta. delta ≡ delta_at self.now.state.group.m data_block seat self.now.state.content) }
    {
        if seat == data_block || seat >= self.group.m() {
            return Bytes::from_slice(alloc, self.stored());
        }
        Ok(Bytes::empty(alloc))
    }

    /// What the phase asks of the member at a seat. What it stores has these parity blocks.
    #[tactic(auto, unfolding(protocol::specs::Coordinators::request_of))]
    fn request(&self, alloc: Global, seat: u8, parity: &[u8]) -> Result<Request, NoMem>
        requires seat { seat < length (asked_group self.now.state).members }
        requires parity { HasParity self.now parity.now }
        ensures { IfOk result (λ request. request ≡ request_of (block_code self.now.block) self.now.state seat) }
    {
        let stamp = self.stage.stamp;
        match self.stage.phase {
            Phase::Looks => Ok(Request::Read { want: Want::All }),
            Phase::LooksAt(j) => Ok(Request::Read {
                want: Want::Seat(j),
            }),
            Phase::Orders => Ok(Request::Order { stamp }),
            Phase::OrdersAt(j) => Ok(Request::OrderRead {
                stamp,
                look: Look::Below(stamp),
                want: Want::Seat(j),
            }),
            Phase::Recovers => Ok(Request::OrderRead {
                stamp,
                look: Look::Below(stamp),
                want: Want::All,
            }),
            Phase::Descends(bound) => Ok(Request::OrderRead {
                stamp,
                look: Look::Below(bound),
                want: Want::All,
            }),
            Phase::LooksBack(bound) => Ok(Request::OldRead { bound }),
            Phase::Modifies { base, data_block } => Ok(Request::Modify {
                stamp,
                base,
                data_block,
                delta: self.delta_at(alloc, data_block, seat)?,
            }),
            Phase::Bases(base) => Ok(Request::OrderRead {
                stamp,
                look: Look::At(base),
                want: Want::All,
            }),
            Phase::Stores => Ok(Request::Write {
                stamp,
                block: self.block_at(alloc, seat, parity)?,
            }),
        }
    }

    /// The messages of the phase, in the order of seats: to each member that it asks, and that has no counted reply.
    pub fn messages(&self, alloc: Global) -> Result<Messages, NoMem>
        ensures { IfOk result (λ messages. messages.items ≡ phase_messages self.now) }
    {
        let parity = self.parity(alloc)?;
        let mut messages = Vec::new(alloc);
        let asked = self.asked();
        for (seat, member) in asked.members().as_slice().iter().enumerate() {
            let seat = seat as u8;
            if self.has_reply(seat) {
                continue;
            }
            let request = self.request(alloc, seat, parity.as_slice())?;
            messages.push((*member, Message::Request(self.stage.call, request)))?;
        }
        Ok(messages)
    }
}
