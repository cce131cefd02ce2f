//! Records of a brick's store, and their bytes.

ghost use Rattle.std.specs.Prelude.{◌≡◌, ◌++◌, IfOk, IfSome, OnOk, Some, option_map};
ghost use Rattle.fields.specs.Parts.{spelled, AllFit};
ghost use Rattle.fields.specs.Reading.{Gives};
ghost use Rattle.stamp_store.specs.Reading.{whole};

use fab_base::{Ballot, Bytes, GroupId, Members, NoMem, Stamp, StripeNo, View, ViewNo};
use fields::{Field, Malformed, Reader};
use std::alloc::Global;

/// A record of a brick's store.
#[derive(Drop)]
pub enum Kept {
    /// How often the store was opened.
    Boot(u32),
    /// The greatest view that the brick learnt of a group.
    View {
        /// The group.
        group: GroupId,
        /// The view.
        view: View,
        /// Whether all stripes of the group are known to be in the view.
        synced: bool,
    },
    /// What the brick promised and accepted as the successor of a view.
    Ballots {
        /// The group.
        group: GroupId,
        /// The view whose successor is sought.
        view: ViewNo,
        /// The greatest ballot promised.
        promised: Ballot,
        /// The ballot accepted last, and its list of members.
        accepted: Option<(Ballot, Members)>,
    },
    /// The order stamp of a stripe: the greatest stamp promised.
    Order {
        /// The group.
        group: GroupId,
        /// The view.
        view: ViewNo,
        /// The stripe.
        stripe: StripeNo,
        /// The stamp.
        stamp: Stamp,
    },
}

impl Kept {
    ghost use Rattle.stamp_store.specs.declared.kept_records.Kept.{Kept};
    ghost use Rattle.stamp_store.specs.Spelling.{kind_of, body_of, HasMembers, Spells};
    ghost use Rattle.stamp_store.specs.Reading.{kept_parts, kept_at, read_of, made_boot, made_order};

    /// The record's kind in the store: 1 Boot, 2 View, 3 Ballots, 4 Order.
    pub fn kind(&self) -> u8
        ensures { result ≡ kind_of self.now }
    {
        match self {
            Kept::Boot(_) => 1,
            Kept::View { .. } => 2,
            Kept::Ballots { .. } => 3,
            Kept::Order { .. } => 4,
        }
    }

    /// The record's bytes, numbers from the high byte on. Asks that no list of members is empty.
    pub fn body(&self, alloc: Global) -> Result<Bytes, NoMem>
        requires { HasMembers self.now }
        ensures { IfOk result (λ made. Spells (kind_of self.now) made self.now) }
    {
        let mut out = Vec::new(alloc);
        self.put(&mut out)?;
        Ok(Bytes::from_vec(out))
    }

    /// The record of a kind that these bytes spell. None exactly where there is no such kind or no such record.
    pub fn read(kind: u8, body: &[u8]) -> Option<Kept>
        ensures found { IfSome result (Spells kind body.now) }
        ensures only { (kept : Kept) → Spells kind body.now kept → result ≡ Some kept }
    {
        Kept::whole(kind, body)
    }

    /// The count of openings that these bytes spell as a record of kind 1. None exactly where they spell none.
    pub fn read_boot(body: &[u8]) -> Option<u32>
        ensures { option_map made_boot result ≡ read_of 1 body.now }
    {
        all_of(body)
    }

    /// The group, view, stripe and order stamp that these bytes spell as a record of kind 4. None exactly where they spell none.
    pub fn read_order(body: &[u8]) -> Option<(GroupId, (ViewNo, (StripeNo, Stamp)))>
        ensures { option_map made_order result ≡ read_of 4 body.now }
    {
        all_of(body)
    }

    /// The record of a kind that is all of these bytes.
    #[tactic(auto, unfolding(crate::specs::Reading::read_of))]
    fn whole(kind: u8, body: &[u8]) -> Option<Kept>
        ensures { result ≡ read_of kind body.now }
    {
        let mut from = Reader { rest: body };
        match Kept::take(kind, &mut from) {
            Ok(kept) => {
                if from.rest.is_empty() {
                    Some(kept)
                } else {
                    None
                }
            }
            Err(_) => None,
        }
    }

    /// Adds the record's bytes.
    #[tactic(auto, using(crate::proofs::Writings::joined))]
    fn put(&self, out: &mut Vec<u8>) -> Result<(), NoMem>
        requires { HasMembers self.now }
        ensures bytes { OnOk result (out.new.items ≡ out.old.items ++ spelled (kept_parts self.now)) }
        ensures fits { OnOk result (AllFit (kept_parts self.now)) }
    {
        match self {
            Kept::Boot(count) => count.put(out),
            Kept::View {
                group,
                view,
                synced,
            } => {
                (*group, view.number).put(out)?;
                view.members.put(out)?;
                view.prior.put(out)?;
                synced.put(out)
            }
            Kept::Ballots {
                group,
                view,
                promised,
                accepted,
            } => {
                (*group, (*view, *promised)).put(out)?;
                accepted.put(out)
            }
            Kept::Order {
                group,
                view,
                stripe,
                stamp,
            } => (*group, (*view, (*stripe, *stamp))).put(out),
        }
    }

    /// The record of a kind that these bytes begin with.
    #[tactic(auto, unfolding(crate::specs::Reading::kept_at))]
    fn take(kind: u8, from: &mut Reader<'_>) -> Result<Kept, Malformed>
        ensures { Gives result from.new.rest.now (kept_at kind from.old.rest.now) }
    {
        Ok(match kind {
            1 => Kept::Boot(from.take()?),
            2 => {
                let (group, (number, (members, (prior, synced)))) = from.take()?;
                Kept::View {
                    group,
                    view: View {
                        number,
                        members,
                        prior,
                    },
                    synced,
                }
            }
            3 => {
                let (group, (view, (promised, accepted))) = from.take()?;
                Kept::Ballots {
                    group,
                    view,
                    promised,
                    accepted,
                }
            }
            4 => {
                let (group, (view, (stripe, stamp))) = from.take()?;
                Kept::Order {
                    group,
                    view,
                    stripe,
                    stamp,
                }
            }
            _ => {
                return Err(Malformed {
                    left: from.rest.len(),
                });
            }
        })
    }
}

/// The field that is all of these bytes.
fn all_of<T: Field>(body: &[u8]) -> Option<T>
    ensures { result ≡ whole (T.codec.read body.now) }
{
    let mut from = Reader { rest: body };
    match from.take() {
        Ok(field) => {
            if from.rest.is_empty() {
                Some(field)
            } else {
                None
            }
        }
        Err(_) => None,
    }
}
