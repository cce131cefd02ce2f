//! A synchronisation of a view, from one read to the next.

use crate::answers::{JobEnd, JobNext, SyncAnswer};
use fab_base::{Cause, GroupId, StripeNo, ViewNo};
use std::marker::Model;

/// How often one stripe is tried.
const MOST_TRIES: u8 = 8;

/// A synchronisation of a view of a group. It stays with the view that it was begun in, and takes no memory.
///
/// A clause sees the group, how many stripes that has, the view's number, and the present try.
#[derive(Clone, Copy)]
pub struct Job {
    group: GroupId,
    stripes: u32,
    view: ViewNo,
    stripe: u32,
    // Which try of the stripe this is, from 1.
    tries: u8,
}

impl Model for Job {
    ghost use Rattle.view_sync.specs.Jobs.{Synchronising};

    ghost Value = { Synchronising };

    ghost view = { λ job. record {
      group = job.group;
      stripes = job.stripes;
      view = job.view;
      attempt = record { stripe = job.stripe; tries = job.tries };
    } };

    ghost inverse = { λ job. record {
      group = job.group;
      stripes = job.stripes;
      view = job.view;
      stripe = job.attempt.stripe;
      tries = job.attempt.tries;
    } };
}

impl Job {
    ghost use Rattle.std.specs.Prelude.{◌≡◌, None, Some};
    ghost use Rattle.protocol.specs.Jobs.{job_after};
    ghost use Rattle.view_sync.specs.Jobs.{begun_sync, first_next, next_as, left_as, job_next, job_left};
    ghost use Rattle.view_sync.specs.Evidence.{EndIsShown};
    ghost use Rattle.view_sync.specs.declared.answers.JobEnd.TheVariants as end;

    /// Begins to synchronise a view of a group of so many stripes. Where all stripes are known to be in the view already, `synced`, it ends at once.
    pub fn start(group: GroupId, stripes: u32, view: ViewNo, synced: bool) -> (Job, JobNext)
        ensures job { result.0 ≡ begun_sync group stripes view }
        ensures next { result.1 ≡ first_next view synced }
    {
        let job = Job {
            group,
            stripes,
            view,
            stripe: 0,
            tries: 1,
        };
        if synced {
            return (job, JobNext::End(SyncAnswer::Synced { view }));
        }
        (job, JobNext::Read(StripeNo(0)))
    }

    /// The group.
    pub fn group(self) -> GroupId
        ensures { result ≡ self.group }
    {
        self.group
    }

    /// The number of the view.
    pub fn view(self) -> ViewNo
        ensures { result ≡ self.view }
    {
        self.view
    }

    /// What it does once its read was answered.
    fn on_answered(&mut self) -> JobNext
        ensures next { result ≡ next_as self.old (job_after self.old.stripes self.old.attempt None) }
        ensures left { self.new ≡ left_as self.old (job_after self.old.stripes self.old.attempt None) }
    {
        if self.stripes.saturating_sub(self.stripe) <= 1 {
            return JobNext::End(SyncAnswer::Synced { view: self.view });
        }
        self.stripe += 1;
        self.tries = 1;
        JobNext::Read(StripeNo(self.stripe))
    }

    /// What it does once its read was aborted.
    fn on_aborted(&mut self, cause: Cause) -> JobNext
        ensures next { result ≡ next_as self.old (job_after self.old.stripes self.old.attempt (Some cause)) }
        ensures left { self.new ≡ left_as self.old (job_after self.old.stripes self.old.attempt (Some cause)) }
    {
        let stripe = StripeNo(self.stripe);
        if self.tries >= MOST_TRIES {
            return JobNext::End(SyncAnswer::Stopped { stripe, cause });
        }
        self.tries += 1;
        JobNext::Read(stripe)
    }

    /// What it does once its read could not begin.
    fn on_spent(&self) -> JobNext
        ensures { result ≡ job_next self.now end.Spent }
    {
        JobNext::End(SyncAnswer::Spent {
            stripe: StripeNo(self.stripe),
        })
    }

    /// What it does once its read has ended so. It reads the next stripe, or the same again; or it ends, and is then asked nothing more.
    ///
    /// It is synced only after an answered read of each stripe, and stopped only after eight tries of one stripe that were all aborted.
    pub fn on_end(&mut self, end: JobEnd) -> JobNext
        ensures next { result ≡ job_next self.old end }
        ensures left { self.new ≡ job_left self.old end }
        ensures evidence { EndIsShown self.old end result }
    {
        match end {
            JobEnd::Answered => self.on_answered(),
            JobEnd::Aborted(cause) => self.on_aborted(cause),
            JobEnd::Spent => self.on_spent(),
        }
    }
}
