//! What bricks report has a spelling: its numbers are those of their types, which the one who looks at them is told.

ghost use Rattle.std.specs.Prelude.{◌≡◌};
ghost use Rattle.printed.specs.Spellings.{BricksRead, ViewAnswerReads, SyncAnswerReads, ScrubAnswerReads, ReportReads, AllReportsRead};

use fab_base::BrickId;
use protocol::{Report, ScrubAnswer, SyncAnswer, ViewAnswer};

/// The value that is pointed to. Its numbers are those of its type.
fn value_at<T: Copy>(place: &T) -> T
    ensures { result ≡ place.now }
{
    *place
}

/// Looks at the numbers of bricks, which are those of their type.
fn look_at_bricks(bricks: &[BrickId])
    ensures { BricksRead bricks.now }
{
    for brick in bricks {
        let _brick = value_at(brick);
    }
}

/// Looks at how a proposal ended: its numbers are those of their types.
fn look_at_view_answer(answer: &ViewAnswer)
    ensures { ViewAnswerReads answer.now }
{
    match answer {
        ViewAnswer::Decided { view, members } => {
            let _view = value_at(view);
            look_at_bricks(members.as_slice());
        }
        ViewAnswer::Outbid { ballot } => {
            let _ballot = value_at(ballot);
        }
        ViewAnswer::NotSynced { brick } => {
            let _brick = value_at(brick);
        }
        ViewAnswer::Moved { view } => {
            let _view = value_at(view);
        }
        ViewAnswer::BadMembers => {}
    }
}

/// Looks at how a synchronisation ended: its numbers are those of their types.
fn look_at_sync_answer(answer: &SyncAnswer)
    ensures { SyncAnswerReads answer.now }
{
    match answer {
        SyncAnswer::Synced { view } => {
            let _view = value_at(view);
        }
        SyncAnswer::Stopped { stripe, cause } => {
            let _stripe = value_at(stripe);
            let _cause = value_at(cause);
        }
        SyncAnswer::Spent { stripe } => {
            let _stripe = value_at(stripe);
        }
    }
}

/// Looks at how a scrub ended: its numbers are those of their types.
fn look_at_scrub_answer(answer: &ScrubAnswer)
    ensures { ScrubAnswerReads answer.now }
{
    match answer {
        ScrubAnswer::Clean => {}
        ScrubAnswer::Repaired { stamp, lagging } => {
            let _stamp = value_at(stamp);
            look_at_bricks(lagging.as_slice());
        }
        ScrubAnswer::Aborted { cause } => {
            let _cause = value_at(cause);
        }
    }
}

/// Looks at a report: its numbers are those of their types.
fn look_at_report(report: &Report)
    ensures { ReportReads report.now }
{
    match report {
        Report::View { group, answer, .. } => {
            let _group = value_at(group);
            look_at_view_answer(answer);
        }
        Report::Sync { group, answer } => {
            let _group = value_at(group);
            look_at_sync_answer(answer);
        }
        Report::Scrub { call, answer, .. } => {
            let _group = value_at(&call.group);
            let _stripe = value_at(&call.stripe);
            look_at_scrub_answer(answer);
        }
    }
}

/// Looks at what bricks reported, so that each number of it is known to have a spelling.
pub(crate) fn look_at_reports(reports: &[(BrickId, Report)])
    ensures { AllReportsRead reports.now }
{
    for told in reports {
        look_at_report(&told.1);
    }
}
