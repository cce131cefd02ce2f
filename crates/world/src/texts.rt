//! The text of marks, a line each.

ghost use Rattle.std.specs.Prelude.{◌≡◌, IfOk, string_bytes};
ghost use Rattle.world.specs.Texts.{mark_text, marks_text, answer_text, ask_text, members_text, view_answer_text, sync_answer_text, scrub_answer_text, report_text, reports_text, idle_text};

use fab_base::{Answer, Ask, BrickId, NoMem, Op};
use protocol::{Report, ScrubAnswer, SyncAnswer, ViewAnswer};
use reg_model::Mark;
use std::alloc::Global;

/// An answer.
fn answer_text(alloc: Global, answer: &Answer) -> Result<String, NoMem>
    ensures { IfOk result (λ text. string_bytes text ≡ answer_text answer.now) }
{
    match answer {
        Answer::Data(bytes) => {
            let bytes = hex::encode(alloc, bytes.as_slice())?;
            Ok(format!(in alloc; "data {bytes}\n")?)
        }
        Answer::Done => Ok(format!(in alloc; "done\n")?),
        Answer::Aborted(cause) => {
            let cause = cause.text(alloc)?;
            Ok(format!(in alloc; "aborted {cause}")?)
        }
    }
}

/// What is asked.
fn ask_text(alloc: Global, ask: &Ask) -> Result<String, NoMem>
    ensures { IfOk result (λ text. string_bytes text ≡ ask_text ask.now) }
{
    let group = ask.group.0;
    let stripe = ask.stripe.0;
    Ok(match &ask.op {
        Op::ReadBlock(block) => format!(in alloc; "read {group} {stripe} {block}\n")?,
        Op::WriteBlock(block, bytes) => {
            let bytes = hex::encode(alloc, bytes.as_slice())?;
            format!(in alloc; "write {group} {stripe} {block} {bytes}\n")?
        }
        Op::ReadStripe => format!(in alloc; "readall {group} {stripe}\n")?,
        Op::WriteStripe(bytes) => {
            let bytes = hex::encode(alloc, bytes.as_slice())?;
            format!(in alloc; "writeall {group} {stripe} {bytes}\n")?
        }
    })
}

/// A mark, on a line of its own.
fn mark_text(alloc: Global, mark: &Mark) -> Result<String, NoMem>
    ensures { IfOk result (λ text. string_bytes text ≡ mark_text mark.now) }
{
    match mark {
        Mark::Begin {
            position,
            operation,
            brick,
            ask,
        } => {
            let ask = ask_text(alloc, ask)?;
            Ok(format!(in alloc; "{position} begin {operation} {brick} {ask}")?)
        }
        Mark::End {
            position,
            operation,
            answer,
        } => {
            let answer = answer_text(alloc, answer)?;
            Ok(format!(in alloc; "{position} end {operation} {answer}")?)
        }
        Mark::Crash { position, brick } => Ok(format!(in alloc; "{position} crash {brick}\n")?),
    }
}

/// Marks, in order.
pub fn marks_text(alloc: Global, marks: &[Mark]) -> Result<String, NoMem>
    ensures { IfOk result (λ text. string_bytes text ≡ marks_text marks.now) }
{
    let mut text = String::new(alloc);
    for mark in marks {
        let line = mark_text(alloc, mark)?;
        text.push_str(line.as_str())?;
    }
    Ok(text)
}

/// The members of a view, to the end of a line.
fn members_text(alloc: Global, members: &[BrickId]) -> Result<String, NoMem>
    ensures { IfOk result (λ text. string_bytes text ≡ members_text members.now) }
{
    let mut text = String::new(alloc);
    for member in members {
        let word = format!(in alloc; " {member}")?;
        text.push_str(word.as_str())?;
    }
    text.push_str("\n")?;
    Ok(text)
}

/// How a proposal ended.
fn view_answer_text(alloc: Global, answer: &ViewAnswer) -> Result<String, NoMem>
    ensures { IfOk result (λ text. string_bytes text ≡ view_answer_text answer.now) }
{
    Ok(match answer {
        ViewAnswer::Decided { view, members } => {
            let view = view.0;
            let members = members_text(alloc, members.as_slice())?;
            format!(in alloc; "decided {view}{members}")?
        }
        ViewAnswer::Outbid { ballot } => format!(in alloc; "outbid {ballot}\n")?,
        ViewAnswer::NotSynced { brick } => format!(in alloc; "notsynced {brick}\n")?,
        ViewAnswer::Moved { view } => {
            let view = view.0;
            format!(in alloc; "moved {view}\n")?
        }
        ViewAnswer::BadMembers => format!(in alloc; "badmembers\n")?,
    })
}

/// How a synchronisation ended.
fn sync_answer_text(alloc: Global, answer: &SyncAnswer) -> Result<String, NoMem>
    ensures { IfOk result (λ text. string_bytes text ≡ sync_answer_text answer.now) }
{
    Ok(match answer {
        SyncAnswer::Synced { view } => {
            let view = view.0;
            format!(in alloc; "synced {view}\n")?
        }
        SyncAnswer::Stopped { stripe, cause } => {
            let stripe = stripe.0;
            let cause = cause.text(alloc)?;
            format!(in alloc; "stopped {stripe} {cause}")?
        }
        SyncAnswer::Spent { stripe } => {
            let stripe = stripe.0;
            format!(in alloc; "spent {stripe}\n")?
        }
    })
}

/// How a scrub ended.
fn scrub_answer_text(alloc: Global, answer: &ScrubAnswer) -> Result<String, NoMem>
    ensures { IfOk result (λ text. string_bytes text ≡ scrub_answer_text answer.now) }
{
    Ok(match answer {
        ScrubAnswer::Clean => format!(in alloc; "clean\n")?,
        ScrubAnswer::Repaired { stamp, lagging } => {
            let lagging = members_text(alloc, lagging.as_slice())?;
            format!(in alloc; "repaired {stamp}{lagging}")?
        }
        ScrubAnswer::Aborted { cause } => {
            let cause = cause.text(alloc)?;
            format!(in alloc; "aborted {cause}")?
        }
    })
}

/// What a brick reported, on a line of its own.
fn report_text(alloc: Global, report: &Report) -> Result<String, NoMem>
    ensures { IfOk result (λ text. string_bytes text ≡ report_text report.now) }
{
    Ok(match report {
        Report::View {
            group,
            call: _,
            answer,
        } => {
            let group = group.0;
            let answer = view_answer_text(alloc, answer)?;
            format!(in alloc; "view {group} {answer}")?
        }
        Report::Sync { group, answer } => {
            let group = group.0;
            let answer = sync_answer_text(alloc, answer)?;
            format!(in alloc; "sync {group} {answer}")?
        }
        Report::Scrub {
            call,
            members: _,
            answer,
        } => {
            let (group, stripe) = (call.group.0, call.stripe.0);
            let answer = scrub_answer_text(alloc, answer)?;
            format!(in alloc; "scrub {group} {stripe} {answer}")?
        }
    })
}

/// What bricks reported, in order.
pub fn reports_text(alloc: Global, reports: &[(BrickId, Report)]) -> Result<String, NoMem>
    ensures { IfOk result (λ text. string_bytes text ≡ reports_text reports.now) }
{
    let mut text = String::new(alloc);
    for told in reports {
        let line = report_text(alloc, &told.1)?;
        text.push_str(line.as_str())?;
    }
    Ok(text)
}

/// A line that found nothing to do.
pub fn idle_text(alloc: Global) -> Result<String, NoMem>
    ensures { IfOk result (λ text. string_bytes text ≡ idle_text) }
{
    Ok(String::from_str(alloc, "idle\n")?)
}
