// The lines that are neither marks nor happenings nor counts.
ghost use Rattle.std.specs.Prelude.{◌≡◌};
ghost use Rattle.transcript.specs.Words.{is_ballot, stamp_of, later_of, gone_of, full_of, moved_of, cause_of, is_refusal, is_decided, is_view_end, is_stopped, is_sync_end, is_repaired, is_scrub_end, is_view, is_sync, is_scrub, is_word};

use crate::claims::{ClaimedStamp, ParsedCause};
use crate::tokens::{are_plain, behind, cut, is_plain, number_before, parse_plain};

/// Whether a text is a ballot: `ROUND.BRICK.BOOT`.
#[tactic(auto, unfolding(crate::specs::Words::is_ballot))]
fn is_ballot(text: &[u8]) -> bool
    ensures { result ≡ is_ballot text.now }
{
    let Some((_, text)) = number_before(text, b'.') else {
        return false;
    };
    let Some((_, text)) = number_before(text, b'.') else {
        return false;
    };
    is_plain(text)
}

/// The stamp `VIEW.TIME.BRICK.BOOT`.
#[tactic(auto, unfolding(crate::specs::Words::stamp_of))]
fn parse_stamp(text: &[u8]) -> Option<ClaimedStamp>
    ensures { result ≡ stamp_of text.now }
{
    let (view, text) = number_before(text, b'.')?;
    let (time, text) = number_before(text, b'.')?;
    let (brick, text) = number_before(text, b'.')?;
    let boot = parse_plain(text)?;
    Some(ClaimedStamp {
        view,
        time,
        brick,
        boot,
    })
}

/// `B STAMP`, behind `later `.
#[tactic(auto, unfolding(crate::specs::Words::later_of))]
fn parse_later(text: &[u8]) -> Option<ParsedCause>
    ensures { result ≡ later_of text.now }
{
    let (brick, text) = number_before(text, b' ')?;
    let stamp = parse_stamp(text)?;
    Some(ParsedCause::Later { brick, stamp })
}

/// `B`, behind `gone `.
#[tactic(auto, unfolding(crate::specs::Words::gone_of))]
fn parse_gone(text: &[u8]) -> Option<ParsedCause>
    ensures { result ≡ gone_of text.now }
{
    let brick = parse_plain(text)?;
    Some(ParsedCause::Gone { brick })
}

/// `B LIVE`, behind `full `.
#[tactic(auto, unfolding(crate::specs::Words::full_of))]
fn parse_full(text: &[u8]) -> Option<ParsedCause>
    ensures { result ≡ full_of text.now }
{
    let (brick, text) = number_before(text, b' ')?;
    let live = parse_plain(text)?;
    Some(ParsedCause::Full { brick, live })
}

/// `B VIEW`, behind `moved `.
#[tactic(auto, unfolding(crate::specs::Words::moved_of))]
fn parse_moved(text: &[u8]) -> Option<ParsedCause>
    ensures { result ≡ moved_of text.now }
{
    let (brick, text) = number_before(text, b' ')?;
    let view = parse_plain(text)?;
    Some(ParsedCause::Moved { brick, view })
}

/// Why an operation was aborted.
#[tactic(auto, unfolding(crate::specs::Words::cause_of))]
pub(crate) fn parse_cause(text: &[u8]) -> Option<ParsedCause>
    ensures { result ≡ cause_of text.now }
{
    if let Some(rest) = behind(text, b"later ") {
        return parse_later(rest);
    }
    if let Some(rest) = behind(text, b"gone ") {
        return parse_gone(rest);
    }
    if let Some(rest) = behind(text, b"full ") {
        return parse_full(rest);
    }
    if let Some(rest) = behind(text, b"moved ") {
        return parse_moved(rest);
    }
    None
}

/// Whether a text is why something is refused, behind `refused `.
#[tactic(auto, unfolding(crate::specs::Words::is_refusal))]
fn is_refusal(text: &[u8]) -> bool
    ensures { result ≡ is_refusal text.now }
{
    text == b"down".as_slice()
        || text == b"nostripe".as_slice()
        || text == b"noblock".as_slice()
        || text == b"length".as_slice()
        || text == b"busy".as_slice()
        || text == b"spent".as_slice()
        || text == b"noquorum".as_slice()
}

/// Whether a text is `E M ..`, behind `decided `.
#[tactic(auto, unfolding(crate::specs::Words::is_decided))]
fn is_decided(text: &[u8]) -> bool
    ensures { result ≡ is_decided text.now }
{
    match number_before(text, b' ') {
        Some((_, members)) => are_plain(members),
        None => false,
    }
}

/// Whether a text is how a proposal ended, behind `view G `.
#[tactic(auto, unfolding(crate::specs::Words::is_view_end))]
fn is_view_end(text: &[u8]) -> bool
    ensures { result ≡ is_view_end text.now }
{
    if let Some(rest) = behind(text, b"decided ") {
        return is_decided(rest);
    }
    if let Some(rest) = behind(text, b"outbid ") {
        return is_ballot(rest);
    }
    if let Some(rest) = behind(text, b"notsynced ") {
        return is_plain(rest);
    }
    if let Some(rest) = behind(text, b"moved ") {
        return is_plain(rest);
    }
    text == b"badmembers".as_slice()
}

/// Whether a text is `S CAUSE`, behind `stopped `.
#[tactic(auto, unfolding(crate::specs::Words::is_stopped))]
fn is_stopped(text: &[u8]) -> bool
    ensures { result ≡ is_stopped text.now }
{
    match number_before(text, b' ') {
        Some((_, cause)) => parse_cause(cause).is_some(),
        None => false,
    }
}

/// Whether a text is how a sync job ended, behind `sync G `.
#[tactic(auto, unfolding(crate::specs::Words::is_sync_end))]
fn is_sync_end(text: &[u8]) -> bool
    ensures { result ≡ is_sync_end text.now }
{
    if let Some(rest) = behind(text, b"synced ") {
        return is_plain(rest);
    }
    if let Some(rest) = behind(text, b"stopped ") {
        return is_stopped(rest);
    }
    if let Some(rest) = behind(text, b"spent ") {
        return is_plain(rest);
    }
    false
}

/// Whether a text is `STAMP M ..`, behind `repaired `.
#[tactic(auto, unfolding(crate::specs::Words::is_repaired))]
fn is_repaired(text: &[u8]) -> bool
    ensures { result ≡ is_repaired text.now }
{
    match cut(text, b' ') {
        Some((stamp, members)) => parse_stamp(stamp).is_some() && are_plain(members),
        None => parse_stamp(text).is_some(),
    }
}

/// Whether a text is how a scrub ended, behind `scrub G S `.
#[tactic(auto, unfolding(crate::specs::Words::is_scrub_end))]
fn is_scrub_end(text: &[u8]) -> bool
    ensures { result ≡ is_scrub_end text.now }
{
    if let Some(rest) = behind(text, b"repaired ") {
        return is_repaired(rest);
    }
    if let Some(rest) = behind(text, b"aborted ") {
        return parse_cause(rest).is_some();
    }
    text == b"clean".as_slice()
}

/// Whether a text is `G` and how a proposal ended.
#[tactic(auto, unfolding(crate::specs::Words::is_view))]
fn is_view(text: &[u8]) -> bool
    ensures { result ≡ is_view text.now }
{
    match number_before(text, b' ') {
        Some((_, rest)) => is_view_end(rest),
        None => false,
    }
}

/// Whether a text is `G` and how a sync job ended.
#[tactic(auto, unfolding(crate::specs::Words::is_sync))]
fn is_sync(text: &[u8]) -> bool
    ensures { result ≡ is_sync text.now }
{
    match number_before(text, b' ') {
        Some((_, rest)) => is_sync_end(rest),
        None => false,
    }
}

/// Whether a text is `G S` and how a scrub ended.
#[tactic(auto, unfolding(crate::specs::Words::is_scrub))]
fn is_scrub(text: &[u8]) -> bool
    ensures { result ≡ is_scrub text.now }
{
    let Some((_, text)) = number_before(text, b' ') else {
        return false;
    };
    let Some((_, text)) = number_before(text, b' ') else {
        return false;
    };
    is_scrub_end(text)
}

/// Whether a line is one of these words.
#[tactic(auto, unfolding(crate::specs::Words::is_word))]
pub(crate) fn is_word(text: &[u8]) -> bool
    ensures { result ≡ is_word text.now }
{
    if let Some(rest) = behind(text, b"refused ") {
        return is_refusal(rest);
    }
    if let Some(rest) = behind(text, b"view ") {
        return is_view(rest);
    }
    if let Some(rest) = behind(text, b"sync ") {
        return is_sync(rest);
    }
    if let Some(rest) = behind(text, b"scrub ") {
        return is_scrub(rest);
    }
    text == b"idle".as_slice()
}
