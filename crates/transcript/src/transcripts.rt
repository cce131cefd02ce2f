// What the lines of a text say together.
ghost use Rattle.std.specs.Prelude.{◌≡◌, IfOk, if◌then◌else◌, Some, None};

use crate::claims::{Counts, Entry, ParsedMark, StripeLine};
use fab_base::NoMem;
use std::alloc::Global;
use std::marker::Model;

/// What the lines of a text say together: marks, then the happenings of stripes, then the counts.
#[derive(Drop)]
pub struct Transcript {
    claims: Vec<ParsedMark>,
    stripes: Vec<StripeLine>,
    counts: Option<Counts>,
}

impl Model for Transcript {
    ghost use Rattle.transcript.specs.Said.{Transcribed};

    ghost Value = { Transcribed };

    ghost view = { λ t. record { claims = t.claims.items; stripes = t.stripes.items; counts = t.counts } };
}

impl Transcript {
    ghost use Rattle.transcript.specs.Transcripts.{nothing_said, after_entry, is_in_marks, is_next};

    /// Before the first line.
    pub fn new(alloc: Global) -> Transcript
        ensures { result ≡ nothing_said }
    {
        Transcript {
            claims: Vec::new(alloc),
            stripes: Vec::new(alloc),
            counts: None,
        }
    }

    /// The marks, in order.
    pub fn claims(&self) -> &[ParsedMark]
        ensures { result.now ≡ self.now.claims }
    {
        self.claims.as_slice()
    }

    /// The happenings of stripes, by rising group and stripe.
    pub fn stripes(&self) -> &[StripeLine]
        ensures { result.now ≡ self.now.stripes }
    {
        self.stripes.as_slice()
    }

    /// The counts, where they were said.
    pub fn counts(&self) -> Option<Counts>
        ensures { result ≡ self.now.counts }
    {
        self.counts
    }

    /// Takes what a further line says, and answers whether it stands in its place: a mark of the running position, or another word,
    /// before the happenings; the happenings of a stripe behind those of the stripes below it; the counts behind them; and nothing behind
    /// the counts. After another answer than `true`, what the transcript holds says nothing.
    #[tactic(auto, unfolding(crate::specs::Transcripts::after_entry))]
    pub fn take(&mut self, entry: Entry) -> Result<bool, NoMem>
        ensures { IfOk result (λ taken. after_entry self.old entry ≡ (if taken then Some self.new else None)) }
    {
        match entry {
            Entry::Mark(claim) => self.take_mark(claim),
            Entry::Other => Ok(self.is_in_marks()),
            Entry::Happened(line) => self.take_stripe(line),
            Entry::Counted(counts) => Ok(self.take_counts(counts)),
        }
    }

    /// Whether neither happenings nor counts were said.
    fn is_in_marks(&self) -> bool
        ensures { result ≡ is_in_marks self.now }
    {
        self.stripes.is_empty() && self.counts.is_none()
    }

    /// Whether a stripe is behind all that were said.
    fn is_next(&self, line: &StripeLine) -> bool
        ensures { result ≡ is_next self.now line.now }
    {
        self.counts.is_none()
            && match self.stripes.as_slice().last() {
                None => true,
                Some(last) => last.is_before(line),
            }
    }

    /// Takes a mark.
    #[tactic(auto, unfolding(crate::specs::Transcripts::after_entry))]
    fn take_mark(&mut self, claim: ParsedMark) -> Result<bool, NoMem>
        ensures { IfOk result (λ taken. after_entry self.old (Entry.Mark claim) ≡ (if taken then Some self.new else None)) }
    {
        let position = self.claims.len() as u64;
        if !self.is_in_marks() || claim.position() != position {
            return Ok(false);
        }
        self.claims.push(claim)?;
        Ok(true)
    }

    /// Takes the happenings of a stripe.
    #[tactic(auto, unfolding(crate::specs::Transcripts::after_entry))]
    fn take_stripe(&mut self, line: StripeLine) -> Result<bool, NoMem>
        ensures { IfOk result (λ taken. after_entry self.old (Entry.Happened line) ≡ (if taken then Some self.new else None)) }
    {
        if !self.is_next(&line) {
            return Ok(false);
        }
        self.stripes.push(line)?;
        Ok(true)
    }

    /// Takes the counts.
    #[tactic(auto, unfolding(crate::specs::Transcripts::after_entry))]
    fn take_counts(&mut self, counts: Counts) -> bool
        ensures { after_entry self.old (Entry.Counted counts) ≡ (if result then Some self.new else None) }
    {
        if self.counts.is_some() {
            return false;
        }
        self.counts = Some(counts);
        true
    }
}
