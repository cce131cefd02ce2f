//! What a brick's steps send, tell, answer and report.

ghost use Rattle.std.specs.Prelude.{◌≡◌, ◌≤◌, Some, None, [], ◌∷◌, length, option_to_list};
ghost use Rattle.protocol.specs.declared.tellings.Told.TheVariants.{Began};
ghost use Rattle.node.specs.Outcomes.{told_list};

use fab_base::Answer;
use messages::{Call, Messages};
use protocol::{Answered, Report, Told};
use std::alloc::Global;
use std::marker::Model;

/// What a step tells of the brick's operations, in this order.
#[derive(Clone, Copy)]
pub struct Tellings {
    /// The version that an operation makes, or that it read and is answered at once, if it does either.
    pub version: Option<Told>,
    /// The read of the brick's synchronisation, or its scrub, that has ended, if one has.
    pub ended: Option<Told>,
    /// The next read of the synchronisation, or the scrub, if one begins.
    pub begun: Option<Told>,
}

/// What a step sends, in order, what it tells of operations, the operation that it answers, and what it reports of the brick's proposal, synchronisation or scrub. A
/// clause sees each as a list, as the machine has it. No step answers or reports more than one, so one of each is held.
#[derive(Drop)]
pub struct Outs {
    /// The messages, each with its receiver, in the order of sending.
    pub messages: Messages,
    /// What is told.
    pub told: Tellings,
    /// The answer that is given, if one is.
    pub answer: Option<Answered>,
    /// What is reported of the brick's proposal, synchronisation or scrub, if one ended.
    pub report: Option<Report>,
}

impl Model for Outs {
    ghost use Rattle.std.specs.Prelude.{option_to_list};
    ghost use Rattle.node.specs.Outcomes.{Outcome, told_list};

    ghost Value = { Outcome };

    ghost view = { λ outs. record {
      messages = outs.messages.items;
      told = told_list outs.told;
      answers = option_to_list outs.answer;
      reports = option_to_list outs.report;
    } };
}

/// A new operation: the number of its call, and the messages that it sends, in order.
#[derive(Drop)]
pub struct Begun {
    /// The number of the call since the brick's store was opened.
    pub seq: u64,
    /// The messages, each with its receiver, in the order of sending.
    pub messages: Messages,
}

impl Tellings {
    /// Nothing is told.
    pub(crate) fn nothing() -> Tellings
        ensures { result ≡ record { version = None; ended = None; begun = None } }
    {
        Tellings::of_version(None)
    }

    /// This is told of an operation's version, if anything.
    pub(crate) fn of_version(version: Option<Told>) -> Tellings
        ensures value { result ≡ record { version = version; ended = None; begun = None } }
        ensures told { told_list result ≡ option_to_list version }
    {
        Tellings {
            version,
            ended: None,
            begun: None,
        }
    }

    /// This read of the brick's own begins.
    pub(crate) fn of_begun(call: Call) -> Tellings
        ensures { result ≡ record { version = None; ended = None; begun = Some (Began call) } }
    {
        Tellings {
            begun: Some(Told::Began { call }),
            ..Tellings::nothing()
        }
    }

    /// What is told, where it is at most one thing.
    pub(crate) fn only(self) -> Option<Told>
        ensures { length (told_list self) ≤ 1 → option_to_list result ≡ told_list self }
    {
        if self.version.is_some() {
            return self.version;
        }
        if self.ended.is_some() {
            return self.ended;
        }
        self.begun
    }
}

impl Outs {
    /// Nothing is sent, told, answered or reported.
    pub(crate) fn nothing(alloc: Global) -> Outs
        ensures { result ≡ record { messages = []; told = []; answers = []; reports = [] } }
    {
        Outs::sending(Vec::new(alloc))
    }

    /// These messages are sent, and nothing is told, answered or reported.
    pub(crate) fn sending(messages: Messages) -> Outs
        ensures { result ≡ record { messages = messages.items; told = []; answers = []; reports = [] } }
    {
        Outs {
            messages,
            told: Tellings::nothing(),
            answer: None,
            report: None,
        }
    }

    /// The operation of the call of this number is answered, and nothing is sent, told or reported.
    pub(crate) fn answering(alloc: Global, seq: u64, answer: Answer) -> Outs
        ensures { result ≡ record { messages = []; told = []; answers = record { seq = seq; answer = answer } ∷ []; reports = [] } }
    {
        Outs {
            messages: Vec::new(alloc),
            told: Tellings::nothing(),
            answer: Some(Answered { seq, answer }),
            report: None,
        }
    }

    /// The end of the brick's proposal is reported, and these messages are sent.
    pub(crate) fn reporting(messages: Messages, report: Report) -> Outs
        ensures { result ≡ record { messages = messages.items; told = []; answers = []; reports = report ∷ [] } }
    {
        Outs {
            messages,
            told: Tellings::nothing(),
            answer: None,
            report: Some(report),
        }
    }

    /// The messages, what is told, the answer, and the report.
    pub fn into_parts(self) -> (Messages, Tellings, Option<Answered>, Option<Report>)
        ensures messages { result.0.items ≡ self.messages }
        ensures told { told_list result.1 ≡ self.told }
        ensures answers { option_to_list result.2 ≡ self.answers }
        ensures reports { option_to_list result.3 ≡ self.reports }
    {
        let Outs {
            messages,
            told,
            answer,
            report,
        } = self;
        (messages, told, answer, report)
    }
}
