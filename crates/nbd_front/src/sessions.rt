//! Sessions.

ghost use Rattle.std.specs.Prelude.{◌≡◌, ◌≤◌, ◌+◌, length, drop, IfOk, OnOk, OnErr, false, [], ◌∷◌, option_copied, string_bytes};
ghost use Rattle.layout.specs.Places.{volume_of};
ghost use Rattle.nbd_front.specs.Wire.{request_of, request_size};
ghost use Rattle.nbd_front.specs.declared.steps.End.TheVariants.{Disc, Abort, Eof, Dropped, NoExport};
ghost use Rattle.nbd_front.specs.declared.steps.SessionStage.TheVariants.{Replying};
ghost use Rattle.nbd_front.specs.Sessions.{Session, begun, Move, Waits, Says, Asks, Ends, waiting, export_of, chosen, reply_to, option_move, flags_move, past_request, replied, served, request_move, behind_reply, move_of, step_of, after, MakesMove, fed, finished, stopped, answered, shown, asked_of, wanted_of, wants_turn, part_size, ReadsNoFurther};
ghost use Rattle.nbd_front.specs.Talks.{Answered, OutOfTurns, HasSaid, said_by, TalkGoesOn, TakesBytes, TakesEnd};

use crate::fields::u32_at;
use crate::parts::{
    MOST_BYTES, NbdKind, NbdOption, NbdRequest, REQUEST_HEAD, is_option, is_request, option_data,
    option_size, request_size,
};
use crate::replies::{
    ACKNOWLEDGED, UNSUPPORTED, export_reply, greeting, option_reply, request_reply,
};
use crate::steps::{Command, End, ReplyError, SessionStage, Step};
use fab_base::{Bytes, NoMem};
use front::RangeAnswer;
use layout::{Layout, Volume};
use std::alloc::Global;
use std::marker::Model;
use std::mem;

/// The session of one client.
///
/// A clause sees what the session reads or sends next, the volume that the client chose, the client's bytes that are not read yet,
/// whether these are its last, and the bytes of a READ that are still to be sent.
#[derive(Drop)]
pub struct Session<'l> {
    alloc: Global,
    layout: &'l Layout,
    volume: &'l str,
    stage: SessionStage,
    // The client's bytes, from those on that were not read when room was made last, and how many of them are read.
    held: Vec<u8>,
    read: usize,
    ended: bool,
    found: Bytes,
}

impl<'l> Model for Session<'l> {
    ghost use Rattle.std.specs.Prelude.{◌≤◌, drop, vec_len};
    ghost use Rattle.nbd_front.specs.Sessions.{Session};

    ghost Value = { Session };

    ghost view = { λ session. record {
      layout = session.layout.now;
      stage = session.stage;
      volume = session.volume.now;
      unread = drop session.read session.held.items;
      ended = session.ended;
      found = session.found;
    } };

    ghost invariant = { λ session. session.read ≤ vec_len session.held };
}

// The volume of this name, the empty name being that of the first.
fn export_of<'l>(layout: &'l Layout, name: &[u8]) -> Option<&'l Volume>
    ensures { option_copied result ≡ export_of layout.now name.now }
{
    if name.is_empty() {
        layout.volumes().first()
    } else {
        volume_of(layout, name)
    }
}

// The volume of this name.
fn volume_of<'l>(layout: &'l Layout, name: &[u8]) -> Option<&'l Volume>
    ensures { option_copied result ≡ volume_of layout.now name.now }
{
    for volume in layout.volumes() {
        if volume.name().as_bytes() == name {
            return Some(volume);
        }
    }
    None
}

impl<'l> Session<'l> {
    /// A session of which no byte has come.
    #[tactic(auto, using(crate::proofs::Telling::begins))]
    pub fn new(alloc: Global, layout: &'l Layout) -> Session<'l>
        ensures begun { result ≡ begun layout.now }
        ensures told { HasSaid layout.now [] false [] result }
        ensures within { ReadsNoFurther result }
    {
        Session {
            alloc,
            layout,
            volume: "",
            stage: SessionStage::Greeting,
            held: Vec::new(alloc),
            read: 0,
            ended: false,
            found: Bytes::empty(alloc),
        }
    }

    // The client's bytes that are not read yet.
    fn unread(&self) -> &[u8]
        ensures { result.now ≡ self.now.unread }
    {
        let (_, unread) = self.held.split_at(self.read);
        unread
    }

    /// What the session wants next: the same command until its answer is told, and at last how it ended.
    ///
    /// # Errors
    ///
    /// `NoMemory` where no memory was left. Nothing has changed then.
    #[tactic(auto, using(crate::proofs::Telling::moves_on, crate::proofs::Within::moves_within))]
    pub fn next(&mut self) -> Result<Step, NoMem>
        ensures step { IfOk result (λ step. step ≡ step_of (move_of self.old)) }
        ensures after { OnOk result (self.new ≡ after self.old (move_of self.old)) }
        ensures told { IfOk result (λ step. TalkGoesOn self.old (said_by step) self.new) }
        ensures within { OnOk result (ReadsNoFurther self.old → ReadsNoFurther self.new) }
        ensures same { OnErr result (self.new ≡ self.old) }
    {
        self.make_move()
    }

    // Makes the next move.
    fn make_move(&mut self) -> Result<Step, NoMem>
        ensures { MakesMove result self.old self.new (move_of self.old) }
    {
        match self.stage {
            SessionStage::Greeting => {
                let sent = greeting(self.alloc)?;
                Ok(self.say(sent, SessionStage::Flags, 0))
            }
            SessionStage::Flags => self.read_flags(),
            SessionStage::Options { brief } => self.read_option(brief, 0),
            SessionStage::Requests => self.read_request(),
            SessionStage::Replying { cookie, error } => self.reply(cookie, error),
            SessionStage::Sending => {
                let found = mem::replace(&mut self.found, Bytes::empty(self.alloc));
                Ok(self.say(found, SessionStage::Requests, 0))
            }
            SessionStage::Over(end) => Ok(Step::Ended(end)),
        }
    }

    /// The command that the session asks.
    #[tactic(auto, using(crate::proofs::Asking::asks_whole))]
    pub fn command(&self) -> Command<'_>
        requires { move_of self.now ≡ Asks }
        ensures { shown result ≡ asked_of self.now }
    {
        let unread = self.unread();
        let request = NbdRequest::of(unread);
        match request.kind {
            NbdKind::Write => {
                let (_, bytes) = unread.split_at(REQUEST_HEAD);
                let (bytes, _) = bytes.split_at(request.length as usize);
                Command::Write {
                    volume: self.volume,
                    byte: request.offset,
                    bytes,
                }
            }
            _ => Command::Read {
                volume: self.volume,
                byte: request.offset,
                length: u64::from(request.length),
            },
        }
    }

    /// Takes the answer of the command that the session asks.
    #[tactic(auto, using(crate::proofs::Telling::answers_on))]
    pub fn answer(&mut self, answer: RangeAnswer)
        requires { move_of self.old ≡ Asks }
        ensures after { self.new ≡ answered self.old answer }
        ensures told { TalkGoesOn self.old (Answered (asked_of self.old) answer ∷ []) self.new }
        ensures within { ReadsNoFurther self.old → ReadsNoFurther self.new }
    {
        self.take_answer(answer);
    }

    // Takes the answer of the command.
    #[tactic(auto, using(crate::proofs::Asking::asks_whole))]
    fn take_answer(&mut self, answer: RangeAnswer)
        requires { move_of self.old ≡ Asks }
        ensures { self.new ≡ answered self.old answer }
    {
        let unread = self.unread();
        let size = request_size(unread);
        let request = NbdRequest::of(unread);
        self.skip(size);
        self.stage = SessionStage::Replying {
            cookie: request.cookie,
            error: request.kind.error_of(&answer),
        };
        self.found = request.kind.found_by(self.alloc, answer);
    }

    /// Takes bytes of the client.
    ///
    /// # Errors
    ///
    /// `NoMemory` where no memory was left. Nothing has changed then.
    #[tactic(auto, using(crate::proofs::Telling::takes_bytes, crate::proofs::Within::feeds_within))]
    pub fn feed(&mut self, piece: &[u8]) -> Result<(), NoMem>
        ensures after { OnOk result (self.new ≡ fed self.old piece.now) }
        ensures told { OnOk result (TakesBytes self.old piece.now self.new) }
        ensures within { OnOk result (length piece.now ≤ wanted_of self.old → ReadsNoFurther self.old → ReadsNoFurther self.new) }
        ensures same { OnErr result (self.new ≡ self.old) }
    {
        self.hold(piece)
    }

    // Holds bytes behind those that it holds.
    fn hold(&mut self, piece: &[u8]) -> Result<(), NoMem>
        ensures after { OnOk result (self.new ≡ fed self.old piece.now) }
        ensures same { OnErr result (self.new ≡ self.old) }
    {
        self.let_go()?;
        self.make_room(piece.len())?;
        Ok(self.held.extend_from_slice(piece)?)
    }

    // Lets go of the bytes that are read, if they are at least half of what is held.
    fn let_go(&mut self) -> Result<(), NoMem>
        ensures { self.new ≡ self.old }
    {
        let unread = self.held.len() - self.read;
        if unread == 0 {
            self.held.clear();
            self.read = 0;
        } else if unread <= self.read {
            self.held = Vec::from_slice(self.alloc, self.unread())?;
            self.read = 0;
        }
        Ok(())
    }

    // Makes room for so many bytes: at least as much more as there is, but no more than the part that is read next has.
    fn make_room(&mut self, more: usize) -> Result<(), NoMem>
        ensures { self.new ≡ self.old }
    {
        let held = self.held.len();
        if self.held.capacity() - held < more {
            let wanted = self.wanted();
            let ahead = if wanted == 0 { held } else { held.min(wanted) };
            self.held.reserve_exact(more.max(ahead))?;
        }
        Ok(())
    }

    /// How many bytes the part that is read next still lacks, as far as those of it that came tell: after a Need, at least one. If no
    /// more bytes come at a time, none comes behind that part.
    pub fn wanted(&self) -> usize
        ensures value { result ≡ wanted_of self.now }
        ensures some { move_of self.now ≡ Waits → 1 ≤ result }
    {
        self.part_size().saturating_sub(self.unread().len())
    }

    // How many bytes the part has that is read next, as far as those of it that came tell.
    fn part_size(&self) -> usize
        ensures { result ≡ part_size self.now.unread self.now.stage }
    {
        let unread = self.unread();
        match self.stage {
            SessionStage::Flags if unread.len() < 4 => 4,
            SessionStage::Flags => {
                let (_, bytes) = unread.split_at(4);
                4 + option_size(bytes)
            }
            SessionStage::Options { .. } => option_size(unread),
            SessionStage::Requests => request_size(unread),
            SessionStage::Greeting
            | SessionStage::Replying { .. }
            | SessionStage::Sending
            | SessionStage::Over(_) => 0,
        }
    }

    /// Whether the next byte that is read is the first of an option or of a request.
    pub fn wants_turn(&self) -> bool
        ensures { result ≡ wants_turn self.now }
    {
        let unread = self.unread();
        match self.stage {
            SessionStage::Flags => unread.len() == 4 && u32_at(unread, 0) <= 3,
            SessionStage::Options { .. } | SessionStage::Requests => unread.is_empty(),
            SessionStage::Greeting
            | SessionStage::Replying { .. }
            | SessionStage::Sending
            | SessionStage::Over(_) => false,
        }
    }

    /// Takes it that no turn is left: a session that has not ended ends here.
    #[tactic(auto, using(crate::proofs::Telling::stops))]
    pub fn turns_over(&mut self)
        ensures after { self.new ≡ stopped self.old }
        ensures told { TalkGoesOn self.old (OutOfTurns ∷ []) self.new }
    {
        match self.stage {
            SessionStage::Over(_) => (),
            _ => self.stage = SessionStage::Over(End::Turns),
        }
    }

    /// Takes it that the client's bytes have ended.
    #[tactic(auto, using(crate::proofs::Telling::takes_end))]
    pub fn finish(&mut self)
        ensures after { self.new ≡ finished self.old }
        ensures told { TakesEnd self.old self.new }
    {
        self.ended = true;
    }

    // Sends bytes, so many of the client's being read, and goes on with this.
    fn say(&mut self, sent: Bytes, next: SessionStage, taken: usize) -> Step
        requires { taken ≤ length self.old.unread }
        ensures step { result ≡ step_of (Says sent self.new) }
        ensures after { self.new ≡ record self.old { stage = next; unread = drop taken self.old.unread } }
    {
        self.skip(taken);
        self.stage = next;
        Step::Send(sent)
    }

    // Takes it that so many of the client's bytes are read.
    fn skip(&mut self, taken: usize)
        requires { taken ≤ length self.old.unread }
        ensures { self.new ≡ record self.old { unread = drop taken self.old.unread } }
    {
        self.read += taken;
    }

    // Ends the session.
    fn end(&mut self, end: End) -> Step
        ensures step { result ≡ step_of (Ends end) }
        ensures after { self.new ≡ after self.old (Ends end) }
    {
        self.stage = SessionStage::Over(end);
        Step::Ended(end)
    }

    // Waits for more bytes, or ends if there are no more.
    fn wait(&mut self) -> Step
        ensures step { result ≡ step_of (waiting self.old) }
        ensures after { self.new ≡ after self.old (waiting self.old) }
    {
        if self.ended {
            self.end(End::Eof)
        } else {
            Step::Need
        }
    }

    // Reads the client's flags, and the option behind them.
    fn read_flags(&mut self) -> Result<Step, NoMem>
        ensures { MakesMove result self.old self.new (flags_move self.old) }
    {
        let unread = self.unread();
        if unread.len() < 4 {
            return Ok(self.wait());
        }
        let flags = u32_at(unread, 0);
        if 3 < flags {
            return Ok(self.end(End::Dropped));
        }
        self.read_option(2 <= flags, 4)
    }

    // Reads the option that stands behind so many of the bytes.
    fn read_option(&mut self, brief: bool, at: usize) -> Result<Step, NoMem>
        requires { at ≤ length self.old.unread }
        ensures { MakesMove result self.old self.new (option_move (record self.old { unread = drop at self.old.unread }) brief) }
    {
        let (_, bytes) = self.unread().split_at(at);
        let size = option_size(bytes);
        if bytes.len() < size {
            return Ok(self.wait());
        }
        if !is_option(bytes) {
            return Ok(self.end(End::Dropped));
        }
        let number = u32_at(bytes, 8);
        let export = export_of(self.layout, option_data(bytes));
        match NbdOption::of(number) {
            NbdOption::ExportName => self.choose(export, brief, at + size),
            NbdOption::Abort => {
                let sent = option_reply(self.alloc, number, ACKNOWLEDGED)?;
                Ok(self.say(sent, SessionStage::Over(End::Abort), at + size))
            }
            NbdOption::Other => {
                let sent = option_reply(self.alloc, number, UNSUPPORTED)?;
                Ok(self.say(sent, SessionStage::Options { brief }, at + size))
            }
        }
    }

    // Takes the volume that the client chose, if there is one.
    fn choose(
        &mut self,
        export: Option<&'l Volume>,
        brief: bool,
        taken: usize,
    ) -> Result<Step, NoMem>
        requires { taken ≤ length self.old.unread }
        ensures { MakesMove result self.old self.new (chosen (record self.old { unread = drop taken self.old.unread }) brief (option_copied export.entry)) }
    {
        let Some(volume) = export else {
            return Ok(self.end(End::NoExport));
        };
        let size = self.layout.length(volume.name()).unwrap_or(0);
        let sent = export_reply(self.alloc, size, brief)?;
        self.volume = volume.name();
        Ok(self.say(sent, SessionStage::Requests, taken))
    }

    // Reads a request.
    fn read_request(&mut self) -> Result<Step, NoMem>
        ensures { MakesMove result self.old self.new (request_move self.old) }
    {
        let unread = self.unread();
        let size = request_size(unread);
        if unread.len() < size {
            return Ok(self.wait());
        }
        if !is_request(unread) {
            return Ok(self.end(End::Dropped));
        }
        let request = NbdRequest::of(unread);
        if request.flags == 0 {
            self.serve(request, size)
        } else {
            self.reply_at_once(request, ReplyError::Invalid, size)
        }
    }

    // Serves a request of so many bytes by its kind.
    fn serve(&mut self, request: NbdRequest, size: usize) -> Result<Step, NoMem>
        requires size { size ≡ request_size self.old.unread }
        requires whole { size ≤ length self.old.unread }
        ensures { MakesMove result self.old self.new (served (past_request self.old) request request.kind) }
    {
        match request.kind {
            NbdKind::Read if request.length <= MOST_BYTES => Ok(Step::Ask),
            NbdKind::Write => Ok(Step::Ask),
            NbdKind::Disc => Ok(self.end(End::Disc)),
            NbdKind::Flush => self.reply_at_once(request, ReplyError::Success, size),
            NbdKind::Read | NbdKind::Other => self.reply_at_once(
                request,
                ReplyError::Invalid,
                size,
            ),
        }
    }

    // Replies to a request of so many bytes for which nothing is asked.
    fn reply_at_once(
        &mut self,
        request: NbdRequest,
        error: ReplyError,
        size: usize,
    ) -> Result<Step, NoMem>
        requires size { size ≡ request_size self.old.unread }
        requires whole { size ≤ length self.old.unread }
        ensures { MakesMove result self.old self.new (replied (past_request self.old) request error) }
    {
        let sent = request_reply(self.alloc, error, request.cookie)?;
        Ok(self.say(sent, SessionStage::Requests, size))
    }

    // Sends the head of a reply.
    fn reply(&mut self, cookie: u64, error: ReplyError) -> Result<Step, NoMem>
        requires { self.old.stage ≡ Replying cookie error }
        ensures { MakesMove result self.old self.new (move_of self.old) }
    {
        let sent = request_reply(self.alloc, error, cookie)?;
        let next = if self.found.is_empty() {
            SessionStage::Requests
        } else {
            SessionStage::Sending
        };
        Ok(self.say(sent, next, 0))
    }
}
