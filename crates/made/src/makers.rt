//! What draws the lines of a schedule.

ghost use Rattle.std.specs.Prelude.{◌≡◌, ◌<◌, ◌≤◌, ◌^◌, Some, IfOk};
ghost use Rattle.lines.specs.Grammar.{line_of};
ghost use Rattle.made.specs.Draws.{seeded, number_below, four_bytes, eight_bytes};
ghost use Rattle.made.specs.Lines as drawn;
ghost use Rattle.made.specs.Spellings.{spelt};

use fab_base::{Bytes, NoMem};
use lines::{Access, BrickList, Fault, Line};
use rand_core::SeedableRng;
use rand_core::utils::NextWord;
use rand_pcg::Pcg32;
use std::alloc::Global;
use std::marker::Model;

/// What draws the lines of a schedule: the generator that its seed begins.
#[derive(Drop)]
pub struct Maker {
    source: Pcg32,
}

impl Model for Maker {
    ghost use Rattle.rand_pcg.specs.Lcg.{Lcg};

    ghost Value = { Lcg };

    ghost view = { λ maker. maker.source };
}

impl Maker {
    /// One that has drawn nothing.
    pub fn new(seed: u64) -> Maker
        ensures { result ≡ seeded seed }
    {
        Maker {
            source: Pcg32::seed_from_u64(seed),
        }
    }

    /// Draws the next line, where so many messages were sent before it. It is a line of a schedule as it is spelt.
    ///
    /// # Errors
    ///
    /// `NoMemory` where no memory was left. Some of the line was drawn then.
    pub fn draw_line(&mut self, alloc: Global, sent: u64) -> Result<Line, NoMem>
        ensures drawn { IfOk result (λ line. (line, self.new) ≡ drawn.next_line sent self.old) }
        ensures spelt { IfOk result (λ line. line_of (spelt line) ≡ Some line) }
    {
        let line = self.draw_next(alloc, sent)?;
        Ok(line)
    }

    /// Draws the next line, where so many messages were sent before it.
    #[tactic(auto, unfolding(crate::specs::Lines::next_line, crate::specs::Lines::tick_line))]
    fn draw_next(&mut self, alloc: Global, sent: u64) -> Result<Line, NoMem>
        ensures { IfOk result (λ line. (line, self.new) ≡ drawn.next_line sent self.old) }
    {
        match self.draw_below(16) {
            0 => self.draw_write(alloc),
            1 => Ok(self.draw_read()),
            2 => self.draw_write_all(alloc),
            3 => Ok(self.draw_read_all()),
            4 => Ok(Line::Tick {
                brick: self.draw_below(6),
            }),
            5 => Ok(self.draw_clock()),
            6 => Ok(self.draw_power()),
            7 => self.draw_change(alloc),
            15 => Ok(self.draw_fault(sent)),
            _ => Ok(self.draw_delivery(sent)),
        }
    }

    /// A number below this one, by the next word.
    fn draw_below(&mut self, end: u32) -> u64
        requires { 0 < end }
        ensures drawn { (result, self.new) ≡ number_below end self.old }
        ensures below { result < end }
    {
        u64::from(self.source.next_word() % end)
    }

    /// The bytes that the next word spells, as eight digits.
    fn draw_four(&mut self) -> [u8; 4]
        ensures { (result, self.new) ≡ four_bytes self.old }
    {
        self.source.next_word().to_be_bytes()
    }

    /// The bytes that the next two words spell, one behind the other.
    fn draw_eight(&mut self, alloc: Global) -> Result<Bytes, NoMem>
        ensures { IfOk result (λ bytes. (bytes, self.new) ≡ eight_bytes self.old) }
    {
        let first = self.draw_four();
        let second = self.draw_four();
        let mut bytes = Vec::from_slice(alloc, first.as_slice())?;
        bytes.extend_from_slice(second.as_slice())?;
        Ok(Bytes::from_vec(bytes))
    }

    /// `write B 0 S J HEX`.
    #[tactic(auto, unfolding(crate::specs::Lines::write_line))]
    fn draw_write(&mut self, alloc: Global) -> Result<Line, NoMem>
        ensures { IfOk result (λ line. (line, self.new) ≡ drawn.write_line self.old) }
    {
        let brick = self.draw_below(6);
        let stripe = self.draw_below(8);
        let block = self.draw_below(2);
        let bytes = self.draw_four();
        let access = Access::WriteBlock(block, Bytes::from_slice(alloc, bytes.as_slice())?);
        Ok(Line::Invoke {
            brick,
            group: 0,
            stripe,
            access,
        })
    }

    /// `read B 0 S J`.
    #[tactic(auto, unfolding(crate::specs::Lines::read_line))]
    fn draw_read(&mut self) -> Line
        ensures { (result, self.new) ≡ drawn.read_line self.old }
    {
        let brick = self.draw_below(6);
        let stripe = self.draw_below(8);
        let block = self.draw_below(2);
        Line::Invoke {
            brick,
            group: 0,
            stripe,
            access: Access::ReadBlock(block),
        }
    }

    /// `writeall B 0 S HEX`.
    #[tactic(auto, unfolding(crate::specs::Lines::write_all_line))]
    fn draw_write_all(&mut self, alloc: Global) -> Result<Line, NoMem>
        ensures { IfOk result (λ line. (line, self.new) ≡ drawn.write_all_line self.old) }
    {
        let brick = self.draw_below(6);
        let stripe = self.draw_below(8);
        let bytes = self.draw_eight(alloc)?;
        Ok(Line::Invoke {
            brick,
            group: 0,
            stripe,
            access: Access::WriteStripe(bytes),
        })
    }

    /// `readall B 0 S`.
    #[tactic(auto, unfolding(crate::specs::Lines::read_all_line))]
    fn draw_read_all(&mut self) -> Line
        ensures { (result, self.new) ≡ drawn.read_all_line self.old }
    {
        let brick = self.draw_below(6);
        let stripe = self.draw_below(8);
        Line::Invoke {
            brick,
            group: 0,
            stripe,
            access: Access::ReadStripe,
        }
    }

    /// `clock B V`.
    #[tactic(auto, unfolding(crate::specs::Lines::clock_line))]
    fn draw_clock(&mut self) -> Line
        ensures { (result, self.new) ≡ drawn.clock_line self.old }
    {
        let brick = self.draw_below(6);
        let time = self.draw_below(1000);
        Line::SetClock { brick, time }
    }

    /// One time in eight `crash B`, else `start B`.
    #[tactic(auto, unfolding(crate::specs::Lines::power_line, crate::specs::Lines::crash_line))]
    fn draw_power(&mut self) -> Line
        ensures { (result, self.new) ≡ drawn.power_line self.old }
    {
        if self.draw_below(8) == 0 {
            return Line::Crash {
                brick: self.draw_below(6),
            };
        }
        self.draw_start()
    }

    /// `start B`.
    #[tactic(auto, unfolding(crate::specs::Lines::start_line))]
    fn draw_start(&mut self) -> Line
        ensures { (result, self.new) ≡ drawn.start_line self.old }
    {
        Line::Start {
            brick: self.draw_below(6),
            fault: None,
        }
    }

    /// One time in sixty-four `view B 0 M ..`, one time `sync B 0`, else `start B`.
    #[tactic(auto, unfolding(crate::specs::Lines::change_line, crate::specs::Lines::sync_line))]
    fn draw_change(&mut self, alloc: Global) -> Result<Line, NoMem>
        ensures { IfOk result (λ line. (line, self.new) ≡ drawn.change_line self.old) }
    {
        match self.draw_below(64) {
            0 => self.draw_proposal(alloc),
            1 => Ok(Line::Sync {
                brick: self.draw_below(6),
                group: 0,
            }),
            _ => Ok(self.draw_start()),
        }
    }

    /// `view B 0 R R+1 R+2 R+3`, the bricks counted round.
    #[tactic(auto, unfolding(crate::specs::Lines::proposal_line))]
    fn draw_proposal(&mut self, alloc: Global) -> Result<Line, NoMem>
        ensures { IfOk result (λ line. (line, self.new) ≡ drawn.proposal_line self.old) }
    {
        let brick = self.draw_below(6);
        let first = self.draw_below(6);
        let members = [first, (first + 1) % 6, (first + 2) % 6, (first + 3) % 6];
        let members = Vec::from_slice(alloc, members.as_slice())?;
        Ok(Line::Propose {
            brick,
            group: 0,
            members: BrickList::from_vec(members),
        })
    }

    /// The number of a message: one of the last 32 that were sent. Where none was, 1, and no word is drawn.
    #[tactic(auto, unfolding(crate::specs::Lines::message))]
    fn draw_message(&mut self, sent: u64) -> u64
        ensures { (result, self.new) ≡ drawn.message sent self.old }
    {
        if sent == 0 {
            return 1;
        }
        sent - self.draw_below(sent.min(32) as u32)
    }

    /// `deliver K`.
    #[tactic(auto, unfolding(crate::specs::Lines::delivery_line))]
    fn draw_delivery(&mut self, sent: u64) -> Line
        ensures { (result, self.new) ≡ drawn.delivery_line sent self.old }
    {
        Line::Deliver {
            message: self.draw_message(sent),
            fault: None,
        }
    }

    /// One time in sixteen `deliver K cut C pick P`, else `deliver K`.
    #[tactic(auto, unfolding(crate::specs::Lines::fault_line, crate::specs::Lines::cut_line))]
    fn draw_fault(&mut self, sent: u64) -> Line
        ensures { (result, self.new) ≡ drawn.fault_line sent self.old }
    {
        if self.draw_below(16) != 0 {
            return self.draw_delivery(sent);
        }
        let message = self.draw_message(sent);
        let call = 1 + self.draw_below(8);
        let pick = self.draw_below(4);
        Line::Deliver {
            message,
            fault: Some(Fault::Cut { call, pick }),
        }
    }
}
