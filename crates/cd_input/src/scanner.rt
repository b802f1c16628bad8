ghost use Rattle.std.specs.Prelude.{◌≡◌, IfOk, OnErr};
ghost use Rattle.cd_input.specs.Input.{begin, scan_after, is_rest, is_full, end_events, limit_events};
ghost use Rattle.cd_input.specs.Scanner.{events_of, IsBetween, IsWithin};

use crate::input::{Spot, stays_between};
use cd_types::{LONGEST_COMMAND, NoMemory};
use std::alloc::Global;
use std::marker::Model;
use std::mem;

/// What came to its end in the input.
#[derive(Debug, Drop)]
pub enum Found {
    /// A command, with its `;`.
    Command(Vec<u8>),
    /// The room for a command, before its `;` came.
    TooLong,
    /// The input, within a command or a comment.
    Unfinished,
}

/// What the scanner is in the midst of.
#[derive(Clone, Copy, Debug, PartialEq, Eq)]
enum Phase {
    Between,
    Within,
    Over,
}

/// Reads the input byte by byte, and tells each command where it ends. Contracts see what the input has come to.
#[derive(Debug, Drop)]
pub struct Scanner {
    alloc: Global,
    phase: Phase,
    spot: Spot,
    text: Vec<u8>,
}

impl Model for Scanner {
    ghost use Rattle.cd_input.specs.Input.{Scan};

    ghost Value = { Scan };

    ghost use Rattle.cd_input.specs.Scanner.{scan_of};

    ghost view = { λ scanner. scan_of scanner.phase scanner.spot scanner.text.items };
}

impl Scanner {
    /// At the input's begin.
    pub fn new(alloc: Global) -> Self
        ensures { result ≡ begin }
    {
        Scanner {
            alloc,
            phase: Phase::Between,
            spot: Spot::LineStart,
            text: Vec::new(alloc),
        }
    }

    /// Takes one byte more, and tells what came to its end with it.
    pub fn take(&mut self, byte: u8) -> Result<Option<Found>, NoMemory>
        ensures ok { IfOk result (λ found. scan_after self.old byte ≡ (self.new, events_of found)) }
        ensures err { OnErr result (self.new ≡ self.old) }
    {
        match self.phase {
            Phase::Between => self.take_between(byte),
            Phase::Within => self.take_within(byte),
            Phase::Over => Ok(None),
        }
    }

    /// A command has begun, or a comment isn't closed.
    fn is_rest(&self) -> bool
        ensures { result ≡ is_rest self.now }
    {
        match self.phase {
            Phase::Between => !matches!(self.spot, Spot::LineStart | Spot::Inside | Spot::Line),
            Phase::Within => true,
            Phase::Over => false,
        }
    }

    /// There is no room for one byte more of the command.
    fn is_full(&self) -> bool
        ensures { result ≡ is_full self.now }
    {
        match self.phase {
            Phase::Within => self.text.len() >= LONGEST_COMMAND,
            Phase::Between | Phase::Over => false,
        }
    }

    /// What comes to its end with the input: a rest.
    pub fn end(&self) -> Option<Found>
        ensures { events_of result ≡ end_events self.now }
    {
        if self.is_rest() {
            Some(Found::Unfinished)
        } else {
            None
        }
    }

    /// What comes to its end where the input goes on and nothing more of it is read: a command that has all its room.
    pub fn over(&self) -> Option<Found>
        ensures { events_of result ≡ limit_events self.now }
    {
        if self.is_full() {
            Some(Found::TooLong)
        } else {
            None
        }
    }

    fn take_between(&mut self, byte: u8) -> Result<Option<Found>, NoMemory>
        requires { IsBetween self.old }
        ensures ok { IfOk result (λ found. scan_after self.old byte ≡ (self.new, events_of found)) }
        ensures err { OnErr result (self.new ≡ self.old) }
    {
        if stays_between(self.spot, byte) {
            self.spot = self.spot.after(byte);
            return Ok(None);
        }
        let mut text = Vec::with_capacity(self.alloc, 2)?;
        let mut spot = Spot::LineStart;
        if self.spot == Spot::Slash {
            text.push(b'/')?;
            spot = Spot::Slash;
        }
        text.push(byte)?;
        if byte == b';' {
            self.spot = Spot::Inside;
            return Ok(Some(Found::Command(text)));
        }
        self.spot = spot.after(byte);
        self.phase = Phase::Within;
        self.text = text;
        Ok(None)
    }

    fn take_within(&mut self, byte: u8) -> Result<Option<Found>, NoMemory>
        requires { IsWithin self.old }
        ensures ok { IfOk result (λ found. scan_after self.old byte ≡ (self.new, events_of found)) }
        ensures err { OnErr result (self.new ≡ self.old) }
    {
        if self.text.len() >= LONGEST_COMMAND {
            self.phase = Phase::Over;
            return Ok(Some(Found::TooLong));
        }
        self.text.push(byte)?;
        if byte == b';' && self.spot.is_open() {
            self.phase = Phase::Between;
            self.spot = Spot::Inside;
            let text = mem::replace(&mut self.text, Vec::new(self.alloc));
            return Ok(Some(Found::Command(text)));
        }
        self.spot = self.spot.after(byte);
        Ok(None)
    }
}
