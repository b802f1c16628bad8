ghost use Rattle.std.specs.Prelude.{◌≡◌, ◌≤◌, ◌<◌, ◌+◌, length, take, drop, IfOk, IfErr, IsTrue, ◌↔◌, Err};
ghost use Rattle.cd_outside.specs.Counts.{Rose};
ghost use Rattle.cd_outside.specs.Shelf.{content_of};

use crate::cut::piece_end;
use cd_outside::{Failed, Files};
use std::marker::Model;
use thiserror::Error;

/// What is sent next.
#[derive(Clone, Copy, Debug, PartialEq, Eq)]
pub enum Piece {
    /// So many bytes from this offset on; they stand at the front of the buffer.
    Bytes(u64, u32),
    /// Nothing: all of the length went out.
    AllSent,
}

/// Why no piece was read.
#[derive(Clone, Copy, Debug, PartialEq, Eq, Error)]
pub enum SendFault {
    /// The files failed: their count of faults rose.
    #[error("the files failed")]
    Files,
    /// The source ends before the piece that begins at this offset.
    #[error("the source is short at {0}")]
    Short(u64),
}

/// How far a file is sent, and how far that was acknowledged. Offsets count bytes of the file.
#[derive(Debug, Drop)]
pub struct Sender {
    length: u64,
    block: u32,
    interval: u64,
    start: u64,
    sent: u64,
    acked: u64,
}

impl Model for Sender {
    ghost use Rattle.cd_send.specs.Sending.{Sending, IsSending};

    ghost Value = { Sending };

    ghost view = { λ s. record { length = s.length; block = s.block; interval = s.interval; start = s.start; sent = s.sent; acked = s.acked } };

    ghost invariant = { λ s. IsSending (record { length = s.length; block = s.block; interval = s.interval; start = s.start; sent = s.sent; acked = s.acked }) };
}

/// Reads from a place on; whether the whole buffer was filled.
fn fills<F: Files>(files: &mut F, name: &[u8], at: u64, into: &mut [u8]) -> Result<bool, Failed>
    requires { 0 < length into.old }
    ensures same { F.observable → F.state files.new ≡ F.state files.old }
    ensures whole { F.observable → IfOk result (λ whole. IsTrue whole ↔ (at + length into.old ≤ length (content_of ((F.state files.old).shelf.seen name.now)))) }
    ensures bytes { F.observable → IfOk result (λ whole. IsTrue whole → into.new ≡ take (length into.old) (drop at (content_of ((F.state files.old).shelf.seen name.now)))) }
    ensures later { F.faults files.old ≤ F.faults files.new }
    ensures cause { IfErr result (λ _. Rose (F.faults files.old) (F.faults files.new)) }
{
    let len = into.len();
    let n = files.read(name, at, into)?;
    Ok(n == len)
}

impl Sender {
    ghost use Rattle.cd_send.specs.Sending.{starting, next_end, is_awaited, after_ack};
    ghost use Rattle.cd_send.specs.Piece.{IsNext, EndsAtCut, IsRead, IsFault, IsShort};

    /// A sender of a file of this length, from an offset on, in pieces of at most `block` bytes; `interval` is the
    /// number of bytes between two marks, 0 for no marks.
    pub fn start(length: u64, from: u64, block: u32, interval: u64) -> Sender
        requires within { from ≤ length }
        requires some { 1 ≤ block }
        ensures { result ≡ starting length from block interval }
    {
        Sender {
            length,
            block,
            interval,
            start: from,
            sent: from,
            acked: from,
        }
    }

    /// Reads the next piece to the front of the buffer, which holds a block at least. `AllSent` exactly where all of the
    /// length went out. `Files` only where the count of the files rose; `Short` exactly where the source gave fewer bytes
    /// than the piece has. After a fault the sender is as before.
    pub fn next_piece<F: Files>(
        &mut self,
        files: &mut F,
        name: &[u8],
        into: &mut [u8],
    ) -> Result<Piece, SendFault>
        requires { (self.old).block ≤ length into.old }
        ensures next { IfOk result (λ piece. IsNext self.old self.new piece) }
        ensures cut { IfOk result (λ piece. EndsAtCut self.old piece) }
        ensures read { F.observable → IfOk result (λ piece. IsRead (content_of ((F.state files.old).shelf.seen name.now)) into.new piece) }
        ensures fault { IfErr result (λ fault. IsFault self.old self.new fault) }
        ensures short { F.observable → IfErr result (λ fault. IsShort self.old (content_of ((F.state files.old).shelf.seen name.now)) fault) }
        ensures same { F.observable → F.state files.new ≡ F.state files.old }
        ensures later { F.faults files.old ≤ F.faults files.new }
        ensures cause { result ≡ Err SendFault.Files → Rose (F.faults files.old) (F.faults files.new) }
    {
        if self.sent == self.length {
            return Ok(Piece::AllSent);
        }
        let offset = self.sent;
        let end = piece_end(self.length, self.block, self.interval, offset);
        let len = (end - offset) as u32;
        match fills(files, name, offset, &mut into[..len as usize]) {
            Ok(true) => {
                self.sent = end;
                Ok(Piece::Bytes(offset, len))
            }
            Ok(false) => Err(SendFault::Short(offset)),
            Err(Failed) => Err(SendFault::Files),
        }
    }

    /// Whether this offset is one that is awaited: the end of the first piece that isn't acknowledged. It is
    /// acknowledged then.
    pub fn acked(&mut self, offset: u64) -> bool
        ensures awaited { result ≡ is_awaited offset self.old }
        ensures after { self.new ≡ after_ack offset self.old }
    {
        if self.acked >= self.sent {
            return false;
        }
        if offset != piece_end(self.length, self.block, self.interval, self.acked) {
            return false;
        }
        self.acked = offset;
        true
    }
}
