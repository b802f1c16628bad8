//! Reads the input a piece at a time, and gives it byte by byte.
ghost use Rattle.std.specs.Prelude.{◌≡◌, ◌≢◌, ◌≤◌, ◌++◌, [], IfOk, OnOk, OnErr};
ghost use Rattle.cd_outside.specs.Counts.{Rose};
ghost use Rattle.cd_cli.specs.Reader.{IsNextByte};

use cd_outside::{Failed, Source};
use std::marker::Model;

/// How many bytes are asked for at once.
const PIECE: usize = 4096;

/// A piece of the input. Contracts see the bytes of it that weren't given yet.
#[derive(Drop)]
pub(crate) struct Reader {
    piece: [u8; PIECE],
    at: usize,
    len: usize,
}

impl Model for Reader {
    ghost use Rattle.std.specs.Prelude.{◌≤◌, ◌-◌, ℕ, List, take, drop};

    ghost Value = { List ℕ };

    ghost view = { λ reader. take (reader.len - reader.at) (drop reader.at reader.piece) };

    ghost invariant = { λ reader. (reader.at ≤ reader.len) × (reader.len ≤ 4096) };
}

impl Reader {
    /// With nothing read yet.
    pub(crate) fn new() -> Self
        ensures { result ≡ [] }
    {
        Reader {
            piece: [0; PIECE],
            at: 0,
            len: 0,
        }
    }

    /// The next byte, or none at the input's end. The input is read only where nothing is left of the last piece.
    pub(crate) fn next<S: Source>(&mut self, input: &mut S) -> Result<Option<u8>, Failed>
        ensures byte { S.observable → IfOk result (λ byte. IsNextByte (self.old ++ S.remaining input.old) byte (self.new ++ S.remaining input.new)) }
        ensures failed { S.observable → OnErr result (self.new ++ S.remaining input.new ≡ self.old ++ S.remaining input.old) }
        ensures none { OnErr result (self.new ≡ []) }
        ensures unread { self.old ≢ [] → input.new ≡ input.old }
        ensures later { S.faults input.old ≤ S.faults input.new }
        ensures cause { OnErr result (Rose (S.faults input.old) (S.faults input.new)) }
    {
        if let Some(byte) = self.pop() {
            return Ok(Some(byte));
        }
        self.fill(input)?;
        Ok(self.pop())
    }

    // The next byte of the piece.
    fn pop(&mut self) -> Option<u8>
        ensures next { IsNextByte self.old result self.new }
        ensures none { result ≡ None → self.new ≡ self.old }
    {
        if self.at >= self.len {
            return None;
        }
        let byte = self.piece[self.at];
        self.at += 1;
        Some(byte)
    }

    // Reads the next piece.
    fn fill<S: Source>(&mut self, input: &mut S) -> Result<(), Failed>
        requires { self.old ≡ [] }
        ensures piece { S.observable → OnOk result (S.remaining input.old ≡ self.new ++ S.remaining input.new) }
        ensures end { S.observable → OnOk result (self.new ≡ [] → S.remaining input.old ≡ []) }
        ensures none { OnErr result (self.new ≡ []) }
        ensures same { S.observable → OnErr result (S.remaining input.new ≡ S.remaining input.old) }
        ensures later { S.faults input.old ≤ S.faults input.new }
        ensures cause { OnErr result (Rose (S.faults input.old) (S.faults input.new)) }
    {
        self.at = 0;
        self.len = 0;
        let len = input.read(&mut self.piece)?;
        self.len = len;
        Ok(())
    }
}
