ghost use Rattle.std.specs.Prelude.{◌≡◌, ◌≤◌, length, take, drop};
ghost use Rattle.cd_memory_state.specs.Pieces.{is_left_of_session};

use std::marker::Model;

/// Bytes that the other side of a session offers.
#[derive(Drop)]
pub struct Piece {
    session: u64,
    bytes: Vec<u8>,
    used: usize,
    after: Option<(u64, u64)>,
}

impl Model for Piece {
    ghost use Rattle.std.specs.Prelude.{◌≤◌, drop, length};
    ghost use Rattle.cd_memory_state.specs.Pieces.{PieceHeld};

    ghost Value = { PieceHeld };

    ghost view = { λ piece. record { session = piece.session; rest = drop piece.used piece.bytes.items; after = piece.after } };

    ghost invariant = { λ piece. piece.used ≤ length piece.bytes.items };
}

impl Piece {
    /// These bytes of a session, which come once another was given so many bytes.
    pub fn new(session: u64, bytes: Vec<u8>, after: Option<(u64, u64)>) -> Self
        ensures { result ≡ record { session = session; rest = bytes.items; after = after } }
    {
        Piece {
            session,
            bytes,
            used: 0,
            after,
        }
    }

    /// It is of that session, and has bytes left.
    pub fn is_left_of(&self, session: u64) -> bool
        ensures { result ≡ is_left_of_session session self.now }
    {
        self.session == session && self.used < self.bytes.len()
    }

    /// After how many bytes given to which session it comes.
    pub fn after(&self) -> Option<(u64, u64)>
        ensures { result ≡ self.now.after }
    {
        self.after
    }

    /// Copies bytes that are left to the front of a buffer, and tells how many.
    pub fn copy(&self, into: &mut [u8]) -> usize
        ensures within { result ≤ length into.old }
        ensures left { result ≤ length self.now.rest }
        ensures bytes { take result into.new ≡ take (length into.old) self.now.rest }
    {
        let count = into.len().min(self.bytes.len() - self.used);
        into[..count].copy_from_slice(&self.bytes[self.used..self.used + count]);
        count
    }

    /// So many of the bytes were taken.
    pub fn take(&mut self, count: usize)
        requires { count ≤ length self.old.rest }
        ensures { self.new ≡ record self.old { rest = drop count self.old.rest } }
    {
        self.used += count;
    }
}
