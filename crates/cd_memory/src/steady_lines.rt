ghost use Rattle.std.specs.Prelude.{◌≡◌, ◌≤◌, length, take};
ghost use Rattle.cd_memory_state.specs.Roll.{roll_traffic};
ghost use Rattle.cd_memory_state.specs.Pieces.{has_come, coming};

use crate::count::failed;
use crate::lines::find;
use cd_memory_state::{Piece, Roll};
use cd_outside::{ConnectFault, Failed, Lines, Sid};
use cd_types::NoMemory;
use std::alloc::Global;

/// Lines in memory that never fail within the room that was made for them. Their other sides give the pieces that are
/// offered.
#[derive(Drop)]
pub struct SteadyLines {
    alloc: Global,
    roll: Roll,
    pieces: Vec<Piece>,
    waiting: u64,
    connects: u64,
    accepts: u64,
    nones: u64,
}

impl SteadyLines {
    ghost use Rattle.std.specs.Prelude.{◌≡◌, ◌≤◌, ◌++◌, [], ◌∷◌, OnOk, OnErr, IfOk};
    ghost use Rattle.cd_memory.specs.SteadyLines.{traffic_of, last_of, counts_of, waiting_of, pieces_of, calls_left, bytes_left, SameSessions};
    ghost use Rattle.cd_memory.specs.Zero.{AreZero};

    /// No session, and no room.
    pub fn new(alloc: Global) -> Result<Self, NoMemory>
        ensures last { IfOk result (λ lines. last_of lines ≡ 0) }
        ensures counts { IfOk result (λ lines. AreZero (counts_of lines)) }
        ensures waiting { IfOk result (λ lines. (waiting_of lines ≡ 0) × (pieces_of lines ≡ [])) }
    {
        Ok(SteadyLines {
            alloc,
            roll: Roll::new(alloc),
            pieces: Vec::new(alloc),
            waiting: 0,
            connects: 0,
            accepts: 0,
            nones: 0,
        })
    }

    /// Makes room for that many further calls, which take and give so many bytes in all.
    pub fn room(&mut self, calls: usize, bytes: usize) -> Result<(), NoMemory>
        ensures traffic { traffic_of self.new ≡ traffic_of self.old }
        ensures last { last_of self.new ≡ last_of self.old }
        ensures counts { ((counts_of self.new).connects ≡ (counts_of self.old).connects) × ((counts_of self.new).accepts ≡ (counts_of self.old).accepts) × ((counts_of self.new).nones ≡ (counts_of self.old).nones) }
        ensures waiting { (waiting_of self.new ≡ waiting_of self.old) × (pieces_of self.new ≡ pieces_of self.old) }
        ensures calls { OnOk result (calls ≤ calls_left self.new) }
        ensures bytes { OnOk result (bytes ≤ bytes_left self.new) }
        ensures more_calls { calls_left self.old ≤ calls_left self.new }
        ensures more_bytes { bytes_left self.old ≤ bytes_left self.new }
    {
        self.roll.room(calls, bytes)
    }

    /// That many sessions wait to be accepted from now on, and then no more.
    pub fn incoming(&mut self, count: u64) -> Result<(), NoMemory>
        ensures waiting { IfOk result (λ _. waiting_of self.new ≡ count) }
        ensures pieces { pieces_of self.new ≡ pieces_of self.old }
        ensures others { SameSessions self.old self.new }
    {
        self.waiting = count;
        Ok(())
    }

    /// The other side of a session gives these bytes too, once the session `after.0` was given `after.1` bytes.
    pub fn offer(
        &mut self,
        session: u64,
        bytes: &[u8],
        after: Option<(u64, u64)>,
    ) -> Result<(), NoMemory>
        ensures offered { OnOk result (pieces_of self.new ≡ pieces_of self.old ++ (record { session = session; rest = bytes.now; after = after }) ∷ []) }
        ensures same { OnErr result (pieces_of self.new ≡ pieces_of self.old) }
        ensures waiting { waiting_of self.new ≡ waiting_of self.old }
        ensures others { SameSessions self.old self.new }
    {
        let bytes = Vec::from_slice(self.alloc, bytes)?;
        self.pieces.push(Piece::new(session, bytes, after))?;
        Ok(())
    }

    /// The bytes that a session was given.
    pub fn given(&self, session: u64) -> &[u8]
        ensures { result.now ≡ (traffic_of self.now).given session }
    {
        self.roll.given(session)
    }

    /// The bytes that were taken from a session.
    pub fn taken(&self, session: u64) -> &[u8]
        ensures { result.now ≡ (traffic_of self.now).taken session }
    {
        self.roll.taken(session)
    }
}

impl Lines for SteadyLines {
    ghost use Rattle.std.specs.Prelude.{◌≡◌, ◌≤◌, ◌<◌, ◌+◌, length, take, true, is_some, if◌then◌else◌, IsOk, IfOk, OnOk, OnErr, IfSome, IfNone};
    ghost use Rattle.cd_outside.specs.Counts.{Rose};
    ghost use Rattle.cd_outside.specs.Lines.{IsFresh, took, sent, GaveFront, NeverFell, CountsIf, SameEnds, SameOtherEnds, SameFaults, SameOtherFaults, is_end, is_no_session};
    ghost use Rattle.cd_memory_state.specs.Roll.{roll_traffic, roll_last, roll_faults, roll_ends};
    ghost use Rattle.cd_memory_state.specs.Pieces.{coming};
    ghost use Rattle.cd_memory.specs.SteadyLines.{traffic_of, last_of, counts_of, waiting_of, pieces_of, calls_left, bytes_left, FaultsStay};

    ghost observable = { Unit {0} };

    ghost traffic = { λ lines. roll_traffic lines.roll };

    ghost last = { λ lines. roll_last lines.roll };

    ghost counts = { λ lines. record { faults = roll_faults lines.roll; connects = lines.connects; accepts = lines.accepts; ends = roll_ends lines.roll; nones = lines.nones } };

    fn listen(&mut self, _: u16) -> Result<(), Failed>
        ensures same { self.new ≡ self.old }
        ensures ends { SameEnds (counts_of self.old) (counts_of self.new) }
        ensures faults { SameFaults (counts_of self.old) (counts_of self.new) }
        ensures later { NeverFell (counts_of self.old) (counts_of self.new) }
        ensures steady { IsOk result }
    {
        Ok(())
    }

    fn connect(&mut self, _: &[u8], _: u16) -> Result<Sid, ConnectFault>
        ensures same { traffic_of self.new ≡ traffic_of self.old }
        ensures newest { IfOk result (λ sid. (last_of self.old < sid.number) × (last_of self.new ≡ sid.number)) }
        ensures fresh { IfOk result (λ sid. IsFresh sid.number (traffic_of self.new)) }
        ensures none { OnErr result (last_of self.new ≡ last_of self.old) }
        ensures ends { SameEnds (counts_of self.old) (counts_of self.new) }
        ensures faults { SameFaults (counts_of self.old) (counts_of self.new) }
        ensures nones { (counts_of self.new).nones ≡ (counts_of self.old).nones }
        ensures later { NeverFell (counts_of self.old) (counts_of self.new) }
        ensures cause { OnErr result (Rose (counts_of self.old).connects (counts_of self.new).connects) }
        ensures waiting { (waiting_of self.new ≡ waiting_of self.old) × (pieces_of self.new ≡ pieces_of self.old) }
        ensures steady { 1 ≤ calls_left self.old → IsOk result }
        ensures count { OnOk result (FaultsStay (counts_of self.old) (counts_of self.new)) }
        ensures calls { calls_left self.old ≤ calls_left self.new + 1 }
        ensures bytes { bytes_left self.old ≤ bytes_left self.new }
    {
        match self.roll.open() {
            Ok(number) => Ok(Sid { number }),
            Err(_) => {
                failed(&mut self.connects);
                Err(ConnectFault::Failed)
            }
        }
    }

    fn accept(&mut self) -> Result<Option<Sid>, Failed>
        ensures same { traffic_of self.new ≡ traffic_of self.old }
        ensures newest { IfOk result (λ given. IfSome given (λ sid. (last_of self.old < sid.number) × (last_of self.new ≡ sid.number))) }
        ensures fresh { IfOk result (λ given. IfSome given (λ sid. IsFresh sid.number (traffic_of self.new))) }
        ensures none { IfOk result (λ given. IfNone given (last_of self.new ≡ last_of self.old)) }
        ensures refused { OnErr result (last_of self.new ≡ last_of self.old) }
        ensures ends { SameEnds (counts_of self.old) (counts_of self.new) }
        ensures faults { SameFaults (counts_of self.old) (counts_of self.new) }
        ensures nones { CountsIf (is_no_session result) (counts_of self.old).nones (counts_of self.new).nones }
        ensures later { NeverFell (counts_of self.old) (counts_of self.new) }
        ensures cause { OnErr result (Rose (counts_of self.old).accepts (counts_of self.new).accepts) }
        ensures pieces { pieces_of self.new ≡ pieces_of self.old }
        ensures none_waits { waiting_of self.old ≡ 0 → is_no_session result ≡ true }
        ensures one_waits { is_no_session result ≡ true → waiting_of self.old ≡ 0 }
        ensures waiting { IfOk result (λ given. waiting_of self.old ≡ waiting_of self.new + (if is_some given then 1 else 0)) }
        ensures steady { 1 ≤ calls_left self.old → IsOk result }
        ensures count { OnOk result (FaultsStay (counts_of self.old) (counts_of self.new)) }
        ensures calls { calls_left self.old ≤ calls_left self.new + 1 }
        ensures bytes { bytes_left self.old ≤ bytes_left self.new }
    {
        if self.waiting == 0 {
            self.nones = self.nones.saturating_add(1);
            return Ok(None);
        }
        match self.roll.open() {
            Ok(number) => {
                self.waiting -= 1;
                Ok(Some(Sid { number }))
            }
            Err(_) => Err(failed(&mut self.accepts)),
        }
    }

    fn receive(&mut self, sid: Sid, into: &mut [u8]) -> Result<usize, Failed>
        requires from { 1 ≤ sid.number }
        requires to { sid.number ≤ last_of self.old }
        requires room { 0 < length into.old }
        ensures within { IfOk result (λ n. n ≤ length into.old) }
        ensures taken { IfOk result (λ n. traffic_of self.new ≡ took sid.number (take n into.new) (traffic_of self.old)) }
        ensures none { OnErr result (traffic_of self.new ≡ traffic_of self.old) }
        ensures last { last_of self.new ≡ last_of self.old }
        ensures ends { CountsIf (is_end result) ((counts_of self.old).ends sid.number) ((counts_of self.new).ends sid.number) }
        ensures other_ends { SameOtherEnds sid.number (counts_of self.old) (counts_of self.new) }
        ensures other_faults { SameOtherFaults sid.number (counts_of self.old) (counts_of self.new) }
        ensures nones { (counts_of self.new).nones ≡ (counts_of self.old).nones }
        ensures later { NeverFell (counts_of self.old) (counts_of self.new) }
        ensures cause { OnErr result (Rose ((counts_of self.old).faults sid.number) ((counts_of self.new).faults sid.number)) }
        ensures bytes { IfOk result (λ n. take n into.new ≡ take (length into.old) (coming (traffic_of self.old) (pieces_of self.old) sid.number)) }
        ensures steady { 1 ≤ calls_left self.old → length into.old ≤ bytes_left self.old → IsOk result }
        ensures count { OnOk result (FaultsStay (counts_of self.old) (counts_of self.new)) }
        ensures calls { calls_left self.old ≤ calls_left self.new + 1 }
        ensures left { bytes_left self.old ≤ bytes_left self.new + length into.old }
    {
        let count = give(&mut self.pieces, &self.roll, sid.number, into);
        match self.roll.take(sid.number, &into[..count]) {
            Ok(()) => {}
            Err(_) => {
                self.roll.fail(sid.number);
                return Err(Failed);
            }
        }
        if count == 0 {
            self.roll.end(sid.number);
        }
        Ok(count)
    }

    fn send(&mut self, sid: Sid, bytes: &[u8]) -> Result<(), Failed>
        requires from { 1 ≤ sid.number }
        requires to { sid.number ≤ last_of self.old }
        ensures sent { OnOk result (traffic_of self.new ≡ sent sid.number bytes.now (traffic_of self.old)) }
        ensures front { OnErr result (GaveFront sid.number bytes.now (traffic_of self.old) (traffic_of self.new)) }
        ensures last { last_of self.new ≡ last_of self.old }
        ensures ends { SameEnds (counts_of self.old) (counts_of self.new) }
        ensures other_faults { SameOtherFaults sid.number (counts_of self.old) (counts_of self.new) }
        ensures nones { (counts_of self.new).nones ≡ (counts_of self.old).nones }
        ensures later { NeverFell (counts_of self.old) (counts_of self.new) }
        ensures cause { OnErr result (Rose ((counts_of self.old).faults sid.number) ((counts_of self.new).faults sid.number)) }
        ensures waiting { (waiting_of self.new ≡ waiting_of self.old) × (pieces_of self.new ≡ pieces_of self.old) }
        ensures steady { 1 ≤ calls_left self.old → length bytes.now ≤ bytes_left self.old → IsOk result }
        ensures count { OnOk result (FaultsStay (counts_of self.old) (counts_of self.new)) }
        ensures calls { calls_left self.old ≤ calls_left self.new + 1 }
        ensures left { bytes_left self.old ≤ bytes_left self.new + length bytes.now }
    {
        match self.roll.give(sid.number, bytes) {
            Ok(()) => Ok(()),
            Err(_) => {
                self.roll.fail(sid.number);
                Err(Failed)
            }
        }
    }

    fn close(&mut self, _: Sid) {}
}

// A piece has come.
fn has_come(roll: &Roll, after: Option<(u64, u64)>) -> bool
    ensures { result ≡ has_come (roll_traffic roll.now) after }
{
    match after {
        Some(after) => after.1 <= roll.given(after.0).len() as u64,
        None => true,
    }
}

// Copies bytes of a session's first piece that has any left to the front of a buffer, if it has come, and takes them from
// it; tells how many.
fn give(pieces: &mut [Piece], roll: &Roll, session: u64, into: &mut [u8]) -> usize
    ensures within { result ≤ length into.old }
    ensures bytes { take result into.new ≡ take (length into.old) (coming (roll_traffic roll.now) pieces.old session) }
{
    let i = match find(pieces, session) {
        Some(i) => i,
        None => return 0,
    };
    let piece = &mut pieces[i];
    if !has_come(roll, piece.after()) {
        return 0;
    }
    let count = piece.copy(into);
    piece.take(count);
    count
}
