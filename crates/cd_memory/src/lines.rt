ghost use Rattle.std.specs.Prelude.{◌≡◌, ◌≤◌, ◌<◌, length, take, IfSome};
ghost use Rattle.std.specs.List.{position_from};
ghost use Rattle.cd_memory_state.specs.Exchange.{traffic_in};
ghost use Rattle.cd_memory_state.specs.Pieces.{has_come, coming, is_left_of_session};

use crate::FaultScript;
use crate::count::failed;
use crate::tally::Tally;
use cd_memory_state::{Exchange, Piece};
use cd_outside::{ConnectFault, Failed, Lines, Sid};
use cd_types::NoMemory;
use std::alloc::Global;

/// Lines in memory, whose other sides give the pieces that are offered.
#[derive(Drop)]
pub struct MemoryLines {
    alloc: Global,
    exchange: Exchange,
    pieces: Vec<Piece>,
    tally: Tally,
    waiting: u64,
    refusing: bool,
    connects: u64,
    accepts: u64,
    nones: u64,
}

impl MemoryLines {
    ghost use Rattle.std.specs.Prelude.{◌≡◌, ◌+◌, ◌++◌, [], ◌∷◌, min, false, OnOk, OnErr, IfOk};
    ghost use Rattle.cd_memory.specs.MemoryLines.{traffic_of, last_of, counts_of, lines_script, lines_calls, are_starved, waiting_of, are_refusing, pieces_of, SameSessions};
    ghost use Rattle.cd_memory.specs.Zero.{AreZero};

    /// No session; the calls of these numbers fail. Closing is no call that can fail.
    pub fn new(alloc: Global, script: FaultScript) -> Result<Self, NoMemory>
        ensures last { IfOk result (λ lines. last_of lines ≡ 0) }
        ensures counts { IfOk result (λ lines. AreZero (counts_of lines)) }
        ensures script { IfOk result (λ lines. (lines_script lines ≡ script) × (lines_calls lines ≡ 0)) }
        ensures waiting { IfOk result (λ lines. (waiting_of lines ≡ 0) × (are_refusing lines ≡ false) × (pieces_of lines ≡ [])) }
        ensures fed { IfOk result (λ lines. are_starved lines ≡ false) }
    {
        Ok(MemoryLines {
            alloc,
            exchange: Exchange::new(alloc),
            pieces: Vec::new(alloc),
            tally: Tally::new(script),
            waiting: 0,
            refusing: false,
            connects: 0,
            accepts: 0,
            nones: 0,
        })
    }

    /// The k-th next call fails.
    pub fn fail(&mut self, k: u64) -> Result<(), NoMemory>
        ensures added { OnOk result (lines_script self.new ≡ lines_script self.old ++ min (lines_calls self.old + k) 18446744073709551615 ∷ []) }
        ensures same { OnErr result (lines_script self.new ≡ lines_script self.old) }
        ensures kept { (waiting_of self.new ≡ waiting_of self.old) × (are_refusing self.new ≡ are_refusing self.old) × (pieces_of self.new ≡ pieces_of self.old) }
        ensures others { SameSessions self.old self.new }
    {
        self.tally.fail(k)
    }

    /// That many sessions wait to be accepted from now on, and then no more.
    pub fn incoming(&mut self, count: u64) -> Result<(), NoMemory>
        ensures waiting { IfOk result (λ _. waiting_of self.new ≡ count) }
        ensures kept { (lines_script self.new ≡ lines_script self.old) × (are_refusing self.new ≡ are_refusing self.old) × (pieces_of self.new ≡ pieces_of self.old) }
        ensures others { SameSessions self.old self.new }
    {
        self.waiting = count;
        Ok(())
    }

    /// The other side of a session gives these bytes too, once the session `after.0` was given `after.1` bytes.
    pub fn offer(
        &mut self,
        session: u64,
        bytes: &[u8],
        after: Option<(u64, u64)>,
    ) -> Result<(), NoMemory>
        ensures offered { OnOk result (pieces_of self.new ≡ pieces_of self.old ++ (record { session = session; rest = bytes.now; after = after }) ∷ []) }
        ensures same { OnErr result (pieces_of self.new ≡ pieces_of self.old) }
        ensures kept { (lines_script self.new ≡ lines_script self.old) × (waiting_of self.new ≡ waiting_of self.old) × (are_refusing self.new ≡ are_refusing self.old) }
        ensures others { SameSessions self.old self.new }
    {
        let bytes = Vec::from_slice(self.alloc, bytes)?;
        self.pieces.push(Piece::new(session, bytes, after))?;
        Ok(())
    }

    /// Connections are refused from now on, or no longer.
    pub fn refuse(&mut self, on: bool)
        ensures refusing { are_refusing self.new ≡ on }
        ensures kept { (lines_script self.new ≡ lines_script self.old) × (waiting_of self.new ≡ waiting_of self.old) × (pieces_of self.new ≡ pieces_of self.old) }
        ensures others { SameSessions self.old self.new }
    {
        self.refusing = on;
    }

    /// The bytes that a session was given.
    pub fn given(&self, session: u64) -> &[u8]
        ensures { result.now ≡ (traffic_of self.now).given session }
    {
        self.exchange.given(session)
    }

    /// The bytes that were taken from a session.
    pub fn taken(&self, session: u64) -> &[u8]
        ensures { result.now ≡ (traffic_of self.now).taken session }
    {
        self.exchange.taken(session)
    }

    /// A call found no memory.
    pub fn starved(&self) -> bool
        ensures { result ≡ are_starved self.now }
    {
        self.tally.starved
    }
}

impl Lines for MemoryLines {
    ghost use Rattle.std.specs.Prelude.{◌≡◌, ◌≤◌, ◌<◌, ◌+◌, length, take, true, false, is_some, if◌then◌else◌, IsOk, IsErr, IfOk, OnOk, OnErr, IfSome, IfNone};
    ghost use Rattle.cd_outside.specs.Counts.{next, Rose};
    ghost use Rattle.cd_outside.specs.Lines.{IsFresh, took, sent, GaveFront, NeverFell, CountsIf, SameEnds, SameOtherEnds, SameFaults, SameOtherFaults, is_end, is_no_session};
    ghost use Rattle.cd_memory_state.specs.Exchange.{traffic_in, last_in, faults_in, ends_in};
    ghost use Rattle.cd_memory_state.specs.Pieces.{coming};
    ghost use Rattle.cd_outside.specs.declared.lines.ConnectFault.TheVariants as fault;
    ghost use Rattle.cd_memory.specs.MemoryLines.{traffic_of, last_of, counts_of, lines_script, lines_calls, are_starved, are_refusing, waiting_of, pieces_of, lines_fail_next};

    ghost observable = { Unit {0} };

    ghost traffic = { λ lines. traffic_in lines.exchange };

    ghost last = { λ lines. last_in lines.exchange };

    ghost counts = { λ lines. record { faults = faults_in lines.exchange; connects = lines.connects; accepts = lines.accepts; ends = ends_in lines.exchange; nones = lines.nones } };

    fn listen(&mut self, _: u16) -> Result<(), Failed>
        ensures same { traffic_of self.new ≡ traffic_of self.old }
        ensures last { last_of self.new ≡ last_of self.old }
        ensures ends { SameEnds (counts_of self.old) (counts_of self.new) }
        ensures faults { SameFaults (counts_of self.old) (counts_of self.new) }
        ensures nones { (counts_of self.new).nones ≡ (counts_of self.old).nones }
        ensures later { NeverFell (counts_of self.old) (counts_of self.new) }
        ensures cause { OnErr result (Rose (counts_of self.old).accepts (counts_of self.new).accepts) }
        ensures counted { (lines_script self.new ≡ lines_script self.old) × (lines_calls self.new ≡ next (lines_calls self.old)) }
        ensures fails { lines_fail_next self.old ≡ true → IsErr result }
        ensures fed { are_starved self.new ≡ are_starved self.old }
        ensures goes { lines_fail_next self.old ≡ false → IsOk result }
    {
        if self.tally.begin() {
            return Err(failed(&mut self.accepts));
        }
        Ok(())
    }

    fn connect(&mut self, _: &[u8], _: u16) -> Result<Sid, ConnectFault>
        ensures same { traffic_of self.new ≡ traffic_of self.old }
        ensures newest { IfOk result (λ sid. (last_of self.old < sid.number) × (last_of self.new ≡ sid.number)) }
        ensures fresh { IfOk result (λ sid. IsFresh sid.number (traffic_of self.new)) }
        ensures none { OnErr result (last_of self.new ≡ last_of self.old) }
        ensures ends { SameEnds (counts_of self.old) (counts_of self.new) }
        ensures faults { SameFaults (counts_of self.old) (counts_of self.new) }
        ensures nones { (counts_of self.new).nones ≡ (counts_of self.old).nones }
        ensures later { NeverFell (counts_of self.old) (counts_of self.new) }
        ensures cause { OnErr result (Rose (counts_of self.old).connects (counts_of self.new).connects) }
        ensures counted { (lines_script self.new ≡ lines_script self.old) × (lines_calls self.new ≡ next (lines_calls self.old)) }
        ensures fails { lines_fail_next self.old ≡ true → IsErr result }
        ensures refused { are_refusing self.old ≡ true → lines_fail_next self.old ≡ false → result ≡ Err fault.Refused }
        ensures goes { lines_fail_next self.old ≡ false → are_refusing self.old ≡ false → are_starved self.new ≡ false → IsOk result }
        ensures asked_for { lines_fail_next self.old ≡ true → are_starved self.new ≡ are_starved self.old }
        ensures fed { are_refusing self.old ≡ true → are_starved self.new ≡ are_starved self.old }
        ensures served { OnOk result (are_starved self.new ≡ are_starved self.old) }
    {
        if self.tally.begin() {
            failed(&mut self.connects);
            return Err(ConnectFault::Failed);
        }
        if self.refusing {
            failed(&mut self.connects);
            return Err(ConnectFault::Refused);
        }
        match self.exchange.open() {
            Ok(number) => Ok(Sid { number }),
            Err(_) => {
                self.tally.starve();
                failed(&mut self.connects);
                Err(ConnectFault::Failed)
            }
        }
    }

    fn accept(&mut self) -> Result<Option<Sid>, Failed>
        ensures same { traffic_of self.new ≡ traffic_of self.old }
        ensures newest { IfOk result (λ given. IfSome given (λ sid. (last_of self.old < sid.number) × (last_of self.new ≡ sid.number))) }
        ensures fresh { IfOk result (λ given. IfSome given (λ sid. IsFresh sid.number (traffic_of self.new))) }
        ensures none { IfOk result (λ given. IfNone given (last_of self.new ≡ last_of self.old)) }
        ensures refused { OnErr result (last_of self.new ≡ last_of self.old) }
        ensures ends { SameEnds (counts_of self.old) (counts_of self.new) }
        ensures faults { SameFaults (counts_of self.old) (counts_of self.new) }
        ensures nones { CountsIf (is_no_session result) (counts_of self.old).nones (counts_of self.new).nones }
        ensures later { NeverFell (counts_of self.old) (counts_of self.new) }
        ensures cause { OnErr result (Rose (counts_of self.old).accepts (counts_of self.new).accepts) }
        ensures counted { (lines_script self.new ≡ lines_script self.old) × (lines_calls self.new ≡ next (lines_calls self.old)) }
        ensures fails { lines_fail_next self.old ≡ true → IsErr result }
        ensures goes { lines_fail_next self.old ≡ false → are_starved self.new ≡ false → IsOk result }
        ensures asked_for { lines_fail_next self.old ≡ true → are_starved self.new ≡ are_starved self.old }
        ensures served { OnOk result (are_starved self.new ≡ are_starved self.old) }
        ensures none_waits { waiting_of self.old ≡ 0 → lines_fail_next self.old ≡ false → is_no_session result ≡ true }
        ensures one_waits { is_no_session result ≡ true → waiting_of self.old ≡ 0 }
        ensures waiting { IfOk result (λ given. waiting_of self.old ≡ waiting_of self.new + (if is_some given then 1 else 0)) }
    {
        if self.tally.begin() {
            return Err(failed(&mut self.accepts));
        }
        if self.waiting == 0 {
            self.nones = self.nones.saturating_add(1);
            return Ok(None);
        }
        match self.exchange.open() {
            Ok(number) => {
                self.waiting -= 1;
                Ok(Some(Sid { number }))
            }
            Err(_) => {
                self.tally.starve();
                Err(failed(&mut self.accepts))
            }
        }
    }

    fn receive(&mut self, sid: Sid, into: &mut [u8]) -> Result<usize, Failed>
        requires from { 1 ≤ sid.number }
        requires to { sid.number ≤ last_of self.old }
        requires room { 0 < length into.old }
        ensures within { IfOk result (λ n. n ≤ length into.old) }
        ensures taken { IfOk result (λ n. traffic_of self.new ≡ took sid.number (take n into.new) (traffic_of self.old)) }
        ensures none { OnErr result (traffic_of self.new ≡ traffic_of self.old) }
        ensures last { last_of self.new ≡ last_of self.old }
        ensures ends { CountsIf (is_end result) ((counts_of self.old).ends sid.number) ((counts_of self.new).ends sid.number) }
        ensures other_ends { SameOtherEnds sid.number (counts_of self.old) (counts_of self.new) }
        ensures other_faults { SameOtherFaults sid.number (counts_of self.old) (counts_of self.new) }
        ensures nones { (counts_of self.new).nones ≡ (counts_of self.old).nones }
        ensures later { NeverFell (counts_of self.old) (counts_of self.new) }
        ensures cause { OnErr result (Rose ((counts_of self.old).faults sid.number) ((counts_of self.new).faults sid.number)) }
        ensures counted { (lines_script self.new ≡ lines_script self.old) × (lines_calls self.new ≡ next (lines_calls self.old)) }
        ensures fails { lines_fail_next self.old ≡ true → IsErr result }
        ensures goes { lines_fail_next self.old ≡ false → are_starved self.new ≡ false → IsOk result }
        ensures asked_for { lines_fail_next self.old ≡ true → are_starved self.new ≡ are_starved self.old }
        ensures served { OnOk result (are_starved self.new ≡ are_starved self.old) }
        ensures bytes { IfOk result (λ n. take n into.new ≡ take (length into.old) (coming (traffic_of self.old) (pieces_of self.old) sid.number)) }
    {
        if self.tally.begin() {
            self.exchange.fail(sid.number);
            return Err(Failed);
        }
        let count = give(&mut self.pieces, &self.exchange, sid.number, into);
        match self.exchange.take(sid.number, &into[..count]) {
            Ok(()) => {}
            Err(_) => {
                self.tally.starve();
                self.exchange.fail(sid.number);
                return Err(Failed);
            }
        }
        if count == 0 {
            self.exchange.end(sid.number);
        }
        Ok(count)
    }

    fn send(&mut self, sid: Sid, bytes: &[u8]) -> Result<(), Failed>
        requires from { 1 ≤ sid.number }
        requires to { sid.number ≤ last_of self.old }
        ensures sent { OnOk result (traffic_of self.new ≡ sent sid.number bytes.now (traffic_of self.old)) }
        ensures front { OnErr result (GaveFront sid.number bytes.now (traffic_of self.old) (traffic_of self.new)) }
        ensures last { last_of self.new ≡ last_of self.old }
        ensures ends { SameEnds (counts_of self.old) (counts_of self.new) }
        ensures other_faults { SameOtherFaults sid.number (counts_of self.old) (counts_of self.new) }
        ensures nones { (counts_of self.new).nones ≡ (counts_of self.old).nones }
        ensures later { NeverFell (counts_of self.old) (counts_of self.new) }
        ensures cause { OnErr result (Rose ((counts_of self.old).faults sid.number) ((counts_of self.new).faults sid.number)) }
        ensures counted { (lines_script self.new ≡ lines_script self.old) × (lines_calls self.new ≡ next (lines_calls self.old)) }
        ensures fails { lines_fail_next self.old ≡ true → IsErr result }
        ensures goes { lines_fail_next self.old ≡ false → are_starved self.new ≡ false → IsOk result }
        ensures asked_for { lines_fail_next self.old ≡ true → are_starved self.new ≡ are_starved self.old }
        ensures served { OnOk result (are_starved self.new ≡ are_starved self.old) }
    {
        if self.tally.begin() {
            self.exchange.fail(sid.number);
            return Err(Failed);
        }
        match self.exchange.give(sid.number, bytes) {
            Ok(()) => Ok(()),
            Err(_) => {
                self.tally.starve();
                self.exchange.fail(sid.number);
                Err(Failed)
            }
        }
    }

    fn close(&mut self, _: Sid) {}
}

// A piece has come.
fn has_come(exchange: &Exchange, after: Option<(u64, u64)>) -> bool
    ensures { result ≡ has_come (traffic_in exchange.now) after }
{
    match after {
        Some(after) => after.1 <= exchange.given(after.0).len() as u64,
        None => true,
    }
}

// The place of a session's first piece that has bytes left.
pub(crate) fn find(pieces: &[Piece], session: u64) -> Option<usize>
    ensures place { result ≡ position_from (is_left_of_session session) 0 pieces.now }
    ensures bound { IfSome result (λ i. i < length pieces.now) }
{
    pieces.iter().position(|piece| piece.is_left_of(session))
}

// Copies bytes of a session's first piece that has any left to the front of a buffer, if it has come, and takes them from
// it; tells how many.
fn give(pieces: &mut [Piece], exchange: &Exchange, session: u64, into: &mut [u8]) -> usize
    ensures within { result ≤ length into.old }
    ensures bytes { take result into.new ≡ take (length into.old) (coming (traffic_in exchange.now) pieces.old session) }
{
    let i = match find(pieces, session) {
        Some(i) => i,
        None => return 0,
    };
    let piece = &mut pieces[i];
    if !has_come(exchange, piece.after()) {
        return 0;
    }
    let count = piece.copy(into);
    piece.take(count);
    count
}
