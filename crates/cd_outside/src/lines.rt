ghost use Rattle.std.specs.Prelude.{◌≡◌, ◌≤◌, ◌<◌, ℕ, length, take, false, IfOk, OnOk, OnErr, IfSome, IfNone};
ghost use Rattle.cd_outside.specs.Counts.{Rose};
ghost use Rattle.cd_outside.specs.Lines.{Traffic, IsFresh, took, sent, GaveFront, LineCounts, NeverFell, CountsIf, SameEnds, SameOtherEnds, SameFaults, SameOtherFaults, is_end, is_no_session};

use crate::{Failed, Sid};

/// Why no session was connected.
#[derive(Clone, Copy, Debug, PartialEq, Eq)]
pub enum ConnectFault {
    /// The other side refuses connections.
    Refused,
    /// Another cause.
    Failed,
}

/// Sessions with other nodes. Each has a number, which is greater than that of every earlier one; after the greatest u64
/// no session is made any more. A call on one session changes nothing of another.
///
/// Faults are counted for each session apart, for connecting, and for listening and accepting. Once a session was closed
/// its counts may stand at the greatest u64, so that nothing has to be kept for it.
pub trait Lines {
    /// They tell their bytes.
    ghost observable: { Type 0 };

    /// What they tell: the bytes of each session, and the order of the sends.
    ghost traffic: { Self → Traffic };

    /// The number of the newest session; 0 before the first.
    ghost last: { Self → ℕ };

    /// What they count.
    ghost counts: { Self → LineCounts };

    /// Waits for connections at a port. Where it is that of the last call, that call's listener is kept.
    fn listen(&mut self, port: u16) -> Result<(), Failed>
        ensures same { observable → traffic self.new ≡ traffic self.old }
        ensures last { last self.new ≡ last self.old }
        ensures ends { SameEnds (counts self.old) (counts self.new) }
        ensures faults { SameFaults (counts self.old) (counts self.new) }
        ensures nones { (counts self.new).nones ≡ (counts self.old).nones }
        ensures later { NeverFell (counts self.old) (counts self.new) }
        ensures cause { OnErr result (Rose (counts self.old).accepts (counts self.new).accepts) };

    /// Makes a session with the node at an address.
    fn connect(&mut self, host: &[u8], port: u16) -> Result<Sid, ConnectFault>
        ensures same { observable → traffic self.new ≡ traffic self.old }
        ensures newest { IfOk result (λ sid. (last self.old < sid.number) × (last self.new ≡ sid.number)) }
        ensures fresh { observable → IfOk result (λ sid. IsFresh sid.number (traffic self.new)) }
        ensures none { OnErr result (last self.new ≡ last self.old) }
        ensures ends { SameEnds (counts self.old) (counts self.new) }
        ensures faults { SameFaults (counts self.old) (counts self.new) }
        ensures nones { (counts self.new).nones ≡ (counts self.old).nones }
        ensures later { NeverFell (counts self.old) (counts self.new) }
        ensures cause { OnErr result (Rose (counts self.old).connects (counts self.new).connects) };

    /// Takes the next session that another node made; `None` where there are no more.
    fn accept(&mut self) -> Result<Option<Sid>, Failed>
        ensures same { observable → traffic self.new ≡ traffic self.old }
        ensures newest { IfOk result (λ given. IfSome given (λ sid. (last self.old < sid.number) × (last self.new ≡ sid.number))) }
        ensures fresh { observable → IfOk result (λ given. IfSome given (λ sid. IsFresh sid.number (traffic self.new))) }
        ensures none { IfOk result (λ given. IfNone given (last self.new ≡ last self.old)) }
        ensures refused { OnErr result (last self.new ≡ last self.old) }
        ensures ends { SameEnds (counts self.old) (counts self.new) }
        ensures faults { SameFaults (counts self.old) (counts self.new) }
        ensures nones { CountsIf (is_no_session result) (counts self.old).nones (counts self.new).nones }
        ensures later { NeverFell (counts self.old) (counts self.new) }
        ensures cause { OnErr result (Rose (counts self.old).accepts (counts self.new).accepts) };

    /// Takes some bytes of a session to the front of a buffer that isn't empty, and tells how many; 0 where the session
    /// ended. Where it fails, it takes none.
    fn receive(&mut self, sid: Sid, into: &mut [u8]) -> Result<usize, Failed>
        requires from { 1 ≤ sid.number }
        requires to { sid.number ≤ last self.old }
        requires room { 0 < length into.old }
        ensures within { IfOk result (λ n. n ≤ length into.old) }
        ensures taken { observable → IfOk result (λ n. traffic self.new ≡ took sid.number (take n into.new) (traffic self.old)) }
        ensures none { observable → OnErr result (traffic self.new ≡ traffic self.old) }
        ensures last { last self.new ≡ last self.old }
        ensures ends { CountsIf (is_end result) ((counts self.old).ends sid.number) ((counts self.new).ends sid.number) }
        ensures other_ends { SameOtherEnds sid.number (counts self.old) (counts self.new) }
        ensures other_faults { SameOtherFaults sid.number (counts self.old) (counts self.new) }
        ensures nones { (counts self.new).nones ≡ (counts self.old).nones }
        ensures later { NeverFell (counts self.old) (counts self.new) }
        ensures cause { OnErr result (Rose ((counts self.old).faults sid.number) ((counts self.new).faults sid.number)) };

    /// Gives bytes to a session. Where it fails, it gave a front of them.
    fn send(&mut self, sid: Sid, bytes: &[u8]) -> Result<(), Failed>
        requires from { 1 ≤ sid.number }
        requires to { sid.number ≤ last self.old }
        ensures sent { observable → OnOk result (traffic self.new ≡ sent sid.number bytes.now (traffic self.old)) }
        ensures front { observable → OnErr result (GaveFront sid.number bytes.now (traffic self.old) (traffic self.new)) }
        ensures last { last self.new ≡ last self.old }
        ensures ends { SameEnds (counts self.old) (counts self.new) }
        ensures other_faults { SameOtherFaults sid.number (counts self.old) (counts self.new) }
        ensures nones { (counts self.new).nones ≡ (counts self.old).nones }
        ensures later { NeverFell (counts self.old) (counts self.new) }
        ensures cause { OnErr result (Rose ((counts self.old).faults sid.number) ((counts self.new).faults sid.number)) };

    /// Closes a session on this side.
    fn close(&mut self, sid: Sid)
        requires from { 1 ≤ sid.number }
        requires to { sid.number ≤ last self.old }
        ensures same { observable → traffic self.new ≡ traffic self.old }
        ensures last { last self.new ≡ last self.old }
        ensures other_ends { SameOtherEnds sid.number (counts self.old) (counts self.new) }
        ensures other_faults { SameOtherFaults sid.number (counts self.old) (counts self.new) }
        ensures nones { (counts self.new).nones ≡ (counts self.old).nones }
        ensures later { NeverFell (counts self.old) (counts self.new) };
}
