//! What comes in a session.
ghost use Rattle.std.specs.Prelude.{◌≡◌, ◌⊎◌, ◌≤◌, ◌+◌, List, length, option_map};
ghost use Rattle.cd_outside.specs.Counts.{Rose};
ghost use Rattle.cd_outside.specs.Lines.{NeverFell};
ghost use Rattle.cd_types.specs.Format.{IsBytes};
ghost use Rattle.cd_frames.specs.Message.{Message, message_of};
ghost use Rattle.cd_frames.specs.Reading.{front};
ghost use Rattle.cd_frames.specs.Run.{Run};
ghost use Rattle.cd_frames.specs.Stream.{waits};
ghost use Rattle.cd_exchange.specs.Arriving.{came_frame, and_one, CameSo, Heard};

use cd_frames::{Frame, Reader};
use cd_outside::{Lines, Sid};

/// What comes next in a session.
#[derive(Clone, Copy, Debug, PartialEq, Eq)]
pub enum Came {
    /// A frame, which its reader passed last.
    Frame,
    /// Bytes that are no frame.
    Bad,
    /// Its end; or it failed.
    End,
}

/// Bytes are numbers below 256.
fn bytes_are(bytes: &[u8])
    ensures { IsBytes bytes.now }
{}

/// How many bytes of a session came, which a reader takes; 0 where the session ended or failed. The reader waits.
fn take_bytes<L: Lines>(reader: &mut Reader, lines: &mut L, sid: Sid) -> usize
    requires from { 1 ≤ sid.number }
    requires to { sid.number ≤ L.last lines.old }
    requires waiting { front reader.old ≡ waits }
    ensures run { L.observable → (given : List Message) → Run ((L.traffic lines.old).taken sid.number) given reader.old → Run ((L.traffic lines.new).taken sid.number) given reader.new }
    ensures more { length reader.new.rest ≡ length reader.old.rest + result }
    ensures none { result ≡ 0 → Rose ((L.counts lines.old).ends sid.number) ((L.counts lines.new).ends sid.number) ⊎ Rose ((L.counts lines.old).faults sid.number) ((L.counts lines.new).faults sid.number) }
    ensures stays { result ≡ 0 → front reader.new ≡ waits }
    ensures heard { L.observable → Heard sid.number (L.traffic lines.old) (L.traffic lines.new) }
    ensures last { L.last lines.new ≡ L.last lines.old }
    ensures later { NeverFell (L.counts lines.old) (L.counts lines.new) }
    ensures nones { (L.counts lines.new).nones ≡ (L.counts lines.old).nones }
{
    let room = reader.room();
    match lines.receive(sid, room) {
        Ok(n) => {
            bytes_are(room);
            reader.filled(n);
            n
        }
        Err(_) => 0,
    }
}

/// Waits for the next frame of a session: takes bytes of it only while no whole frame and no refused bytes stand in the reader.
pub fn next_frame<L: Lines>(reader: &mut Reader, lines: &mut L, sid: Sid) -> Came
    requires from { 1 ≤ sid.number }
    requires to { sid.number ≤ L.last lines.old }
    ensures run { L.observable → (given : List Message) → Run ((L.traffic lines.old).taken sid.number) given reader.old → Run ((L.traffic lines.new).taken sid.number) (and_one given (came_frame result reader.new.given)) reader.new }
    ensures why { CameSo result reader.new sid.number (L.counts lines.old) (L.counts lines.new) }
    ensures at_hand { (front reader.old ≡ waits → ⊥) → lines.new ≡ lines.old }
    ensures heard { L.observable → Heard sid.number (L.traffic lines.old) (L.traffic lines.new) }
    ensures last { L.last lines.new ≡ L.last lines.old }
    ensures later { NeverFell (L.counts lines.old) (L.counts lines.new) }
    ensures nones { (L.counts lines.new).nones ≡ (L.counts lines.old).nones }
{
    for _piece in 0..131_077_u32 {
        match reader.step() {
            Ok(true) => return Came::Frame,
            Ok(false) => {}
            Err(_) => return Came::Bad,
        }
        if take_bytes(reader, lines, sid) == 0 {
            return Came::End;
        }
    }
    Came::End
}

/// The frame that came, where one did.
pub(crate) fn frame_in(reader: &Reader, came: Came) -> Option<Frame<'_>>
    ensures { option_map message_of result ≡ came_frame came reader.now.given }
{
    match came {
        Came::Frame => reader.frame(),
        _ => None,
    }
}
