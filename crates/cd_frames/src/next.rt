//! The next frame of a stream.
ghost use Rattle.std.specs.Prelude.{◌≡◌, ◌≤◌, length, option_map, IfOk, IfSome};
ghost use Rattle.cd_frames.specs.Frame.{IsFrame, IsWritable};
ghost use Rattle.cd_frames.specs.Message.{message_of};
ghost use Rattle.cd_frames.specs.Reading.{after_step, answer_of, front, next_answer, sized_answer_of, sized_answer_to, step_answer};
ghost use Rattle.cd_frames.specs.Stream.{front_of};

use crate::frame::{Frame, FrameFault};
use crate::reader::Reader;
use crate::reading::frame_of;
use cd_types::{Field, LONGEST_FRAME};

/// The frame at the front of bytes that begin at this place of the stream, and how many bytes it has; `None` where they are less than
/// a whole frame.
#[tactic(auto, unfolding(crate::specs::Stream::front_of, crate::specs::Stream::told))]
fn front_of(place: u64, bytes: &[u8]) -> Result<Option<(Frame<'_>, usize)>, FrameFault>
    ensures found { sized_answer_of result ≡ sized_answer_to (front_of place bytes.now) }
    ensures within { IfOk result (λ front. IfSome front (λ found. (found.1 ≤ length bytes.now) × (found.1 ≤ 131076))) }
{
    let Some((len, rest)) = u32::front(bytes) else {
        return Ok(None);
    };
    if len > LONGEST_FRAME {
        return Err(FrameFault::TooLong(len));
    }
    let len = len as usize;
    if rest.len() < len {
        return Ok(None);
    }
    match frame_of(&rest[..len]) {
        Some(frame) => Ok(Some((frame, 4 + len))),
        None => Err(FrameFault::Bad(place)),
    }
}

impl Reader {
    /// The next frame of the stream, lent from the buffer; `None` where what came isn't a whole frame yet and may become one.
    ///
    /// `TooLong` where its length is above 131,072. `Bad` where the bytes behind a length aren't a frame; it tells the
    /// place in the stream at which that frame begins (the greatest number for places beyond). After a fault every call answers the same.
    /// It is `step`, and then `frame`. Where a proof has to know the reader behind it, call those.
    pub fn next(&mut self) -> Result<Option<Frame<'_>>, FrameFault>
        ensures answer { answer_of result ≡ next_answer (front self.old) }
        ensures form { IfOk result (λ found. IfSome found (λ frame. IsFrame (message_of frame))) }
        ensures writable { IfOk result (λ found. IfSome found (λ frame. IsWritable (message_of frame))) }
    {
        match self.step() {
            Ok(true) => Ok(self.frame()),
            Ok(false) => Ok(None),
            Err(why) => Err(why),
        }
    }

    /// Passes the next frame of the stream, and tells whether there was one. The faults are those of `next`.
    pub fn step(&mut self) -> Result<bool, FrameFault>
        ensures answer { result ≡ step_answer (front self.old) }
        ensures after { self.new ≡ after_step self.old }
    {
        self.last = self.start;
        match front_of(self.place, &self.buffer[self.start..self.end]) {
            Ok(Some((_frame, size))) => {
                self.start += size;
                self.place = self.place.saturating_add(size as u64);
                Ok(true)
            }
            Ok(None) => Ok(false),
            Err(fault) => Err(fault),
        }
    }

    /// The frame that was passed last, lent from the buffer; `None` where none was, or `room` was called after it.
    #[tactic(auto, unfolding(crate::specs::Buffer::given_in))]
    pub fn frame(&self) -> Option<Frame<'_>>
        ensures given { option_map message_of result ≡ self.now.given }
        ensures form { IfSome result (λ frame. IsFrame (message_of frame)) }
        ensures writable { IfSome result (λ frame. IsWritable (message_of frame)) }
    {
        let (_, body) = u32::front(&self.buffer[self.last..self.start])?;
        frame_of(body)
    }
}
