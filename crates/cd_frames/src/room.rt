//! The free part of a reader's buffer.
ghost use Rattle.std.specs.Prelude.{◌≡◌, ◌≤◌, ◌<◌, length};
ghost use Rattle.std.specs.Borrow.{sem, Lends, Array, u8 as byte};
ghost use Rattle.cd_frames.specs.Reading.{overwritten, with_filled, with_free, front};
ghost use Rattle.cd_frames.specs.Stream.{waits};
ghost use Rattle.cd_frames.specs.contracts.reader.Reader.{the_row};

use crate::reader::{GREATEST, Reader};

impl Reader {
    /// The free part, into which the next bytes of the stream go. It isn't empty where `next` answered `None` last. The frame that
    /// was passed last is kept no longer.
    pub fn room(&mut self) -> &mut [u8]
        ensures* lends { sem 𝓛 (Lends the_row (Array byte 0) self.entry result (λ bytes. with_free self.old (overwritten result.now bytes))) }
        ensures open { front self.old ≡ waits → 0 < length result.now }
    {
        self.make_room();
        let end = self.end;
        self.buffer.slice_mut(end..)
    }

    /// Moves the rest to the front where there is little room and that costs no more than the frames had that went before.
    fn make_room(&mut self)
        ensures place { self.new.place ≡ self.old.place }
        ensures given { self.new.given ≡ None }
        ensures rest { self.new.rest ≡ self.old.rest }
        ensures room { length self.old.rest < 131076 → 0 < length self.new.free }
    {
        self.last = self.start;
        if self.end > GREATEST && self.start >= self.end - self.start {
            self.buffer.copy_within(self.start..self.end, 0);
            self.end -= self.start;
            self.last = 0;
            self.start = 0;
        }
    }

    /// The first `n` bytes of the free part are the next bytes of the stream.
    pub fn filled(&mut self, n: usize)
        requires { n ≤ length self.old.free }
        ensures { self.new ≡ with_filled self.old n }
    {
        self.end += n;
    }
}
