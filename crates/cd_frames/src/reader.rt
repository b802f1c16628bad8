use cd_types::NoMemory;
use std::alloc::Global;
use std::marker::Model;

/// The most bytes of a frame, its length's four bytes among them.
pub(crate) const GREATEST: usize = 131_076;

/// Reads frames from a stream that comes in pieces of any size. The bytes of a piece are put into `room`, `filled` tells how many
/// they are, and `next` gives the frames one by one. What a frame has of files, texts, data and symbols lies in the reader's buffer.
#[derive(Drop)]
pub struct Reader {
    pub(crate) buffer: Vec<u8>,
    /// Where the frame begins that was passed last. Where it is kept no longer, this is `start`.
    pub(crate) last: usize,
    /// Where the bytes begin that weren't passed yet.
    pub(crate) start: usize,
    /// Where they end, and the free part begins.
    pub(crate) end: usize,
    /// Where in the stream `start` lies. Beyond the greatest number it stays there.
    pub(crate) place: u64,
}

impl Model for Reader {
    ghost use Rattle.cd_frames.specs.Reading.{Reading};

    ghost Value = { Reading };

    ghost use Rattle.cd_frames.specs.Buffer.{reading, IsBuffer};

    ghost view = { reading };

    ghost invariant = { IsBuffer };
}

impl Reader {
    ghost use Rattle.std.specs.Prelude.{◌≡◌, [], IfOk, None};

    /// A reader at the begin of a stream. It takes its buffer here, and no other call takes memory.
    pub fn new(alloc: Global) -> Result<Self, NoMemory>
        ensures place { IfOk result (λ reader. reader.place ≡ 0) }
        ensures given { IfOk result (λ reader. reader.given ≡ None) }
        ensures rest { IfOk result (λ reader. reader.rest ≡ []) }
    {
        let buffer = vec![in alloc; 0; 2 * GREATEST]?;
        Ok(Reader {
            buffer,
            last: 0,
            start: 0,
            end: 0,
            place: 0,
        })
    }
}
