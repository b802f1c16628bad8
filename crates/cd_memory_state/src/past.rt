use crate::marks::Marks;

/// What a changing call of a file changed, so that it can be undone.
#[derive(Drop)]
pub enum Undo {
    /// Bytes were written.
    Wrote,
    /// The length was changed, or the file was removed.
    Resized,
    /// A sync; before it, these were the bytes of the last one and the place and length of each write since.
    Synced(Vec<u8>, Vec<(u64, u64)>),
}

/// A changing call of the past, with what was in doubt of its name before it.
#[derive(Drop)]
pub struct Past {
    /// The beat to which it raised.
    pub beat: u64,
    pub name: Vec<u8>,
    pub there: bool,
    pub moved: bool,
    pub least: usize,
    pub greatest: usize,
    pub undo: Undo,
}

impl Past {
    ghost use Rattle.cd_memory_state.specs.Past.{IsEntry};

    /// A call on a name that had these marks.
    pub fn new(beat: u64, name: Vec<u8>, marks: Marks, undo: Undo) -> Self
        ensures { IsEntry beat name.items marks undo result }
    {
        Past {
            beat,
            name,
            there: marks.there,
            moved: marks.moved,
            least: marks.least,
            greatest: marks.greatest,
            undo,
        }
    }
}
