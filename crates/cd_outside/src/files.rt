ghost use Rattle.std.specs.Prelude.{◌≡◌, ◌≤◌, ◌<◌, ℕ, List, length, take, drop, IfOk, OnOk, OnErr};
ghost use Rattle.std.specs.Option.{option_map};
ghost use Rattle.cd_outside.specs.Counts.{next, Rose};
ghost use Rattle.cd_outside.specs.Shelf.{IsFileImage, content_of, WriteFile, CutFile, SyncFile, RemoveFile};
ghost use Rattle.cd_outside.specs.Files.{FilesState, files_last_of, files_did, FilesWereCutOff};

use crate::{Beat, Failed};

/// Files by their names. Between two syncs of a name a crash may leave any bytes in each range that was written and past
/// the least length since, of a length between the least and the greatest, and the file or none where it was made or
/// removed. A call on one name changes nothing of another.
///
/// Each changing call raises the beat by one. At the greatest beat it changes nothing and fails.
pub trait Files {
    /// They tell their content.
    ghost observable: { Type 0 };

    /// What they tell: what a read gives of each name, and what a crash may leave at each beat.
    ghost state: { Self → FilesState };

    /// How often they have failed, up to the greatest u64.
    ghost faults: { Self → ℕ };

    /// They tell how often they were called.
    ghost counted: { Type 0 };

    /// How often they were called, up to the greatest u64.
    ghost calls: { Self → ℕ };

    /// The length of a file in bytes; `None` where there is no such file.
    fn size(&mut self, name: &[u8]) -> Result<Option<u64>, Failed>
        ensures same { observable → state self.new ≡ state self.old }
        ensures size { observable → IfOk result (λ size. size ≡ option_map length ((state self.old).shelf.seen name.now)) }
        ensures later { faults self.old ≤ faults self.new }
        ensures cause { OnErr result (Rose (faults self.old) (faults self.new)) }
        ensures call { counted → calls self.new ≡ next (calls self.old) };

    /// Reads from a place on, to the front of the buffer, and tells how many bytes. They are fewer than the buffer has
    /// only at the file's end. A missing file gives none.
    fn read(&mut self, name: &[u8], at: u64, into: &mut [u8]) -> Result<usize, Failed>
        ensures same { observable → state self.new ≡ state self.old }
        ensures within { IfOk result (λ n. n ≤ length into.old) }
        ensures bytes { observable → IfOk result (λ n. take n into.new ≡ take (length into.old) (drop at (content_of ((state self.old).shelf.seen name.now)))) }
        ensures later { faults self.old ≤ faults self.new }
        ensures cause { OnErr result (Rose (faults self.old) (faults self.new)) }
        ensures call { counted → calls self.new ≡ next (calls self.old) };

    /// Writes over what is there, and past the end. Between the old end and a later place stand zeros. A missing file is
    /// made.
    fn write_at(
        &mut self,
        name: &[u8],
        at: u64,
        bytes: &[u8],
        beat: &mut Beat,
    ) -> Result<(), Failed>
        requires { observable → files_last_of (state self.old).calls ≤ beat.old }
        ensures done { observable → OnOk result (state self.new ≡ files_did (WriteFile name.now at bytes.now) beat.new (state self.old)) }
        ensures cut_off { observable → OnErr result (FilesWereCutOff (WriteFile name.now at bytes.now) beat.old beat.new (state self.old) (state self.new)) }
        ensures order { observable → files_last_of (state self.new).calls ≤ beat.new }
        ensures beat { beat.new ≡ next beat.old }
        ensures forward { beat.old ≤ beat.new }
        ensures raised { OnOk result (beat.old < beat.new) }
        ensures later { faults self.old ≤ faults self.new }
        ensures cause { OnErr result (Rose (faults self.old) (faults self.new)) }
        ensures call { counted → calls self.new ≡ next (calls self.old) };

    /// Cuts to a length, or makes longer by zeros. A missing file is made.
    fn cut(&mut self, name: &[u8], len: u64, beat: &mut Beat) -> Result<(), Failed>
        requires { observable → files_last_of (state self.old).calls ≤ beat.old }
        ensures done { observable → OnOk result (state self.new ≡ files_did (CutFile name.now len) beat.new (state self.old)) }
        ensures cut_off { observable → OnErr result (FilesWereCutOff (CutFile name.now len) beat.old beat.new (state self.old) (state self.new)) }
        ensures order { observable → files_last_of (state self.new).calls ≤ beat.new }
        ensures beat { beat.new ≡ next beat.old }
        ensures forward { beat.old ≤ beat.new }
        ensures raised { OnOk result (beat.old < beat.new) }
        ensures later { faults self.old ≤ faults self.new }
        ensures cause { OnErr result (Rose (faults self.old) (faults self.new)) }
        ensures call { counted → calls self.new ≡ next (calls self.old) };

    /// After it a crash leaves what a read gives of the name, also that it is missing. Where it fails, nothing was
    /// changed.
    fn sync(&mut self, name: &[u8], beat: &mut Beat) -> Result<(), Failed>
        requires { observable → files_last_of (state self.old).calls ≤ beat.old }
        ensures done { observable → OnOk result (state self.new ≡ files_did (SyncFile name.now) beat.new (state self.old)) }
        ensures same { observable → OnErr result (state self.new ≡ state self.old) }
        ensures order { observable → files_last_of (state self.new).calls ≤ beat.new }
        ensures beat { beat.new ≡ next beat.old }
        ensures forward { beat.old ≤ beat.new }
        ensures raised { OnOk result (beat.old < beat.new) }
        ensures later { faults self.old ≤ faults self.new }
        ensures cause { OnErr result (Rose (faults self.old) (faults self.new)) }
        ensures call { counted → calls self.new ≡ next (calls self.old) };

    /// Removes a file. A missing one is none the less `Ok`.
    fn remove(&mut self, name: &[u8], beat: &mut Beat) -> Result<(), Failed>
        requires { observable → files_last_of (state self.old).calls ≤ beat.old }
        ensures done { observable → OnOk result (state self.new ≡ files_did (RemoveFile name.now) beat.new (state self.old)) }
        ensures cut_off { observable → OnErr result (FilesWereCutOff (RemoveFile name.now) beat.old beat.new (state self.old) (state self.new)) }
        ensures order { observable → files_last_of (state self.new).calls ≤ beat.new }
        ensures beat { beat.new ≡ next beat.old }
        ensures forward { beat.old ≤ beat.new }
        ensures raised { OnOk result (beat.old < beat.new) }
        ensures later { faults self.old ≤ faults self.new }
        ensures cause { OnErr result (Rose (faults self.old) (faults self.new)) }
        ensures call { counted → calls self.new ≡ next (calls self.old) };

    /// What a read gives of a name is one of the files that a crash now may leave of it.
    ghost seen_is_image: { (files : Self) (name : List ℕ) → observable → IsFileImage ((state files).shelf.doubt name) ((state files).shelf.seen name) };
}
