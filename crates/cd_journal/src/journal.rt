ghost use Rattle.std.specs.Prelude.{◌≡◌, ◌+◌, ◌-◌, ◌*◌, ◌<◌, ◌≤◌, ◌^◌, [], ◌∷◌, ◌++◌, length, IfOk, OnOk, OnErr, vec_len, vec_capacity, min, max, Some, slice_get, true, false};
ghost use Rattle.cd_outside.specs.Counts.{Rose};
ghost use Rattle.cd_outside.specs.Doubt.{settled, IsImage};
ghost use Rattle.cd_outside.specs.Disk.{last_of, LeftAt};
ghost use Rattle.cd_outside.specs.Moments.{Moments};
ghost use Rattle.cd_outside.specs.Through.{IsSettledAs};
ghost use Rattle.cd_journal.specs.Bytes.{header, list_of};
ghost use Rattle.cd_journal.specs.Fault.{OnDisk, IfFull, IfUnfit, OnNoMemory, sound_after};
ghost use Rattle.cd_journal.specs.Journal.{length_of, Opens, IsAt, KeepsList, GrowsBy, with_last, IsBeforeOrAfter, entry_block};
ghost use Rattle.cd_journal.specs.Writing.{opened};

use crate::JournalFault;
use crate::loading::read_into;
use crate::place::Place;
use crate::reading::{Index, scan};
use crate::writing::{fill, put};
use cd_outside::{Beat, Disk, sync_now};
use cd_types::NoMemory;
use std::alloc::Global;
use std::marker::Model;

/// The greatest length of a journal, in bytes.
const MAX_LENGTH: usize = 1 << 30;

/// The bytes of a journal without entries: the header and a closed gate.
const BLANK: [u8; 9] = *b"CDNODE01\0";

/// The list of the entries on a disk, which isn't held but handed to each call. It knows where each body stands.
///
/// Once a call answered `Disk` the journal isn't sound, and the disk is opened again.
#[derive(Drop)]
pub struct Journal {
    places: Vec<Place>,
    end: u32,
    has_header: bool,
    sound: bool,
    block: Vec<u8>,
}

impl Model for Journal {
    ghost use Rattle.std.specs.Prelude.{◌-◌, vec_len, vec_capacity};
    ghost use Rattle.cd_journal.specs.Index.{IsBelow};
    ghost use Rattle.cd_journal.specs.Journal.{Held};

    ghost Value = { Held };

    ghost view = { λ j. record {
      places = j.places.items;
      end = j.end;
      has_header = j.has_header;
      sound = j.sound;
      spare = vec_capacity j.places - vec_len j.places;
      room = vec_capacity j.block - 5;
    } };

    ghost invariant = { λ j. IsBelow j.places.items j.end };
}

impl Journal {
    /// Writes the header and a closed gate, 9 bytes, onto a disk without bytes. A stop within may leave any bytes, up to
    /// so many: the file is then deleted, and made anew.
    pub fn create<P: Disk>(disk: &mut P, beat: &mut Beat) -> Result<(), JournalFault>
        requires empty { P.observable → (P.state disk.old).seen ≡ [] }
        requires order { P.observable → last_of (P.state disk.old).calls ≤ beat.old }
        ensures created { P.observable → OnOk result (IsSettledAs (header ++ 0 ∷ []) (P.state disk.new)) }
        ensures moments { P.observable → Moments (LeftAt (P.state disk.old)) (LeftAt (P.state disk.new)) beat.old
            (λ image. length image ≤ max (P.state disk.old).doubt.greatest 9) }
        ensures cause { OnDisk result (Rose (P.faults disk.old) (P.faults disk.new)) }
        ensures full { IfFull result (λ _. ⊥) }
        ensures unfit { IfUnfit result (λ _. ⊥) }
        ensures memory { OnNoMemory result ⊥ }
        ensures order { P.observable → last_of (P.state disk.new).calls ≤ beat.new }
        ensures beat { beat.old ≤ beat.new }
        ensures later { P.faults disk.old ≤ P.faults disk.new }
    {
        disk.write_at(0, &BLANK, beat)?;
        disk.sync(beat)?;
        Ok(())
    }

    /// Syncs the disk and reads its list. `Unfit` tells the first place at which the bytes aren't a journal's, exactly
    /// where there is one. A disk without bytes opens as a journal without a header and without entries.
    ///
    /// A disk of 2^32 bytes or more, which no append makes, is answered as want of memory.
    pub fn open<P: Disk>(alloc: Global, disk: &mut P, beat: &mut Beat) -> Result<Self, JournalFault>
        requires { P.observable → last_of (P.state disk.old).calls ≤ beat.old }
        ensures opens { P.observable → IfOk result (λ journal. Opens journal (P.state disk.new)) }
        ensures sound { IfOk result (λ journal. journal.sound ≡ true) }
        ensures unfit { P.observable → IfUnfit result (λ at. list_of (P.state disk.old).seen ≡ Err at) }
        ensures same { P.observable → (P.state disk.new).seen ≡ (P.state disk.old).seen }
        ensures moments { P.observable → Moments (LeftAt (P.state disk.old)) (LeftAt (P.state disk.new)) beat.old
            (IsImage (P.state disk.old).doubt) }
        ensures cause { OnDisk result (Rose (P.faults disk.old) (P.faults disk.new)) }
        ensures full { IfFull result (λ _. ⊥) }
        ensures order { P.observable → last_of (P.state disk.new).calls ≤ beat.new }
        ensures beat { beat.old ≤ beat.new }
        ensures later { P.faults disk.old ≤ P.faults disk.new }
    {
        sync_now(disk, beat)?;
        let journal = load(alloc, disk)?;
        Ok(journal)
    }

    /// How many entries the list has.
    pub fn count(&self) -> u32
        ensures { result ≡ length self.now.places }
    {
        self.places.len() as u32
    }

    /// No call of this journal has answered `Disk`.
    pub fn is_sound(&self) -> bool
        ensures { result ≡ self.now.sound }
    {
        self.sound
    }

    /// The disk has a header. Without one it has no bytes: `create` writes it, and the disk is opened again.
    pub fn has_header(&self) -> bool
        ensures { result ≡ self.now.has_header }
    {
        self.has_header
    }

    /// Makes room, so that this many appends of bodies of at most this many bytes take no memory. At an `Err` the
    /// journal is as it was, and may have more room.
    pub fn reserve(&mut self, entries: u32, bytes: usize) -> Result<(), NoMemory>
        ensures reserved { OnOk result ((entries ≤ self.new.spare) × (min bytes 262144 ≤ self.new.room)) }
        ensures kept { KeepsList self.old self.new }
        ensures sound { self.new.sound ≡ self.old.sound }
    {
        self.places.reserve(entries as usize)?;
        self.block.clear();
        self.block.reserve(bytes.min(262_144) + 5)?;
        Ok(())
    }

    /// Adds an entry with this body, of 1 to 262,144 bytes. At `Ok` it is acknowledged: from then on each crash leaves a
    /// list that has it. A crash at any moment of the call leaves the list from before it, or the list with the body.
    ///
    /// `Full` exactly where the journal's length, 5 and the body's length are above 2^30. `NoMemory` and `Full` come
    /// before any call of the disk, and leave the list as it was. After `Disk` the journal isn't sound.
    pub fn append<P: Disk>(
        &mut self,
        disk: &mut P,
        body: &[u8],
        beat: &mut Beat,
    ) -> Result<(), JournalFault>
        requires some { 1 ≤ length body.now }
        requires short { length body.now ≤ 262144 }
        requires sound { self.old.sound ≡ true }
        requires has_header { self.old.has_header ≡ true }
        requires at { P.observable → IsAt self.old (P.state disk.old) }
        requires order { P.observable → last_of (P.state disk.old).calls ≤ beat.old }

        // Acknowledged: it is on the disk.
        ensures at { P.observable → OnOk result (IsAt self.new (P.state disk.new)) }
        ensures list { P.observable → OnOk result
            (list_of (P.state disk.new).seen ≡ with_last (list_of (P.state disk.old).seen) body.now) }
        ensures bytes { P.observable → OnOk result
            ((P.state disk.new).seen ≡ opened self.old.end (entry_block body.now) (P.state disk.old).seen) }
        ensures grows { OnOk result (GrowsBy (length body.now) self.old self.new) }

        // At each moment it counts as a whole or not at all.
        ensures moments { P.observable → Moments (LeftAt (P.state disk.old)) (LeftAt (P.state disk.new)) beat.old
            (IsBeforeOrAfter (P.state disk.old).seen body.now) }

        // What it answers otherwise, and when.
        ensures full { IfFull result
            (λ len. (len ≡ length_of self.old) × (2 ^ 30 < length_of self.old + 5 + length body.now)) }
        ensures fits { 2 ^ 30 < length_of self.old + 5 + length body.now
            → result ≡ Err (JournalFault.Full (length_of self.old)) }
        ensures prepared { 0 < self.old.spare → length body.now ≤ self.old.room → OnNoMemory result ⊥ }
        ensures cause { OnDisk result (Rose (P.faults disk.old) (P.faults disk.new)) }
        ensures unfit { IfUnfit result (λ _. ⊥) }

        // What it leaves then.
        ensures kept { OnErr result (KeepsList self.old self.new) }
        ensures sound { self.new.sound ≡ sound_after result self.old.sound }
        ensures full_first { IfFull result (λ _. (disk.new ≡ disk.old) × (beat.new ≡ beat.old)) }
        ensures memory_first { OnNoMemory result ((disk.new ≡ disk.old) × (beat.new ≡ beat.old)) }
        ensures order { P.observable → last_of (P.state disk.new).calls ≤ beat.new }
        ensures beat { beat.old ≤ beat.new }
        ensures later { P.faults disk.old ≤ P.faults disk.new }
    {
        let gate = self.end;
        if gate as usize + 6 + body.len() > MAX_LENGTH {
            return Err(JournalFault::Full(gate as u64 + 1));
        }
        self.places.reserve(1)?;
        fill(&mut self.block, body)?;
        match put(disk, gate, &self.block, beat) {
            Ok(()) => {
                let len = body.len() as u32;
                self.places.push(Place { at: gate + 5, len }).unwrap();
                self.end = gate + 5 + len;
                Ok(())
            }
            Err(_) => {
                self.sound = false; // what the disk holds isn't known now
                Err(JournalFault::Disk)
            }
        }
    }

    /// Puts the body of an entry, counted from 0, into the vector in place of what it held. At an `Err` nothing is said of
    /// what the vector holds.
    pub fn entry<P: Disk>(
        &mut self,
        disk: &mut P,
        i: u32,
        into: &mut Vec<u8>,
    ) -> Result<(), JournalFault>
        requires below { i < length self.old.places }
        requires at { P.observable → IsAt self.old (P.state disk.old) }
        ensures body { P.observable → OnOk result
            (IfOk (list_of (P.state disk.old).seen) (λ bodies. slice_get bodies i ≡ Some into.new.items)) }
        ensures same { P.observable → P.state disk.new ≡ P.state disk.old }
        ensures kept { KeepsList self.old self.new }
        ensures sound { self.new.sound ≡ sound_after result self.old.sound }
        ensures cause { OnDisk result (Rose (P.faults disk.old) (P.faults disk.new)) }
        ensures full { IfFull result (λ _. ⊥) }
        ensures unfit { IfUnfit result (λ _. ⊥) }
        ensures later { P.faults disk.old ≤ P.faults disk.new }
    {
        let place = self.places[i as usize];
        match read_into(disk, place.at as u64, place.len as usize, into) {
            Ok(()) => Ok(()),
            Err(JournalFault::Disk) => {
                self.sound = false;
                Err(JournalFault::Disk)
            }
            Err(fault) => Err(fault),
        }
    }
}

// Reads the list of a disk that was synced.
fn load<P: Disk>(alloc: Global, disk: &mut P) -> Result<Journal, JournalFault>
    requires { P.observable → (P.state disk.old).doubt ≡ settled (P.state disk.old).seen }
    ensures opens { P.observable → IfOk result (λ journal. Opens journal (P.state disk.old)) }
    ensures sound { IfOk result (λ journal. journal.sound ≡ true) }
    ensures unfit { P.observable → IfUnfit result (λ at. list_of (P.state disk.old).seen ≡ Err at) }
    ensures same { P.observable → P.state disk.new ≡ P.state disk.old }
    ensures cause { OnDisk result (Rose (P.faults disk.old) (P.faults disk.new)) }
    ensures full { IfFull result (λ _. ⊥) }
    ensures later { P.faults disk.old ≤ P.faults disk.new }
{
    let len = disk.len()?;
    if len == 0 {
        return Ok(Journal {
            places: Vec::new(alloc),
            end: 0,
            has_header: false,
            sound: true,
            block: Vec::new(alloc),
        });
    }
    if len > u32::MAX as u64 {
        return Err(JournalFault::NoMemory);
    }
    let mut bytes = Vec::new(alloc);
    read_into(disk, 0, len as usize, &mut bytes)?;
    let Index { places, end } = scan(alloc, &bytes)?;
    Ok(Journal {
        places,
        end,
        has_header: true,
        sound: true,
        block: Vec::new(alloc),
    })
}
