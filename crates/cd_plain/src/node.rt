//! A node: what it has recorded, and its sessions.
ghost use Rattle.std.specs.Prelude.{◌≡◌, ◌≢◌, ◌≤◌, ◌<◌, ◌++◌, ◌∷◌, ◌+◌, ◌^◌, ℕ, [], length, true, false, option_map, Ok, Err, OnOk, OnErr, IfErr};
ghost use Rattle.cd_outside.specs.Counts.{Rose};
ghost use Rattle.cd_outside.specs.Disk.{LeftAt};
ghost use Rattle.cd_outside.specs.Moments.{Moments};
ghost use Rattle.cd_entries.specs.Entry.{entry_bytes};
ghost use Rattle.cd_journal.specs.Journal.{length_of};
ghost use Rattle.cd_rules.specs.Legal.{is_legal};
ghost use Rattle.cd_protocol.specs.Node.{Keep};
ghost use Rattle.cd_protocol.specs.Rows.{may_record};
ghost use Rattle.cd_book.specs.Book.{IsRead};
ghost use Rattle.cd_effects.specs.Registry.{IsWithOrWithout};
ghost use Rattle.cd_effects.specs.Stands.{HasFormedOrigin, IsFaultOf};
ghost use Rattle.cd_plain.specs.NodeState.{HasNewReader, KeptSessions, HasHome};

use cd_ast::Process;
use cd_book::Texts;
use cd_effects::{Fault, KeyOwners, Registry};
use cd_entries::Entry;
use cd_exchange::{Session, try_record};
use cd_frames::Reader;
use cd_outside::{Beat, Disk, Sid};
use cd_protocol::Phase;
use cd_session_rules::Config;
use cd_types::Moment;
use std::alloc::Global;
use std::marker::Model;

/// A node. Its devices are handed to each call. Contracts see what it has recorded, how it is set up, its sessions with what was read
/// of each, and which session holds which key.
#[derive(Drop)]
pub struct Node<T: Texts> {
    pub(crate) alloc: Global,
    pub(crate) config: Config,
    pub(crate) registry: Registry<T>,
    /// As they came. A session that is gone stays in the list.
    pub(crate) sessions: Vec<Session>,
    pub(crate) readers: Vec<Reader>,
    pub(crate) owners: KeyOwners,
    pub(crate) buffer: Vec<u8>,
}

impl<T: Texts> Model for Node<T> {
    ghost use Rattle.std.specs.Prelude.{◌≡◌, length, true};
    ghost use Rattle.cd_plain.specs.NodeState.{NodeState};

    ghost Value = { NodeState };

    ghost view = { λ node. record { registry = node.registry; config = node.config; sessions = node.sessions.items; readings = node.readers.items; holdings = node.owners } };

    ghost invariant = { λ node. length node.readers.items ≡ length node.sessions.items };
}

impl<T: Texts> Node<T> {
    /// A node that is set up so, over what it has recorded, with no session. It takes no memory.
    pub fn new(alloc: Global, config: Config, registry: Registry<T>) -> Self
        ensures { result ≡ record { registry = registry; config = config; sessions = []; readings = []; holdings = [] } }
    {
        Node {
            alloc,
            config,
            registry,
            sessions: Vec::new(alloc),
            readers: Vec::new(alloc),
            owners: KeyOwners::new(alloc),
            buffer: Vec::new(alloc),
        }
    }

    /// What it has recorded.
    pub fn registry(&self) -> &Registry<T>
        ensures { result.now ≡ self.now.registry }
    {
        &self.registry
    }

    /// Its sessions, in the order in which they came. Those that are gone are among them.
    pub fn sessions(&self) -> &[Session]
        ensures { result.now ≡ self.now.sessions }
    {
        &self.sessions
    }

    /// A session is there from now on, in this phase. Nothing was read of it yet.
    pub(crate) fn open(&mut self, sid: Sid, phase: Phase) -> Result<(), Fault>
        ensures opened { OnOk result (self.new.sessions ≡ self.old.sessions ++ (record { sid = sid; phase = phase }) ∷ []) }
        ensures read { OnOk result (HasNewReader self.old.readings self.new.readings) }
        ensures registry { self.new.registry ≡ self.old.registry }
        ensures config { self.new.config ≡ self.old.config }
        ensures holdings { self.new.holdings ≡ self.old.holdings }
        ensures err { OnErr result (self.new ≡ self.old) }
        ensures memory { IfErr result (λ fault. fault ≡ Fault.NoMemory) }
    {
        let Ok(reader) = Reader::new(self.alloc) else {
            return Err(Fault::NoMemory);
        };
        let Ok(()) = self.readers.reserve(1) else {
            return Err(Fault::NoMemory);
        };
        let Ok(()) = self.sessions.reserve(1) else {
            return Err(Fault::NoMemory);
        };
        self.readers.push(reader).unwrap();
        self.sessions.push(Session { sid, phase }).unwrap();
        Ok(())
    }

    /// Records an entry where it may be recorded now, and answers whether that was so. With a submission comes the Process that its text
    /// reads as. A crash at any moment of the call leaves the journal from before it, or the journal with the entry.
    ///
    /// `Disk` comes only where the count of the journal's faults rose, and the home has to be opened again then. `JournalFull` comes only
    /// where the entry makes the journal longer than 2^30 bytes; after it, as after `NoMemory`, the journal is as it was.
    pub fn record<D: Disk>(
        &mut self,
        now: Moment,
        entry: Entry,
        process: Option<&Process>,
        disk: &mut D,
        beat: &mut Beat,
    ) -> Result<bool, Fault>
        requires formed { HasFormedOrigin entry }
        requires read { IsRead T.read entry (option_map (λ p. p.now) process) }
        requires home { HasHome D.observable T.read self.old (D.state disk.old) beat.old now }
        ensures kept { result ≡ Ok true → (may_record T.read now self.old.registry.entries entry ≡ true) × (self.new.registry.entries ≡ entry ∷ self.old.registry.entries) }
        ensures refused { result ≡ Ok false → (may_record T.read now self.old.registry.entries entry ≡ false) × (self.new.registry ≡ self.old.registry) × (disk.new ≡ disk.old) × (beat.new ≡ beat.old) }
        ensures fits { result ≡ Ok true → length_of self.old.registry.journal + 5 + length (entry_bytes entry) ≤ 2 ^ 30 }
        ensures err { OnErr result (self.new.registry.entries ≡ self.old.registry.entries) }
        ensures moments { D.observable → result ≢ Ok false → Moments (LeftAt (D.state disk.old)) (LeftAt (D.state disk.new)) beat.old (IsWithOrWithout entry self.old.registry.entries) }
        ensures home { result ≢ Err Fault.Disk → HasHome D.observable T.read self.new (D.state disk.new) beat.new now }
        ensures legal { is_legal T.read self.new.registry.entries ≡ true }
        ensures sessions { KeptSessions self.old self.new }
        ensures config { self.new.config ≡ self.old.config }
        ensures full { (len : ℕ) → result ≡ Err (Fault.JournalFull len) → (len ≡ length_of self.old.registry.journal) × (2 ^ 30 < len + 5 + length (entry_bytes entry)) }
        ensures full_still { (len : ℕ) → result ≡ Err (Fault.JournalFull len) → length_of self.new.registry.journal ≡ len }
        ensures fault { IfErr result (λ fault. IsFaultOf (Keep entry) fault) }
        ensures may { OnErr result (may_record T.read now self.old.registry.entries entry ≡ true) }
        ensures untouched { OnErr result (result ≢ Err Fault.Disk → (disk.new ≡ disk.old) × (beat.new ≡ beat.old)) }
        ensures disk { result ≡ Err Fault.Disk → Rose (D.faults disk.old) (D.faults disk.new) }
        ensures beat { beat.old ≤ beat.new }
        ensures disk_later { D.faults disk.old ≤ D.faults disk.new }
    {
        match try_record(
            &mut self.registry,
            &self.config,
            now,
            disk,
            entry,
            process,
            beat,
        ) {
            Ok(recorded) => Ok(recorded),
            Err(fault) => Err(fault),
        }
    }
}
