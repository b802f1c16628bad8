//! A node of a drill, with its devices in memory.
ghost use Rattle.std.specs.Prelude.{◌≡◌, ◌∷◌, [], true, false, IfOk, OnOk, option_map, slice_get};
ghost use Rattle.cd_memory_state.specs.Names.{AreNames};
ghost use Rattle.cd_outside.specs.declared.sid.Sid.{Sid};
ghost use Rattle.cd_entries.specs.declared.entry.Entry.TheVariants.{Home};
ghost use Rattle.cd_memory.specs.MemoryLines.{traffic_of};
ghost use Rattle.cd_drill.specs.Commanded.{WasDone};
ghost use Rattle.cd_drill.specs.AtRest.{IsAtRest, entries_of, seen_of, names_in, only_partner, IsSetUp, IsFresh, TookTurn, Chose, Took, WasPut, WasOffered, FilesFail};
ghost use Rattle.cd_session_rules.specs.NodeView.{partner_in};
ghost use Rattle.std.specs.Prelude.{List, ℕ};

use cd_book::Book;
use cd_canonical::{Canonical, law_of_readings};
use cd_commands::Command;
use cd_effects::{Fault, Registry};
use cd_exchange::Session;
use cd_memory::{FaultScript, MemoryDisk, MemoryFiles, MemoryLines};
use cd_operator::{Reply, law_of_doings};
use cd_outside::{Beat, Sid};
use cd_plain::{Handled, Node};
use cd_session_rules::{Config, Partner, Waits};
use cd_types::{Moment, NoMemory, NodeName};
use std::alloc::Global;

/// The waits for a partner of which nothing else is known.
const WAITS: Waits = Waits {
    short: 30,
    short_attempts: 6,
    long: 600,
    long_attempts: 6,
};

/// A node with its disk, its files and its lines, the beat of these devices, and the moment. After a fault it isn't used any more.
#[derive(Drop)]
pub struct TestNode {
    node: Node<Canonical>,
    disk: MemoryDisk,
    files: MemoryFiles,
    lines: MemoryLines,
    beat: Beat,
    moment: Moment,
}

/// Ends the life of a disk. A device has many parts, and what ends it is laid out wherever it ends: so each kind ends in one place.
fn close_disk(disk: MemoryDisk) {
    drop(disk);
}

/// Ends the life of files.
fn close_files(files: MemoryFiles) {
    drop(files);
}

/// Ends the life of lines.
fn close_lines(lines: MemoryLines) {
    drop(lines);
}

/// No call fails.
fn quiet(alloc: Global) -> FaultScript
    ensures { result ≡ [] }
{
    FaultScript::new(Vec::new(alloc))
}

/// What a node is set up with that knows one partner.
fn config(alloc: Global, partner: NodeName) -> Result<Config, NoMemory>
    ensures block { IfOk result (λ config. config.block ≡ 8192) }
    ensures partners { IfOk result (λ config. (name : List ℕ) → partner_in config.partners.items name ≡ only_partner partner name) }
{
    let mut partners = Vec::new(alloc);
    partners.push(Partner {
        name: partner,
        waits: WAITS,
    })?;
    Ok(Config {
        block: 8192,
        partners,
    })
}

/// A node that is set up so, over new devices. Its journal has no entry.
fn empty(alloc: Global, config: Config, now: Moment) -> Result<TestNode, Fault>
    requires { config.block ≡ 8192 }
    ensures rest { IfOk result (λ half. IsAtRest half) }
    ensures none { IfOk result (λ half. entries_of half ≡ []) }
    ensures set_up { IfOk result (λ half. half.node.config ≡ config) }
    ensures fresh { IfOk result (IsFresh now) }
{
    let Ok(mut disk) = MemoryDisk::new(alloc, quiet(alloc)) else {
        return Err(Fault::NoMemory);
    };
    let Ok(files) = MemoryFiles::new(alloc, quiet(alloc)) else {
        close_disk(disk);
        return Err(Fault::NoMemory);
    };
    let Ok(lines) = MemoryLines::new(alloc, quiet(alloc)) else {
        close_disk(disk);
        close_files(files);
        return Err(Fault::NoMemory);
    };
    let mut beat = Beat::new();
    let Ok(registry) = Registry::make(alloc, Canonical, &mut disk, &mut beat) else {
        close_disk(disk);
        close_files(files);
        close_lines(lines);
        return Err(Fault::NoMemory);
    };
    Ok(TestNode {
        node: Node::new(alloc, config, registry),
        disk,
        files,
        lines,
        beat,
        moment: now,
    })
}

impl TestNode {
    /// A node of this name and number, which knows this partner. Its journal has its Home alone, and it has no files.
    pub fn new(
        alloc: Global,
        name: NodeName,
        number: u64,
        partner: NodeName,
        now: Moment,
    ) -> Result<TestNode, Fault>
        ensures rest { IfOk result (λ half. IsAtRest half) }
        ensures home { IfOk result (λ half. entries_of half ≡ Home name number ∷ []) }
        ensures set_up { IfOk result (IsSetUp partner) }
        ensures fresh { IfOk result (IsFresh now) }
    {
        let Ok(config) = config(alloc, partner) else {
            return Err(Fault::NoMemory);
        };
        let mut half = match empty(alloc, config, now) {
            Ok(half) => half,
            Err(fault) => return Err(fault),
        };
        law_of_doings();
        match half.command(alloc, Command::Init(name, number)) {
            Ok(_) => Ok(half),
            Err(fault) => {
                half.close();
                Err(fault)
            }
        }
    }

    /// Its life ends.
    pub fn close(self) {
        drop(self);
    }

    /// The node.
    pub fn node(&self) -> &Node<Canonical>
        ensures { result.now ≡ self.now.node }
    {
        &self.node
    }

    /// The moment.
    pub fn moment(&self) -> Moment
        ensures { result ≡ self.now.moment }
    {
        self.moment
    }

    /// What it has recorded.
    pub fn book(&self) -> &Book<Canonical>
        ensures { (result.now).entries ≡ entries_of self.now }
    {
        self.node.registry().book()
    }

    /// Its sessions, as they came.
    pub fn sessions(&self) -> &[Session]
        ensures { result.now ≡ self.now.node.sessions }
    {
        self.node.sessions()
    }

    /// The bytes that it gave to a session.
    pub fn given(&self, sid: Sid) -> &[u8]
        ensures { result.now ≡ (traffic_of self.now.lines).given sid.number }
    {
        self.lines.given(sid.number)
    }

    /// The bytes that it took of a session.
    pub fn taken(&self, sid: Sid) -> &[u8]
        ensures { result.now ≡ (traffic_of self.now.lines).taken sid.number }
    {
        self.lines.taken(sid.number)
    }

    /// The bytes of its file of this name.
    pub fn file(&self, name: &[u8]) -> Option<&[u8]>
        ensures { option_map (λ bytes. bytes.now) result ≡ seen_of self.now name.now }
    {
        self.files.get(name)
    }

    /// The name of its file at this place, in the order of names.
    pub fn file_name(&self, at: usize) -> Option<&[u8]>
        ensures name { option_map (λ name. name.now) result ≡ slice_get (names_in self.now) at }
        ensures names { AreNames (names_in self.now) (seen_of self.now) }
    {
        self.files.name(at)
    }

    /// Its file of this name has these bytes from now on.
    pub fn put(&mut self, name: &[u8], bytes: &[u8]) -> Result<(), NoMemory>
        requires { IsAtRest self.old }
        ensures rest { OnOk result (IsAtRest self.new) }
        ensures put { OnOk result (WasPut name.now bytes.now self.old self.new) }
    {
        self.files.put(name, bytes)?;
        Ok(())
    }

    /// The k-th next call of its files fails.
    pub fn fail_files(&mut self, k: u64) -> Result<(), NoMemory>
        requires { IsAtRest self.old }
        ensures rest { OnOk result (IsAtRest self.new) }
        ensures fails { OnOk result (FilesFail k self.old self.new) }
    {
        self.files.fail(k)?;
        Ok(())
    }

    /// These bytes come to it in a session.
    pub fn offer(&mut self, sid: Sid, bytes: &[u8]) -> Result<(), NoMemory>
        requires { IsAtRest self.old }
        ensures rest { OnOk result (IsAtRest self.new) }
        ensures offered { OnOk result (WasOffered sid bytes.now self.old self.new) }
    {
        self.lines.offer(sid.number, bytes, None)?;
        Ok(())
    }

    /// It does a command, and replies.
    pub fn command(&mut self, alloc: Global, command: Command) -> Result<Reply, Fault>
        requires { IsAtRest self.old }
        ensures rest { OnOk result (IsAtRest self.new) }
        ensures done { IfOk result (λ reply. WasDone command reply self.old self.new) }
    {
        match cd_operator::command(
            alloc,
            &mut self.node,
            command,
            self.moment,
            &mut self.disk,
            &mut self.beat,
        ) {
            Ok(reply) => Ok(reply),
            Err(fault) => Err(fault),
        }
    }

    /// What comes next in a session is handled.
    pub fn turn(&mut self, sid: Sid) -> Result<Handled, Fault>
        requires { IsAtRest self.old }
        ensures rest { OnOk result (IsAtRest self.new) }
        ensures turned { IfOk result (λ answer. TookTurn sid answer self.old self.new) }
    {
        law_of_readings();
        match self.node.turn(
            sid,
            self.moment,
            &mut self.disk,
            &mut self.files,
            &mut self.lines,
            &mut self.beat,
        ) {
            Ok(handled) => Ok(handled),
            Err(fault) => Err(fault),
        }
    }

    /// A session begins for the Process that is due.
    pub fn choose(&mut self) -> Result<Handled, Fault>
        requires { IsAtRest self.old }
        ensures rest { OnOk result (IsAtRest self.new) }
        ensures chose { IfOk result (λ answer. Chose answer self.old self.new) }
    {
        match self.node.choose(
            self.moment,
            &mut self.disk,
            &mut self.files,
            &mut self.lines,
            &mut self.beat,
        ) {
            Ok(handled) => Ok(handled),
            Err(fault) => Err(fault),
        }
    }

    /// A session that the other node began is taken.
    pub fn accept(&mut self) -> Result<Handled, Fault>
        requires { IsAtRest self.old }
        ensures rest { OnOk result (IsAtRest self.new) }
        ensures took { IfOk result (λ answer. Took answer self.old self.new) }
    {
        let Ok(()) = self.lines.incoming(1) else {
            return Err(Fault::NoMemory);
        };
        match self.node.accept(&mut self.lines) {
            Ok(handled) => Ok(handled),
            Err(fault) => Err(fault),
        }
    }
}
