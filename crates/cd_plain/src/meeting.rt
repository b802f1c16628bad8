//! How a node takes a session of another node, and begins one for the Process that is due.
ghost use Rattle.std.specs.Prelude.{◌≡◌, ◌≢◌, ◌≤◌, ◌<◌, ◌⊎◌, ℕ, true, Some, None, Ok, Err, OnOk, OnErr, IfOk, IfErr};
ghost use Rattle.cd_outside.specs.Counts.{Rose};
ghost use Rattle.cd_outside.specs.Lines.{IsFresh, NeverFell};
ghost use Rattle.cd_types.specs.declared.rows.Row.{Row};
ghost use Rattle.cd_journal.specs.Journal.{length_of};
ghost use Rattle.cd_rules.specs.Queue.{next_due};
ghost use Rattle.cd_rules.specs.Legal.{is_legal};
ghost use Rattle.cd_session_rules.specs.NodeView.{view_of};
ghost use Rattle.cd_plain.specs.Choice.{placing_of, Accepted, GaveOfOne, HasOpened, MadeSession, IsFaultOfAccepting, IsFaultOfPlacing, WasChosen, WasConnected, WasLost};
ghost use Rattle.cd_plain.specs.Chosen.{busy_in, IsKnown, IsPlaced};
ghost use Rattle.cd_plain.specs.NodeState.{IsNewest, KeptSessions, HasHome, HasSessions, IsReady};
ghost use Rattle.cd_plain.specs.Turned.{told};

use crate::choosing::{busy, greet, place};
use crate::handled::Handled;
use crate::node::Node;
use cd_book::Texts;
use cd_effects::Fault;
use cd_outside::{Beat, Disk, Files, Lines, Sid};
use cd_protocol::Phase;
use cd_session_rules::waits_of;
use cd_types::{Moment, Row};

/// The port at which a partner is called, by its name.
const PORT: u16 = 1364;

impl<T: Texts> Node<T> {
    /// The next session of another node is taken. `NoMore` exactly where the lines have none.
    ///
    /// `Line` comes only where the count of listening and accepting rose. After each `Err` the node is as it was, and has its sessions; after
    /// `NoMemory` a session may be left that the node doesn't know.
    pub fn accept<L: Lines>(&mut self, lines: &mut L) -> Result<Handled, Fault>
        requires sessions { HasSessions L.observable self.old (L.traffic lines.old) (L.last lines.old) }
        ensures accepted { IfOk result (λ handled. Accepted handled (L.last lines.old) (L.last lines.new) (L.counts lines.old) (L.counts lines.new) self.old self.new) }
        ensures sessions { HasSessions L.observable self.new (L.traffic lines.new) (L.last lines.new) }
        ensures fresh { L.observable → L.last lines.old < L.last lines.new → IsFresh (L.last lines.new) (L.traffic lines.new) }
        ensures registry { self.new.registry ≡ self.old.registry }
        ensures config { self.new.config ≡ self.old.config }
        ensures holdings { self.new.holdings ≡ self.old.holdings }
        ensures traffic { L.observable → L.traffic lines.new ≡ L.traffic lines.old }
        ensures err { OnErr result (self.new ≡ self.old) }
        ensures fault { IfErr result IsFaultOfAccepting }
        ensures line { result ≡ Err Fault.Line → Rose (L.counts lines.old).accepts (L.counts lines.new).accepts }
        ensures lines_later { NeverFell (L.counts lines.old) (L.counts lines.new) }
    {
        match lines.accept() {
            Ok(Some(sid)) => match self.open(sid, Phase::Fresh) {
                Ok(()) => Ok(Handled::Went),
                Err(fault) => Err(fault),
            },
            Ok(None) => Ok(Handled::NoMore),
            Err(_) => Err(Fault::Line),
        }
    }

    /// A Process whose partner wasn't connected, or can't be called, is placed by the rules.
    fn place<D: Disk>(
        &mut self,
        now: Moment,
        chosen: &Row,
        disk: &mut D,
        beat: &mut Beat,
    ) -> Result<(), Fault>
        requires home { HasHome D.observable T.read self.old (D.state disk.old) beat.old now }
        ensures placed { OnOk result (IsPlaced T.read now (placing_of (view_of T.read self.old.config self.old.registry.entries) now chosen.now) self.old.registry.entries self.new.registry.entries) }
        ensures err { OnErr result (self.new.registry.entries ≡ self.old.registry.entries) }
        ensures kept { KeptSessions self.old self.new }
        ensures config { self.new.config ≡ self.old.config }
        ensures home { result ≢ Err Fault.Disk → HasHome D.observable T.read self.new (D.state disk.new) beat.new now }
        ensures legal { is_legal T.read self.new.registry.entries ≡ true }
        ensures fault { IfErr result (λ fault. IsFaultOfPlacing (placing_of (view_of T.read self.old.config self.old.registry.entries) now chosen.now) fault) }
        ensures full { (len : ℕ) → result ≡ Err (Fault.JournalFull len) → length_of self.new.registry.journal ≡ len }
        ensures disk { result ≡ Err Fault.Disk → Rose (D.faults disk.old) (D.faults disk.new) }
        ensures beat { beat.old ≤ beat.new }
        ensures disk_later { D.faults disk.old ≤ D.faults disk.new }
    {
        match place(
            self.alloc,
            &self.config,
            &mut self.registry,
            now,
            chosen,
            disk,
            beat,
        ) {
            Ok(()) => Ok(()),
            Err(fault) => Err(fault),
        }
    }

    /// The Process that is due next, among those without an open session.
    fn due(&self, now: Moment) -> Result<Option<Row>, Fault>
        ensures { IfOk result (λ due. due ≡ next_due self.now.registry.entries now (busy_in self.now.sessions)) }
    {
        let Ok(busy) = busy(self.alloc, &self.sessions) else {
            return Err(Fault::NoMemory);
        };
        Ok(self.registry.book().next_due(now, &busy))
    }

    /// The Process that is due next is chosen: its partner is connected, and a session begins; or it is placed anew where that fails, or
    /// held where the node can't call its partner. `Idle` exactly where none is due, and then nothing is done. `Lost` where a session
    /// began and failed at once: it is closed, and the Process is placed as where its partner isn't connected.
    ///
    /// `Disk` comes only where the count of the journal's faults rose; `JournalFull` tells the journal's length, and comes only where the
    /// placing makes it longer than 2^30 bytes; where none is due, only `NoMemory` comes. After each `Err` the home has to be opened again.
    pub fn choose<D: Disk, F: Files, L: Lines>(
        &mut self,
        now: Moment,
        disk: &mut D,
        files: &mut F,
        lines: &mut L,
        beat: &mut Beat,
    ) -> Result<Handled, Fault>
        requires ready { IsReady D.observable F.observable L.observable T.read self.old (D.state disk.old) (F.state files.old) (L.traffic lines.old) beat.old (L.last lines.old) now }

        // What is done.
        ensures idle { result ≡ Ok Handled.Idle → (next_due self.old.registry.entries now (busy_in self.old.sessions) ≡ None) × (self.new ≡ self.old)
            × (disk.new ≡ disk.old) × (files.new ≡ files.old) × (lines.new ≡ lines.old) × (beat.new ≡ beat.old) }
        ensures none { IfOk result (λ handled. next_due self.old.registry.entries now (busy_in self.old.sessions) ≡ None → handled ≡ Handled.Idle) }
        ensures chosen { IfOk result (λ handled. (row : Row) → next_due self.old.registry.entries now (busy_in self.old.sessions) ≡ Some row
            → WasChosen F.observable L.observable T.read now row handled self.old self.new
            (told (F.state files.old).shelf (F.faults files.old) (L.traffic lines.old) (L.counts lines.old)) (told (F.state files.new).shelf (F.faults files.new) (L.traffic lines.new) (L.counts lines.new))) }
        ensures made { OnOk result (MadeSession (L.last lines.old) (L.last lines.new) self.old self.new) }
        ensures fresh { L.observable → L.last lines.old < L.last lines.new → IsFresh (L.last lines.new) (L.traffic lines.old) }

        // What is as it was, also where it fails: the files, the bytes taken of sessions, and those given to the ones before it.
        ensures shelf { F.observable → (F.state files.new).shelf ≡ (F.state files.old).shelf }
        ensures taken { L.observable → (L.traffic lines.new).taken ≡ (L.traffic lines.old).taken }
        ensures given { L.observable → (other : ℕ) → other ≤ L.last lines.old → (L.traffic lines.new).given other ≡ (L.traffic lines.old).given other }

        // What stands then.
        ensures ready { OnOk result (IsReady D.observable F.observable L.observable T.read self.new (D.state disk.new) (F.state files.new) (L.traffic lines.new) beat.new (L.last lines.new) now) }
        ensures home { result ≢ Err Fault.Disk → HasHome D.observable T.read self.new (D.state disk.new) beat.new now }
        ensures legal { is_legal T.read self.new.registry.entries ≡ true }
        ensures err { OnErr result (self.new.registry.entries ≡ self.old.registry.entries) }
        ensures config { self.new.config ≡ self.old.config }

        // Why it fails.
        ensures fault { IfErr result (λ fault. (row : Row) → next_due self.old.registry.entries now (busy_in self.old.sessions) ≡ Some row
            → IsFaultOfPlacing (placing_of (view_of T.read self.old.config self.old.registry.entries) now row) fault) }
        ensures idle_fault { IfErr result (λ fault. next_due self.old.registry.entries now (busy_in self.old.sessions) ≡ None
            → (fault ≡ Fault.NoMemory) × (self.new ≡ self.old) × (disk.new ≡ disk.old) × (files.new ≡ files.old) × (lines.new ≡ lines.old) × (beat.new ≡ beat.old)) }
        ensures full { (len : ℕ) → result ≡ Err (Fault.JournalFull len) → length_of self.new.registry.journal ≡ len }
        ensures disk { result ≡ Err Fault.Disk → Rose (D.faults disk.old) (D.faults disk.new) }

        ensures beat { beat.old ≤ beat.new }
        ensures disk_later { D.faults disk.old ≤ D.faults disk.new }
        ensures files_later { F.faults files.old ≤ F.faults files.new }
        ensures lines_later { NeverFell (L.counts lines.old) (L.counts lines.new) }
        ensures nones { (L.counts lines.new).nones ≡ (L.counts lines.old).nones }
    {
        let Ok(due) = self.due(now) else {
            return Err(Fault::NoMemory);
        };
        let Some(chosen) = due else {
            return Ok(Handled::Idle);
        };
        if waits_of(&self.config, &chosen.snode).is_none() {
            return match self.place(now, &chosen, disk, beat) {
                Ok(()) => Ok(Handled::Went),
                Err(fault) => Err(fault),
            };
        }
        match lines.connect(chosen.snode.as_bytes(), PORT) {
            Ok(sid) => match self.connected(sid, now, &chosen, disk, files, lines, beat) {
                Ok(handled) => Ok(handled),
                Err(fault) => Err(fault),
            },
            Err(_) => match self.place(now, &chosen, disk, beat) {
                Ok(()) => Ok(Handled::NotConnected(chosen.number)),
                Err(fault) => Err(fault),
            },
        }
    }

    /// The partner of a Process was connected.
    fn connected<D: Disk, F: Files, L: Lines>(
        &mut self,
        sid: Sid,
        now: Moment,
        chosen: &Row,
        disk: &mut D,
        files: &mut F,
        lines: &mut L,
        beat: &mut Beat,
    ) -> Result<Handled, Fault>
        requires ready { IsReady D.observable F.observable L.observable T.read self.old (D.state disk.old) (F.state files.old) (L.traffic lines.old) beat.old (L.last lines.old) now }
        requires from { 1 ≤ sid.number }
        requires to { sid.number ≤ L.last lines.old }
        requires newest { IsNewest sid.number self.old.sessions }
        requires fresh { L.observable → IsFresh sid.number (L.traffic lines.old) }
        requires known { IsKnown (view_of T.read self.old.config self.old.registry.entries) chosen.now }
        ensures begun { IfOk result (λ handled. WasConnected F.observable L.observable T.read now chosen.now handled self.old self.new
            (told (F.state files.old).shelf (F.faults files.old) (L.traffic lines.old) (L.counts lines.old)) (told (F.state files.new).shelf (F.faults files.new) (L.traffic lines.new) (L.counts lines.new)) sid
            ⊎ WasLost F.observable L.observable T.read now chosen.now handled self.old self.new
            (told (F.state files.old).shelf (F.faults files.old) (L.traffic lines.old) (L.counts lines.old)) (told (F.state files.new).shelf (F.faults files.new) (L.traffic lines.new) (L.counts lines.new)) sid) }
        ensures opened { IfOk result (λ _. HasOpened sid self.old self.new) }
        ensures shelf { F.observable → (F.state files.new).shelf ≡ (F.state files.old).shelf }
        ensures taken { L.observable → (L.traffic lines.new).taken ≡ (L.traffic lines.old).taken }
        ensures given { L.observable → GaveOfOne sid.number (L.traffic lines.old) (L.traffic lines.new) }
        ensures last { L.last lines.new ≡ L.last lines.old }
        ensures ready { OnOk result (IsReady D.observable F.observable L.observable T.read self.new (D.state disk.new) (F.state files.new) (L.traffic lines.new) beat.new (L.last lines.new) now) }
        ensures home { result ≢ Err Fault.Disk → HasHome D.observable T.read self.new (D.state disk.new) beat.new now }
        ensures legal { is_legal T.read self.new.registry.entries ≡ true }
        ensures err { OnErr result (self.new.registry.entries ≡ self.old.registry.entries) }
        ensures config { self.new.config ≡ self.old.config }
        ensures fault { IfErr result (λ fault. IsFaultOfPlacing (placing_of (view_of T.read self.old.config self.old.registry.entries) now chosen.now) fault) }
        ensures full { (len : ℕ) → result ≡ Err (Fault.JournalFull len) → length_of self.new.registry.journal ≡ len }
        ensures disk { result ≡ Err Fault.Disk → Rose (D.faults disk.old) (D.faults disk.new) }
        ensures beat { beat.old ≤ beat.new }
        ensures disk_later { D.faults disk.old ≤ D.faults disk.new }
        ensures files_later { F.faults files.old ≤ F.faults files.new }
        ensures lines_later { NeverFell (L.counts lines.old) (L.counts lines.new) }
        ensures nones { (L.counts lines.new).nones ≡ (L.counts lines.old).nones }
    {
        let mut phase = Phase::Gone;
        match greet(
            self.alloc,
            &self.config,
            &mut self.registry,
            &mut phase,
            &mut self.owners,
            sid,
            now,
            chosen,
            disk,
            files,
            lines,
            beat,
        ) {
            Ok(()) => match self.open(sid, phase) {
                Ok(()) => Ok(Handled::Went),
                Err(fault) => Err(fault),
            },
            Err(Fault::Line) => {
                lines.close(sid);
                match self.open(sid, Phase::Gone) {
                    Ok(()) => match self.place(now, chosen, disk, beat) {
                        Ok(()) => Ok(Handled::Lost(sid)),
                        Err(fault) => Err(fault),
                    },
                    Err(fault) => Err(fault),
                }
            }
            Err(fault) => Err(fault),
        }
    }
}
