//! What a node does with what comes next in one of its sessions, and with one that it leaves.
ghost use Rattle.std.specs.Prelude.{◌≡◌, ◌≢◌, ◌≤◌, ◌<◌, ◌⊎◌, ℕ, length, slice_get, slice_set, true, Some, None, Ok, Err, OnOk, IfOk, IfErr};
ghost use Rattle.cd_outside.specs.Counts.{Rose};
ghost use Rattle.cd_outside.specs.Lines.{NeverFell};
ghost use Rattle.cd_journal.specs.Journal.{length_of};
ghost use Rattle.cd_rules.specs.Legal.{is_legal};
ghost use Rattle.cd_rules.specs.Promises.{HavePriorities};
ghost use Rattle.cd_effects.specs.Joint.{JointAt};
ghost use Rattle.cd_effects.specs.Stands.{IsFaultOfRecording};
ghost use Rattle.cd_exchange.specs.declared.session.Session.{Session};
ghost use Rattle.cd_plain.specs.Crash.{NodeLeaves, LeaveLeaves};
ghost use Rattle.cd_plain.specs.NodeState.{is_gone, HasHome, IsReady};
ghost use Rattle.cd_plain.specs.Turned.{handled_of, in_phase, is_open_as, place_of, told, HadTurn, NoTurn, FailedTurn, WasLeft, FailedLeaving};

use crate::handled::Handled;
use crate::node::Node;
use cd_book::Texts;
use cd_effects::Fault;
use cd_exchange::{Ending, PlainRules, Session, on_end, take_turn};
use cd_outside::{Beat, Disk, Files, Lines, Sid};
use cd_protocol::Phase;
use cd_types::Moment;
use std::mem;

fn is_gone(phase: &Phase) -> bool
    ensures { result ≡ is_gone phase.now }
{
    match phase {
        Phase::Gone => true,
        _ => false,
    }
}

fn is_open_as(session: &Session, sid: Sid) -> bool
    ensures { result ≡ is_open_as sid.number session.now }
{
    session.sid.number == sid.number && !is_gone(&session.phase)
}

/// Where the open session of a number stands among these.
fn place_of(sessions: &[Session], sid: Sid) -> Option<usize>
    ensures { result ≡ place_of sid.number sessions.now }
{
    sessions.iter().position(|session| is_open_as(session, sid))
}

/// A session that is gone is closed on this side too, so that its partner finds its end.
fn close_gone<L: Lines>(lines: &mut L, sid: Sid, phase: &Phase)
    requires from { 1 ≤ sid.number }
    requires to { sid.number ≤ L.last lines.old }
    ensures same { L.observable → L.traffic lines.new ≡ L.traffic lines.old }
    ensures last { L.last lines.new ≡ L.last lines.old }
    ensures later { NeverFell (L.counts lines.old) (L.counts lines.new) }
    ensures nones { (L.counts lines.new).nones ≡ (L.counts lines.old).nones }
{
    if is_gone(phase) {
        lines.close(sid);
    }
}

/// The session at a place is in this phase from now on; its phase until now is answered.
fn swap_phase(sessions: &mut Vec<Session>, at: usize, phase: Phase) -> Phase
    requires { at < length sessions.old.items }
    ensures swapped { (s : Session) → slice_get sessions.old.items at ≡ Some s → (result ≡ s.phase) × (sessions.new.items ≡ slice_set sessions.old.items at (in_phase phase s)) }
    ensures length { length sessions.new.items ≡ length sessions.old.items }
{
    mem::replace(&mut sessions[at].phase, phase)
}

fn handled(ending: Ending, sid: Sid) -> Handled
    ensures { result ≡ handled_of ending sid }
{
    match ending {
        Ending::Went => Handled::Went,
        Ending::Lost => Handled::Lost(sid),
        Ending::Troubled => Handled::Aborted(sid),
    }
}

impl<T: Texts> Node<T> {
    /// What comes next in an open session is handled: its next frame, or its end. Where no open session has the number, that session is
    /// lost, and nothing is done. A session that is gone then is closed on this side, so that its partner finds its end.
    ///
    /// A fault of the files or of the session is handled, so `Err` is `Disk`, where the count of the journal's faults rose, `JournalFull`,
    /// which tells the journal's length, or `NoMemory`. After each `Err` the home has to be opened again. A crash at any moment leaves what
    /// a first part of one of the turn's rows leaves.
    pub fn turn<D: Disk, F: Files, L: Lines>(
        &mut self,
        sid: Sid,
        now: Moment,
        disk: &mut D,
        files: &mut F,
        lines: &mut L,
        beat: &mut Beat,
    ) -> Result<Handled, Fault>
        requires priorities { HavePriorities T.read }
        requires ready { IsReady D.observable F.observable L.observable T.read self.old (D.state disk.old) (F.state files.old) (L.traffic lines.old) beat.old (L.last lines.old) now }

        // What is done.
        ensures turned { IfOk result (λ handled. HadTurn F.observable L.observable T.read now sid handled self.old self.new
            (told (F.state files.old).shelf (F.faults files.old) (L.traffic lines.old) (L.counts lines.old)) (told (F.state files.new).shelf (F.faults files.new) (L.traffic lines.new) (L.counts lines.new))
            ⊎ NoTurn sid handled self.old self.new
            (told (F.state files.old).shelf (F.faults files.old) (L.traffic lines.old) (L.counts lines.old)) (told (F.state files.new).shelf (F.faults files.new) (L.traffic lines.new) (L.counts lines.new))) }
        ensures failed { IfErr result (λ fault. FailedTurn F.observable L.observable T.read now sid fault self.old self.new
            (told (F.state files.old).shelf (F.faults files.old) (L.traffic lines.old) (L.counts lines.old)) (told (F.state files.new).shelf (F.faults files.new) (L.traffic lines.new) (L.counts lines.new))) }
        ensures none { place_of sid.number self.old.sessions ≡ None
            → (result ≡ Ok (Handled.Lost sid)) × (self.new ≡ self.old) × (disk.new ≡ disk.old) × (files.new ≡ files.old) × (lines.new ≡ lines.old) × (beat.new ≡ beat.old) }

        // What a crash leaves at each moment.
        ensures crash { D.observable → F.observable → (place_of sid.number self.old.sessions ≡ None)
            ⊎ NodeLeaves F.observable L.observable T.read now sid self.old (told (F.state files.old).shelf (F.faults files.old) (L.traffic lines.old) (L.counts lines.old))
            (JointAt (D.state disk.old) (F.state files.old)) (JointAt (D.state disk.new) (F.state files.new)) beat.old }

        // What stands then.
        ensures ready { OnOk result (IsReady D.observable F.observable L.observable T.read self.new (D.state disk.new) (F.state files.new) (L.traffic lines.new) beat.new (L.last lines.new) now) }
        ensures home { result ≢ Err Fault.Disk → HasHome D.observable T.read self.new (D.state disk.new) beat.new now }
        ensures legal { is_legal T.read self.new.registry.entries ≡ true }
        ensures config { self.new.config ≡ self.old.config }
        ensures full { (len : ℕ) → result ≡ Err (Fault.JournalFull len) → length_of self.new.registry.journal ≡ len }

        // Why it fails: a fault of the files or of the session is handled.
        ensures fault { IfErr result IsFaultOfRecording }
        ensures disk { result ≡ Err Fault.Disk → Rose (D.faults disk.old) (D.faults disk.new) }
        ensures files { result ≡ Err Fault.Files → Rose (F.faults files.old) (F.faults files.new) }
        ensures line { result ≡ Err Fault.Line → Rose ((L.counts lines.old).faults sid.number) ((L.counts lines.new).faults sid.number) }

        ensures beat { beat.old ≤ beat.new }
        ensures last { L.last lines.new ≡ L.last lines.old }
        ensures disk_later { D.faults disk.old ≤ D.faults disk.new }
        ensures files_later { F.faults files.old ≤ F.faults files.new }
        ensures lines_later { NeverFell (L.counts lines.old) (L.counts lines.new) }
        ensures nones { (L.counts lines.new).nones ≡ (L.counts lines.old).nones }
    {
        let Some(at) = place_of(&self.sessions, sid) else {
            return Ok(Handled::Lost(sid));
        };
        let rules = PlainRules {
            config: &self.config,
        };
        let mut phase = swap_phase(&mut self.sessions, at, Phase::Gone);
        let ending = take_turn(
            self.alloc,
            &rules,
            &mut self.registry,
            &self.sessions,
            &mut phase,
            &mut self.readers[at],
            &mut self.owners,
            sid,
            now,
            disk,
            files,
            lines,
            &mut self.buffer,
            beat,
        );
        match ending {
            Ok(ending) => {
                close_gone(lines, sid, &phase);
                swap_phase(&mut self.sessions, at, phase);
                Ok(handled(ending, sid))
            }
            Err(fault) => {
                swap_phase(&mut self.sessions, at, phase);
                Err(fault)
            }
        }
    }

    /// An open session is left: that counts as its end, and it is closed on this side, so that its partner finds its end too. Where no
    /// open session has the number, that session is lost, and nothing is done.
    ///
    /// The causes of faults are those of a turn. After each `Err` the home has to be opened again. A crash at any moment leaves what a first
    /// part of that end leaves.
    pub fn leave<D: Disk, F: Files, L: Lines>(
        &mut self,
        sid: Sid,
        now: Moment,
        disk: &mut D,
        files: &mut F,
        lines: &mut L,
        beat: &mut Beat,
    ) -> Result<Handled, Fault>
        requires priorities { HavePriorities T.read }
        requires ready { IsReady D.observable F.observable L.observable T.read self.old (D.state disk.old) (F.state files.old) (L.traffic lines.old) beat.old (L.last lines.old) now }

        // What is done.
        ensures left { IfOk result (λ handled. WasLeft F.observable L.observable T.read now sid handled self.old self.new
            (told (F.state files.old).shelf (F.faults files.old) (L.traffic lines.old) (L.counts lines.old)) (told (F.state files.new).shelf (F.faults files.new) (L.traffic lines.new) (L.counts lines.new))
            ⊎ NoTurn sid handled self.old self.new
            (told (F.state files.old).shelf (F.faults files.old) (L.traffic lines.old) (L.counts lines.old)) (told (F.state files.new).shelf (F.faults files.new) (L.traffic lines.new) (L.counts lines.new))) }
        ensures failed { IfErr result (λ fault. FailedLeaving F.observable L.observable T.read now sid fault self.old self.new
            (told (F.state files.old).shelf (F.faults files.old) (L.traffic lines.old) (L.counts lines.old)) (told (F.state files.new).shelf (F.faults files.new) (L.traffic lines.new) (L.counts lines.new))) }
        ensures none { place_of sid.number self.old.sessions ≡ None
            → (result ≡ Ok (Handled.Lost sid)) × (self.new ≡ self.old) × (disk.new ≡ disk.old) × (files.new ≡ files.old) × (lines.new ≡ lines.old) × (beat.new ≡ beat.old) }

        // What a crash leaves at each moment.
        ensures crash { D.observable → F.observable → (place_of sid.number self.old.sessions ≡ None)
            ⊎ LeaveLeaves F.observable T.read now sid self.old (told (F.state files.old).shelf (F.faults files.old) (L.traffic lines.old) (L.counts lines.old))
            (JointAt (D.state disk.old) (F.state files.old)) (JointAt (D.state disk.new) (F.state files.new)) beat.old }

        // What stands then.
        ensures ready { OnOk result (IsReady D.observable F.observable L.observable T.read self.new (D.state disk.new) (F.state files.new) (L.traffic lines.new) beat.new (L.last lines.new) now) }
        ensures home { result ≢ Err Fault.Disk → HasHome D.observable T.read self.new (D.state disk.new) beat.new now }
        ensures legal { is_legal T.read self.new.registry.entries ≡ true }
        ensures config { self.new.config ≡ self.old.config }
        ensures full { (len : ℕ) → result ≡ Err (Fault.JournalFull len) → length_of self.new.registry.journal ≡ len }

        // Why it fails: a fault of the files or of the session is handled.
        ensures fault { IfErr result IsFaultOfRecording }
        ensures disk { result ≡ Err Fault.Disk → Rose (D.faults disk.old) (D.faults disk.new) }
        ensures files { result ≡ Err Fault.Files → Rose (F.faults files.old) (F.faults files.new) }
        ensures line { result ≡ Err Fault.Line → Rose ((L.counts lines.old).faults sid.number) ((L.counts lines.new).faults sid.number) }

        ensures beat { beat.old ≤ beat.new }
        ensures last { L.last lines.new ≡ L.last lines.old }
        ensures disk_later { D.faults disk.old ≤ D.faults disk.new }
        ensures files_later { F.faults files.old ≤ F.faults files.new }
        ensures lines_later { NeverFell (L.counts lines.old) (L.counts lines.new) }
        ensures nones { (L.counts lines.new).nones ≡ (L.counts lines.old).nones }
    {
        let Some(at) = place_of(&self.sessions, sid) else {
            return Ok(Handled::Lost(sid));
        };
        let rules = PlainRules {
            config: &self.config,
        };
        let mut phase = swap_phase(&mut self.sessions, at, Phase::Gone);
        let ending = on_end(
            self.alloc,
            &rules,
            &mut self.registry,
            &mut phase,
            &mut self.owners,
            sid,
            now,
            disk,
            files,
            lines,
            beat,
        );
        match ending {
            Ok(()) => {
                close_gone(lines, sid, &phase);
                swap_phase(&mut self.sessions, at, phase);
                Ok(Handled::Lost(sid))
            }
            Err(fault) => {
                swap_phase(&mut self.sessions, at, phase);
                Err(fault)
            }
        }
    }
}
