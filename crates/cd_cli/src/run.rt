//! A run of the node: the input is read on, and each command in it is a turn.
ghost use Rattle.std.specs.Prelude.{◌≡◌, ◌⊎◌, ◌≤◌, ◌<◌, ◌++◌, ◌∷◌, [], List, Bool, true, false, length, OnOk, OnErr, IfOk, IfErr};
ghost use Rattle.cd_outside.specs.Counts.{Rose};
ghost use Rattle.cd_outside.specs.Disk.{last_of, LeftAt};
ghost use Rattle.cd_outside.specs.Moments.{Moments};
ghost use Rattle.cd_entries.specs.declared.entry.Entry.{Entry};
ghost use Rattle.cd_input.specs.Input.{scan_after, end_events, limit_events, begin};
ghost use Rattle.cd_input.specs.Scanner.{event_of, events_of};
ghost use Rattle.cd_turn.specs.Home.{StandsFor, IsHome, IsFit, IsUnfit};
ghost use Rattle.cd_turn.specs.Legal.{IsLegal};
ghost use Rattle.cd_turn.specs.Status.{last_line};
ghost use Rattle.cd_cli.specs.Flow.{was_refused};
ghost use Rattle.cd_cli.specs.Complete.{turns_at, Completes, TurnsAway};
ghost use Rattle.cd_cli.specs.Run.{most_input, run_events, EachFits, EndedBy, GoneOn, TurnsMayLeave, RunMayLeave, TookLine, IfBetween, Ran, Came, Served};
ghost use Rattle.cd_cli.specs.Told.{GoesBy};
ghost use Rattle.cd_cli.specs.Stretch.{standing, HaveTurned, Halted, Went, Finishes};

use crate::flow::{Flow, Last, flow_of};
use crate::reader::Reader;
use crate::telling::tell_last;
use cd_drill_command::show_for;
use cd_input::{Found, Scanner};
use cd_journal::JournalFault;
use cd_outside::{Beat, Clock, Disk, Files, Sink, Source};
use cd_turn::{Home, Status, hear_found, make_turn, order_of};
use std::alloc::Global;

/// The most bytes of the input that are read.
const MAX_INPUT: usize = 16_777_216;

// Does what came to its end.
#[tactic(auto, using(crate::proofs::Leaving::rests_turns))]
fn found_turn<P: Disk, F: Files, C: Clock, O: Sink>(
    alloc: Global,
    home: &mut Home,
    found: &Found,
    journal: &mut P,
    files: &mut F,
    clock: &mut C,
    out: &mut O,
    beat: &mut Beat,
) -> Result<Flow, Status>
    requires legal { IsLegal home.old.entries }
    requires sound { home.old.journal.sound ≡ true }
    requires home { P.observable → IsHome home.old (P.state journal.old) }
    requires order { P.observable → last_of (P.state journal.old).calls ≤ beat.old }
    ensures went { IfOk result (λ flow. (was : Bool) → Went P.observable O.observable (GoesBy C.observable F.observable (C.moment clock.old) (F.state files.old).shelf.seen (Rose (F.faults files.old) (F.faults files.new))) (standing home.old.entries (O.taken out.old) was)
        (event_of found.now ∷ []) home.new.entries (O.taken out.new) flow) }
    ensures halted { IfErr result (λ status. (was : Bool) → Halted ((P.state journal.old).seen ≡ []) P.observable O.observable (GoesBy C.observable F.observable (C.moment clock.old) (F.state files.old).shelf.seen (Rose (F.faults files.old) (F.faults files.new))) (standing home.old.entries (O.taken out.old) was)
        (event_of found.now ∷ []) (P.state journal.new) (O.taken out.new) status) }
    ensures legal { OnOk result (IsLegal home.new.entries) }
    ensures sound { OnOk result (home.new.journal.sound ≡ true) }
    ensures goes { P.observable → OnOk result (GoneOn home.old.entries (P.state journal.old) beat.old home.new (P.state journal.new) beat.new) }
    ensures moments { P.observable → Moments (LeftAt (P.state journal.old)) (LeftAt (P.state journal.new)) beat.old
        (TurnsMayLeave ((P.state journal.old).seen ≡ []) (Unit {0}) (GoesBy C.observable F.observable (C.moment clock.old) (F.state files.old).shelf.seen (Rose (F.faults files.old) (F.faults files.new))) home.old.entries (event_of found.now ∷ [])) }
    ensures reason { IfErr result (EndedBy (Rose (P.faults journal.old) (P.faults journal.new)) (λ _. P.observable → ⊥) ⊥ (Rose (O.faults out.old) (O.faults out.new))) }
    ensures clock { C.observable → C.moment clock.new ≡ C.moment clock.old }
    ensures files { F.observable → F.state files.new ≡ F.state files.old }
    ensures later_files { F.faults files.old ≤ F.faults files.new }
    ensures order { P.observable → last_of (P.state journal.new).calls ≤ beat.new }
    ensures beat { beat.old ≤ beat.new }
    ensures later { P.faults journal.old ≤ P.faults journal.new }
    ensures later_out { O.faults out.old ≤ O.faults out.new }
{
    let said = match hear_found(alloc, found) {
        Ok(said) => said,
        Err(_) => return Err(Status::NoMemory),
    };
    let shown = match show_for(alloc, &said, files) {
        Ok(shown) => shown,
        Err(_) => return Err(Status::NoMemory),
    };
    let order = match order_of(alloc, said, &shown) {
        Ok(order) => order,
        Err(_) => return Err(Status::NoMemory),
    };
    let now = clock.now();
    match make_turn(alloc, home, &order, now, journal, out, beat) {
        Ok(reply) => Ok(flow_of(found, &reply)),
        Err(status) => Err(status),
    }
}

// Takes one byte more, and does what came to its end with it.
#[tactic(auto, using(crate::proofs::Leaving::rests_turns))]
fn byte_turn<P: Disk, F: Files, C: Clock, O: Sink>(
    alloc: Global,
    home: &mut Home,
    scanner: &mut Scanner,
    byte: u8,
    last: Last,
    journal: &mut P,
    files: &mut F,
    clock: &mut C,
    out: &mut O,
    beat: &mut Beat,
) -> Result<Flow, Status>
    requires legal { IsLegal home.old.entries }
    requires sound { home.old.journal.sound ≡ true }
    requires home { P.observable → IsHome home.old (P.state journal.old) }
    requires order { P.observable → last_of (P.state journal.old).calls ≤ beat.old }
    ensures went { IfOk result (λ flow. Went P.observable O.observable (GoesBy C.observable F.observable (C.moment clock.old) (F.state files.old).shelf.seen (Rose (F.faults files.old) (F.faults files.new))) (standing home.old.entries (O.taken out.old) (was_refused last))
        (scan_after scanner.old byte).1 home.new.entries (O.taken out.new) flow) }
    ensures halted { IfErr result (λ status. Halted ((P.state journal.old).seen ≡ []) P.observable O.observable (GoesBy C.observable F.observable (C.moment clock.old) (F.state files.old).shelf.seen (Rose (F.faults files.old) (F.faults files.new))) (standing home.old.entries (O.taken out.old) (was_refused last))
        (scan_after scanner.old byte).1 (P.state journal.new) (O.taken out.new) status) }
    ensures scanner { OnOk result (scanner.new ≡ (scan_after scanner.old byte).0) }
    ensures legal { OnOk result (IsLegal home.new.entries) }
    ensures sound { OnOk result (home.new.journal.sound ≡ true) }
    ensures goes { P.observable → OnOk result (GoneOn home.old.entries (P.state journal.old) beat.old home.new (P.state journal.new) beat.new) }
    ensures moments { P.observable → Moments (LeftAt (P.state journal.old)) (LeftAt (P.state journal.new)) beat.old
        (TurnsMayLeave ((P.state journal.old).seen ≡ []) (Unit {0}) (GoesBy C.observable F.observable (C.moment clock.old) (F.state files.old).shelf.seen (Rose (F.faults files.old) (F.faults files.new))) home.old.entries (scan_after scanner.old byte).1) }
    ensures reason { IfErr result (EndedBy (Rose (P.faults journal.old) (P.faults journal.new)) (λ _. P.observable → ⊥) ⊥ (Rose (O.faults out.old) (O.faults out.new))) }
    ensures clock { C.observable → C.moment clock.new ≡ C.moment clock.old }
    ensures files { F.observable → F.state files.new ≡ F.state files.old }
    ensures later_files { F.faults files.old ≤ F.faults files.new }
    ensures order { P.observable → last_of (P.state journal.new).calls ≤ beat.new }
    ensures beat { beat.old ≤ beat.new }
    ensures later { P.faults journal.old ≤ P.faults journal.new }
    ensures later_out { O.faults out.old ≤ O.faults out.new }
{
    match scanner.take(byte) {
        Ok(None) => Ok(Flow::Goes(last)),
        Ok(Some(found)) => match found_turn(alloc, home, &found, journal, files, clock, out, beat) {
            Ok(flow) => Ok(flow),
            Err(status) => Err(status),
        },
        Err(_) => Err(Status::NoMemory),
    }
}

// Does what comes to its end with the input, or at its limit. Where there is nothing, the run ends with the status that is given.
#[tactic(auto, using(crate::proofs::Leaving::rests_turns))]
fn finish<P: Disk, F: Files, C: Clock, O: Sink>(
    alloc: Global,
    home: &mut Home,
    found: Option<Found>,
    if_none: Status,
    journal: &mut P,
    files: &mut F,
    clock: &mut C,
    out: &mut O,
    beat: &mut Beat,
) -> Status
    requires legal { IsLegal home.old.entries }
    requires sound { home.old.journal.sound ≡ true }
    requires home { P.observable → IsHome home.old (P.state journal.old) }
    requires order { P.observable → last_of (P.state journal.old).calls ≤ beat.old }
    requires none { EndedBy ⊥ (λ _. ⊥) ⊥ ⊥ if_none }
    ensures finishes { (was : Bool) → Finishes ((P.state journal.old).seen ≡ []) P.observable O.observable (GoesBy C.observable F.observable (C.moment clock.old) (F.state files.old).shelf.seen (Rose (F.faults files.old) (F.faults files.new))) (standing home.old.entries (O.taken out.old) was) (P.state journal.old)
        (events_of found) if_none home.new.entries (P.state journal.new) (O.taken out.new) result }
    ensures legal { IfBetween result (IsLegal home.new.entries) }
    ensures goes { P.observable → IfBetween result (GoneOn home.old.entries (P.state journal.old) beat.old home.new (P.state journal.new) beat.new) }
    ensures moments { P.observable → Moments (LeftAt (P.state journal.old)) (LeftAt (P.state journal.new)) beat.old
        (TurnsMayLeave ((P.state journal.old).seen ≡ []) (Unit {0}) (GoesBy C.observable F.observable (C.moment clock.old) (F.state files.old).shelf.seen (Rose (F.faults files.old) (F.faults files.new))) home.old.entries (events_of found)) }
    ensures reason { EndedBy (Rose (P.faults journal.old) (P.faults journal.new)) (λ _. P.observable → ⊥) ⊥ (Rose (O.faults out.old) (O.faults out.new)) result }
    ensures order { P.observable → last_of (P.state journal.new).calls ≤ beat.new }
    ensures files { F.observable → F.state files.new ≡ F.state files.old }
    ensures later_files { F.faults files.old ≤ F.faults files.new }
    ensures beat { beat.old ≤ beat.new }
    ensures later { P.faults journal.old ≤ P.faults journal.new }
    ensures later_out { O.faults out.old ≤ O.faults out.new }
{
    let Some(found) = found else {
        return if_none;
    };
    match found_turn(alloc, home, &found, journal, files, clock, out, beat) {
        Ok(flow) => flow.last().status(),
        Err(status) => status,
    }
}

// Reads the input to its end, or up to what ends the run.
fn serve<P: Disk, F: Files, C: Clock, S: Source, O: Sink>(
    alloc: Global,
    home: &mut Home,
    journal: &mut P,
    files: &mut F,
    clock: &mut C,
    input: &mut S,
    out: &mut O,
    beat: &mut Beat,
) -> Status
    requires legal { IsLegal home.old.entries }
    requires sound { home.old.journal.sound ≡ true }
    requires home { P.observable → IsHome home.old (P.state journal.old) }
    requires order { P.observable → last_of (P.state journal.old).calls ≤ beat.old }
    ensures ran { Ran ((P.state journal.old).seen ≡ []) P.observable S.observable O.observable (GoesBy C.observable F.observable (C.moment clock.old) (F.state files.old).shelf.seen (Rose (F.faults files.old) (F.faults files.new))) home.old.entries (O.taken out.old) (S.remaining input.old) (S.remaining input.new)
        (P.state journal.new) (O.taken out.new) result }
    ensures moments { P.observable → Moments (LeftAt (P.state journal.old)) (LeftAt (P.state journal.new)) beat.old
        (TurnsMayLeave ((P.state journal.old).seen ≡ []) S.observable (GoesBy C.observable F.observable (C.moment clock.old) (F.state files.old).shelf.seen (Rose (F.faults files.old) (F.faults files.new))) home.old.entries (run_events (S.remaining input.old))) }
    ensures reason { EndedBy (Rose (P.faults journal.old) (P.faults journal.new)) (λ _. P.observable → ⊥) (Rose (S.faults input.old) (S.faults input.new)) (Rose (O.faults out.old) (O.faults out.new)) result }
    ensures order { P.observable → last_of (P.state journal.new).calls ≤ beat.new }
    ensures files { F.observable → F.state files.new ≡ F.state files.old }
    ensures later_files { F.faults files.old ≤ F.faults files.new }
    ensures beat { beat.old ≤ beat.new }
    ensures later { P.faults journal.old ≤ P.faults journal.new }
    ensures later_out { O.faults out.old ≤ O.faults out.new }
    ensures later_in { S.faults input.old ≤ S.faults input.new }
{
    let mut scanner = Scanner::new(alloc);
    let mut reader = Reader::new();
    let mut last = Last::Done;
    for _i in 0..MAX_INPUT {
        let byte = match reader.next(input) {
            Ok(Some(byte)) => byte,
            Ok(None) => {
                return finish(
                    alloc,
                    home,
                    scanner.end(),
                    last.status(),
                    journal,
                    files,
                    clock,
                    out,
                    beat,
                );
            }
            Err(_) => return Status::SourceFault,
        };
        match byte_turn(
            alloc,
            home,
            &mut scanner,
            byte,
            last,
            journal,
            files,
            clock,
            out,
            beat,
        ) {
            Ok(Flow::Goes(now)) => last = now,
            Ok(Flow::Ends(now)) => return now.status(),
            Err(status) => return status,
        }
    }
    match reader.next(input) {
        Ok(Some(_)) => finish(
            alloc,
            home,
            scanner.over(),
            Status::InputLimit,
            journal,
            files,
            clock,
            out,
            beat,
        ),
        Ok(None) => finish(
            alloc,
            home,
            scanner.end(),
            last.status(),
            journal,
            files,
            clock,
            out,
            beat,
        ),
        Err(_) => Status::SourceFault,
    }
}

// Opens the home, and serves.
fn run<P: Disk, F: Files, C: Clock, S: Source, O: Sink>(
    alloc: Global,
    journal: &mut P,
    files: &mut F,
    clock: &mut C,
    input: &mut S,
    out: &mut O,
    beat: &mut Beat,
) -> Status
    requires { P.observable → last_of (P.state journal.old).calls ≤ beat.old }
    ensures came { Came P.observable S.observable O.observable (GoesBy C.observable F.observable (C.moment clock.old) (F.state files.old).shelf.seen (Rose (F.faults files.old) (F.faults files.new))) (P.state journal.old) (P.state journal.new) (S.remaining input.old) (S.remaining input.new) (O.taken out.old) (O.taken out.new) result }
    ensures moments { P.observable → Moments (LeftAt (P.state journal.old)) (LeftAt (P.state journal.new)) beat.old (RunMayLeave S.observable (GoesBy C.observable F.observable (C.moment clock.old) (F.state files.old).shelf.seen (Rose (F.faults files.old) (F.faults files.new))) (S.remaining input.old) (P.state journal.old)) }
    ensures reason { EndedBy (Rose (P.faults journal.old) (P.faults journal.new)) (λ at. P.observable → IsUnfit (P.state journal.old).seen at) (Rose (S.faults input.old) (S.faults input.new)) (Rose (O.faults out.old) (O.faults out.new)) result }
    ensures order { P.observable → last_of (P.state journal.new).calls ≤ beat.new }
    ensures files { F.observable → F.state files.new ≡ F.state files.old }
    ensures later_files { F.faults files.old ≤ F.faults files.new }
    ensures beat { beat.old ≤ beat.new }
    ensures later { P.faults journal.old ≤ P.faults journal.new }
    ensures later_in { S.faults input.old ≤ S.faults input.new }
    ensures later_out { O.faults out.old ≤ O.faults out.new }
{
    let mut home = match Home::open(alloc, journal, beat) {
        Ok(home) => home,
        Err(JournalFault::Disk) => return Status::DiskFault,
        Err(JournalFault::Full(len)) => return Status::JournalFull(len),
        Err(JournalFault::Unfit(at)) => return Status::Unfit(at),
        Err(JournalFault::NoMemory) => return Status::NoMemory,
    };
    serve(alloc, &mut home, journal, files, clock, input, out, beat)
}

/// Runs the node on the journal: reads commands from the input, and writes the answer to each to the output. A submission
/// gets its number, and is on the disk before the line that acknowledges it is written. A Process that stands in a file is read
/// there, and so is a script that is drilled; no file is changed. It takes no words.
///
/// A run makes turns, one after the other, of the commands of the input, and the status tells how far it came. A crash at any
/// moment leaves a journal of all that was kept before the run, and behind it just what the first of these turns add.
pub fn run_node<P: Disk, F: Files, C: Clock, S: Source, O: Sink>(
    alloc: Global,
    words: &[&str],
    journal: &mut P,
    files: &mut F,
    clock: &mut C,
    input: &mut S,
    out: &mut O,
    beat: &mut Beat,
) -> Status
    requires { P.observable → last_of (P.state journal.old).calls ≤ beat.old }
    // With words it does nothing.
    ensures usage { 0 < length words.now → (result ≡ Status.Usage) × (journal.new ≡ journal.old) × (files.new ≡ files.old) × (clock.new ≡ clock.old) × (input.new ≡ input.old) × (beat.new ≡ beat.old) }
    ensures usage_line { 0 < length words.now → O.observable → TookLine (Rose (O.faults out.old) (O.faults out.new)) (O.taken out.old) (last_line Status.Usage) (O.taken out.new) }
    // What it did, and how far it came.
    ensures served { length words.now ≡ 0 → Served P.observable S.observable O.observable (Rose (O.faults out.old) (O.faults out.new)) (GoesBy C.observable F.observable (C.moment clock.old) (F.state files.old).shelf.seen (Rose (F.faults files.old) (F.faults files.new)))
        (P.state journal.old) (P.state journal.new) (S.remaining input.old) (S.remaining input.new) (O.taken out.old) (O.taken out.new) result }
    // On a journal of a legal list, which may have no bytes, it does all of an input that isn't longer than what is read at most,
    // where each entry fits and no device fails. A drill adds none.
    ensures complete { length words.now ≡ 0 → P.observable → F.observable → C.observable → S.observable → O.observable → (entries : List Entry) → StandsFor (P.state journal.old).seen entries → IsLegal entries
        → length (S.remaining input.old) ≤ most_input → EachFits entries (turns_at (C.moment clock.old) (F.state files.old).shelf.seen (run_events (S.remaining input.old)))
        → (Rose (P.faults journal.old) (P.faults journal.new) → ⊥) → (Rose (F.faults files.old) (F.faults files.new) → ⊥) → (Rose (S.faults input.old) (S.faults input.new) → ⊥) → (Rose (O.faults out.old) (O.faults out.new) → ⊥)
        → Completes (C.moment clock.old) (F.state files.old).shelf.seen entries (S.remaining input.old) (O.taken out.old) (O.taken out.new) result }
    // On other bytes it tells the first wrong place.
    ensures unfit { length words.now ≡ 0 → P.observable → (IsFit (P.state journal.old).seen → ⊥) → TurnsAway (IsUnfit (P.state journal.old).seen) (Rose (P.faults journal.old) (P.faults journal.new)) result }
    // A fault of a device has its cause in this call, and so has a journal that isn't one.
    ensures reason { length words.now ≡ 0 → EndedBy (Rose (P.faults journal.old) (P.faults journal.new)) (λ at. P.observable → IsUnfit (P.state journal.old).seen at) (Rose (S.faults input.old) (S.faults input.new)) (Rose (O.faults out.old) (O.faults out.new)) result }
    // What a crash may leave, at each moment of the call.
    ensures moments { P.observable → Moments (LeftAt (P.state journal.old)) (LeftAt (P.state journal.new)) beat.old (RunMayLeave S.observable (GoesBy C.observable F.observable (C.moment clock.old) (F.state files.old).shelf.seen (Rose (F.faults files.old) (F.faults files.new))) (S.remaining input.old) (P.state journal.old)) }
    ensures order { P.observable → last_of (P.state journal.new).calls ≤ beat.new }
    ensures files { F.observable → F.state files.new ≡ F.state files.old }
    ensures beat { beat.old ≤ beat.new }
{
    if !words.is_empty() {
        tell_last(Status::Usage, out);
        return Status::Usage;
    }
    let status = run(alloc, journal, files, clock, input, out, beat);
    tell_last(status, out);
    status
}
