//! What is done about a frame.
ghost use Rattle.std.specs.Prelude.{OnErr, IfOk, IfErr};
ghost use Rattle.cd_outside.specs.Moments.{Moments};
ghost use Rattle.cd_frames.specs.Message.{message_of};
ghost use Rattle.cd_rules.specs.Promises.{HavePriorities};
ghost use Rattle.cd_protocol.specs.Node.{Node, does};
ghost use Rattle.cd_protocol.specs.Rows.{first_reaction, most_reactions, row};
ghost use Rattle.cd_effects.specs.Joint.{JointAt, IsWithin};
ghost use Rattle.cd_effects.specs.Stands.{spot, WereDone};
ghost use Rattle.cd_exchange.specs.Going.{AreTold, RowStopped, MayLeave};
ghost use Rattle.cd_exchange.specs.Question.{answers_of};
ghost use Rattle.cd_exchange.specs.Sessions.{IsAt};
ghost use Rattle.cd_exchange.specs.Open.{IsOpen, StaysOpen, Advanced, HasCause, counted, fault_in};

use crate::given::Given;
use crate::row::go_all;
use crate::rules_trait::Rules;
use crate::session::Session;
use cd_book::Texts;
use cd_effects::{Fault, KeyOwners, Registry};
use cd_frames::Frame;
use cd_outside::{Beat, Disk, Files, Lines, Sid};
use cd_protocol::Phase;
use cd_types::Moment;
use std::alloc::Global;

/// Does about a frame of a session all that the rules say, and answers what the files told. The session's phase is lent,
/// and the other sessions are handed in beside it. The bytes that the files told stand in the buffer. The clock's moment
/// isn't earlier than the journal's.
///
/// `Disk`, `Files` and `Line` come only where the count of faults rose of that device, of `Line` that of the session. After
/// `Disk` the journal isn't sound, and is opened again; after any other answer the registry stands.
pub fn on_frame<T: Texts, R: Rules<T>, D: Disk, F: Files, L: Lines>(
    alloc: Global,
    rules: &R,
    registry: &mut Registry<T>,
    others: &[Session],
    phase: &mut Phase,
    owners: &mut KeyOwners,
    sid: Sid,
    now: Moment,
    disk: &mut D,
    files: &mut F,
    lines: &mut L,
    frame: &Frame<'_>,
    buffer: &mut Vec<u8>,
    beat: &mut Beat,
) -> Result<Given, Fault>
    requires priorities { HavePriorities T.read }
    requires home { IsOpen D.observable F.observable T.read now registry.old
        (D.state disk.old) (F.state files.old) sid.number (L.last lines.old) beat.old }

    // What is done.
    ensures done { IfOk result (λ given. (node : Node)
        → IsAt F.observable (R.setting rules.now) T.read sid.number others.now node
        (spot registry.old.entries (F.state files.old).shelf
        phase.old owners.old (L.traffic lines.old))
        → WereDone F.observable L.observable sid.number
        (row node sid.number (answers_of now given buffer.new.items) (message_of frame.now))
        (spot registry.old.entries (F.state files.old).shelf
        phase.old owners.old (L.traffic lines.old))
        (spot registry.new.entries (F.state files.new).shelf
        phase.new owners.new (L.traffic lines.new))) }
    ensures told { F.observable → IfOk result (λ given. (node : Node)
        → IsAt F.observable (R.setting rules.now) T.read sid.number others.now node
        (spot registry.old.entries (F.state files.old).shelf
        phase.old owners.old (L.traffic lines.old))
        → AreTold most_reactions (does sid.number
        (first_reaction node.view node.sessions now sid.number (message_of frame.now)).effects node)
        sid.number (answers_of now given buffer.new.items)
        (first_reaction node.view node.sessions now sid.number (message_of frame.now)).later) }

    // What is done where it fails.
    ensures stopped { IfErr result (λ fault. RowStopped F.observable L.observable sid.number now
        fault (λ node answers. row node sid.number answers (message_of frame.now))
        (λ node. IsAt F.observable (R.setting rules.now) T.read sid.number others.now node
        (spot registry.old.entries (F.state files.old).shelf
        phase.old owners.old (L.traffic lines.old)))
        (spot registry.old.entries (F.state files.old).shelf
        phase.old owners.old (L.traffic lines.old))
        (spot registry.new.entries (F.state files.new).shelf
        phase.new owners.new (L.traffic lines.new))) }

    // What a crash leaves at each moment.
    ensures moments { D.observable → F.observable
        → IfOk result (λ given. (node : Node)
        → IsAt F.observable (R.setting rules.now) T.read sid.number others.now node
        (spot registry.old.entries (F.state files.old).shelf
        phase.old owners.old (L.traffic lines.old))
        → Moments (JointAt (D.state disk.old) (F.state files.old))
        (JointAt (D.state disk.new) (F.state files.new)) beat.old
        (IsWithin sid.number (row node sid.number (answers_of now given buffer.new.items)
        (message_of frame.now)) node)) }
    ensures crash { D.observable → F.observable
        → OnErr result ((node : Node) → IsAt F.observable (R.setting rules.now) T.read sid.number
        others.now node
        (spot registry.old.entries (F.state files.old).shelf
        phase.old owners.old (L.traffic lines.old))
        → MayLeave sid.number now (λ answers. row node sid.number answers (message_of frame.now))
        node (JointAt (D.state disk.old) (F.state files.old))
        (JointAt (D.state disk.new) (F.state files.new)) beat.old) }

    // What stands then.
    ensures home { StaysOpen D.observable F.observable T.read now (fault_in result) registry.new
        (D.state disk.new) (F.state files.new) beat.new }

    // Why it fails.
    ensures cause { HasCause (fault_in result) sid.number
        (counted (D.faults disk.old) (F.faults files.old)
        (L.counts lines.old) (L.last lines.old) beat.old)
        (counted (D.faults disk.new) (F.faults files.new)
        (L.counts lines.new) (L.last lines.new) beat.new) }

    ensures advanced { Advanced
        (counted (D.faults disk.old) (F.faults files.old)
        (L.counts lines.old) (L.last lines.old) beat.old)
        (counted (D.faults disk.new) (F.faults files.new)
        (L.counts lines.new) (L.last lines.new) beat.new) }
{
    match rules.first_reaction(
        alloc,
        registry.book(),
        others,
        owners,
        now,
        sid,
        phase,
        frame,
    ) {
        Ok(reaction) => match go_all(
            alloc, rules, registry, phase, owners, sid, now, disk, files, lines, reaction, buffer,
            beat,
        ) {
            Ok(given) => Ok(given),
            Err(fault) => Err(fault),
        },
        Err(_) => Err(Fault::NoMemory),
    }
}
