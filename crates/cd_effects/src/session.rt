//! The side of an effect that a session has: its phase, what it holds, and the frames that it is given.
ghost use Rattle.std.specs.Prelude.{◌≡◌, ◌≤◌, ◌<◌, ◌∷◌, length, map, Err, OnOk, OnErr, IfErr};
ghost use Rattle.cd_outside.specs.Counts.{Rose};
ghost use Rattle.cd_outside.specs.Lines.{sent, GaveFront, NeverFell};
ghost use Rattle.cd_frames.specs.Frame.{frame_bytes, IsFrame, IsWritable};
ghost use Rattle.cd_protocol.specs.Seen.{seen_frame};
ghost use Rattle.cd_types.specs.NodeName.{IsNodeName};
ghost use Rattle.cd_effects.specs.Stands.{gave, GaveSome, IsFaultOfSending, IsFaultOfGiving, AreFrames, AreSendable, HasNames};

use crate::{Fault, Holding, KeyOwners};
use cd_frames::write_frame;
use cd_outside::{Lines, Sid};
use cd_protocol::{Outgoing, Phase};
use cd_types::{Key, NodeName};
use std::alloc::Global;

// A node's name has its form wherever it stands, so no frame is longer than frames may be.
fn see_name(name: &NodeName)
    ensures { IsNodeName name.now }
{
    let _ = name.as_bytes();
}

fn see_names(frame: &Outgoing<'_>)
    ensures { HasNames (seen_frame frame.now) }
{
    match frame {
        Outgoing::Hello(hello) => see_name(&hello.name),
        Outgoing::Welcome(welcome) => see_name(&welcome.name),
        Outgoing::StepCopyTo(key, ..) => see_name(&key.pnode),
        Outgoing::StepCopyFrom(key, ..) => see_name(&key.pnode),
        Outgoing::Ready(key, _) => see_name(&key.pnode),
        Outgoing::Length(key, _) => see_name(&key.pnode),
        Outgoing::Data(key, ..) => see_name(&key.pnode),
        Outgoing::Ack(key, _) => see_name(&key.pnode),
        Outgoing::End(key, _) => see_name(&key.pnode),
        Outgoing::Result(key, _) => see_name(&key.pnode),
        Outgoing::Abort(key, _) => see_name(&key.pnode),
        Outgoing::Forget(..) => {}
        Outgoing::Bye => {}
    }
}

// Sends one frame.
fn send<L: Lines>(alloc: Global, lines: &mut L, sid: Sid, frame: &Outgoing<'_>) -> Result<(), Fault>
    requires from { 1 ≤ sid.number }
    requires to { sid.number ≤ L.last lines.old }
    requires ready { IsWritable (seen_frame frame.now) }
    ensures sent { L.observable → OnOk result (L.traffic lines.new ≡ sent sid.number (frame_bytes (seen_frame frame.now)) (L.traffic lines.old)) }
    ensures form { OnOk result (IsFrame (seen_frame frame.now)) }
    ensures front { L.observable → OnErr result (GaveFront sid.number (frame_bytes (seen_frame frame.now)) (L.traffic lines.old) (L.traffic lines.new)) }
    ensures fault { IfErr result IsFaultOfSending }
    ensures last { L.last lines.new ≡ L.last lines.old }
    ensures later { NeverFell (L.counts lines.old) (L.counts lines.new) }
    ensures nones { (L.counts lines.new).nones ≡ (L.counts lines.old).nones }
    ensures cause { result ≡ Err Fault.Line → Rose ((L.counts lines.old).faults sid.number) ((L.counts lines.new).faults sid.number) }
{
    see_names(frame);
    let mut bytes = Vec::new(alloc);
    match write_frame(&frame.frame(), &mut bytes) {
        Ok(()) => {}
        Err(_) => return Err(Fault::NoMemory),
    }
    match lines.send(sid, &bytes) {
        Ok(()) => Ok(()),
        Err(_) => Err(Fault::Line),
    }
}

// Sends these frames, one after another.
fn send_all<L: Lines>(
    alloc: Global,
    lines: &mut L,
    sid: Sid,
    frames: &[Outgoing<'_>],
) -> Result<(), Fault>
    requires from { 1 ≤ sid.number }
    requires to { sid.number ≤ L.last lines.old }
    requires ready { AreSendable (map seen_frame frames.now) }
    ensures sent { L.observable → OnOk result (L.traffic lines.new ≡ gave sid.number (map seen_frame frames.now) (L.traffic lines.old)) }
    ensures form { OnOk result (AreFrames (map seen_frame frames.now)) }
    ensures some { L.observable → OnErr result (GaveSome sid.number (map seen_frame frames.now) (L.traffic lines.old) (L.traffic lines.new)) }
    ensures fault { IfErr result (λ fault. IsFaultOfGiving (map seen_frame frames.now) fault) }
    ensures last { L.last lines.new ≡ L.last lines.old }
    ensures later { NeverFell (L.counts lines.old) (L.counts lines.new) }
    ensures nones { (L.counts lines.new).nones ≡ (L.counts lines.old).nones }
    ensures cause { result ≡ Err Fault.Line → Rose ((L.counts lines.old).faults sid.number) ((L.counts lines.new).faults sid.number) }
{
    for frame in frames {
        match send(alloc, lines, sid, frame) {
            Ok(()) => {}
            Err(fault) => return Err(fault),
        }
    }
    Ok(())
}

// The session is in this phase once the frames were sent.
pub(crate) fn go<L: Lines>(
    alloc: Global,
    phase: &mut Phase,
    lines: &mut L,
    sid: Sid,
    next: Phase,
    frames: &[Outgoing<'_>],
) -> Result<(), Fault>
    requires from { 1 ≤ sid.number }
    requires to { sid.number ≤ L.last lines.old }
    requires ready { AreSendable (map seen_frame frames.now) }
    ensures phase { OnOk result (phase.new ≡ next) }
    ensures same { OnErr result (phase.new ≡ phase.old) }
    ensures sent { L.observable → OnOk result (L.traffic lines.new ≡ gave sid.number (map seen_frame frames.now) (L.traffic lines.old)) }
    ensures form { OnOk result (AreFrames (map seen_frame frames.now)) }
    ensures some { L.observable → OnErr result (GaveSome sid.number (map seen_frame frames.now) (L.traffic lines.old) (L.traffic lines.new)) }
    ensures fault { IfErr result (λ fault. IsFaultOfGiving (map seen_frame frames.now) fault) }
    ensures last { L.last lines.new ≡ L.last lines.old }
    ensures later { NeverFell (L.counts lines.old) (L.counts lines.new) }
    ensures nones { (L.counts lines.new).nones ≡ (L.counts lines.old).nones }
    ensures cause { result ≡ Err Fault.Line → Rose ((L.counts lines.old).faults sid.number) ((L.counts lines.new).faults sid.number) }
{
    match send_all(alloc, lines, sid, frames) {
        Ok(()) => {
            *phase = next;
            Ok(())
        }
        Err(fault) => Err(fault),
    }
}

// The session holds the key from now on, and is in this phase.
pub(crate) fn begin(
    phase: &mut Phase,
    owners: &mut KeyOwners,
    sid: Sid,
    key: Key,
    under_way: Phase,
) -> Result<(), Fault>
    ensures phase { OnOk result (phase.new ≡ under_way) }
    ensures held { OnOk result (owners.new ≡ (record { key = key; sid = sid }) ∷ owners.old) }
    ensures same { OnErr result ((phase.new ≡ phase.old) × (owners.new ≡ owners.old)) }
    ensures fault { IfErr result (λ fault. fault ≡ Fault.NoMemory) }
{
    match owners.hold(Holding { key, sid }) {
        Ok(()) => {
            *phase = under_way;
            Ok(())
        }
        Err(_) => Err(Fault::NoMemory),
    }
}
