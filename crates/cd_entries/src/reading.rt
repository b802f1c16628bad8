//! Reading: the fields of each kind, which have to be all of the bytes.
ghost use Rattle.std.specs.Prelude.{◌≡◌, IfOk};
ghost use Rattle.cd_entries.specs.Entry.{Answers, IsWritable, entry_of, home_of, submitted_of, placed_of, started_of, receiving_of, mark_of, result_of, ended_of, closed_of, forgot_of, dropped_of};

use crate::entry::{Entry, EntryFault};
use crate::kind;
use cd_types::{
    Bytes, Cause, Disp, Field, Filed, How, Key, Moment, NoMemory, NodeName, Outcomes, Placing,
    ProcNo, Receiving, TaskKind, file_front, text_front,
};
use std::alloc::Global;

/// The entry that the bytes are, all of them; Unfit exactly where they are none.
pub fn read_entry(alloc: Global, bytes: &[u8]) -> Result<Entry, EntryFault>
    ensures entry { Answers result (entry_of bytes.now) }
    ensures writable { IfOk result IsWritable }
{
    match entry_at(alloc, bytes) {
        Ok(entry) => Ok(entry),
        Err(fault) => Err(fault),
    }
}

#[tactic(auto, unfolding(crate::specs::Entry::entry_of))]
fn entry_at(alloc: Global, bytes: &[u8]) -> Result<Entry, EntryFault>
    ensures { Answers result (entry_of bytes.now) }
{
    let Some((code, rest)) = u8::front(bytes) else {
        return Err(EntryFault::Unfit);
    };
    match code {
        kind::HOME => home_of(rest).ok_or(EntryFault::Unfit),
        kind::SUBMITTED => submitted_of(alloc, rest),
        kind::PLACED => placed_of(rest).ok_or(EntryFault::Unfit),
        kind::STARTED => started_of(rest).ok_or(EntryFault::Unfit),
        kind::RECEIVING => receiving_of(alloc, rest),
        kind::MARK => mark_of(rest).ok_or(EntryFault::Unfit),
        kind::RESULT => result_of(rest).ok_or(EntryFault::Unfit),
        kind::ENDED => ended_of(rest).ok_or(EntryFault::Unfit),
        kind::CLOSED => closed_of(rest).ok_or(EntryFault::Unfit),
        kind::FORGOT => forgot_of(rest).ok_or(EntryFault::Unfit),
        kind::DROPPED => dropped_of(rest).ok_or(EntryFault::Unfit),
        _ => Err(EntryFault::Unfit),
    }
}

#[tactic(auto, unfolding(crate::specs::Entry::home_of))]
fn home_of(bytes: &[u8]) -> Option<Entry>
    ensures { result ≡ home_of bytes.now }
{
    let Some((name, rest)) = NodeName::front(bytes) else {
        return None;
    };
    let (home, rest) = u64::front(rest)?;
    if !rest.is_empty() {
        return None;
    }
    Some(Entry::Home(name, home))
}

#[tactic(auto, unfolding(crate::specs::Entry::placed_of))]
fn placed_of(bytes: &[u8]) -> Option<Entry>
    ensures { result ≡ placed_of bytes.now }
{
    let Some((number, rest)) = ProcNo::front(bytes) else {
        return None;
    };
    let (placing, rest) = Placing::front(rest)?;
    let Some((moment, rest)) = Moment::front(rest) else {
        return None;
    };
    if !rest.is_empty() {
        return None;
    }
    Some(Entry::Placed(number, placing, moment))
}

#[tactic(auto, unfolding(crate::specs::Entry::started_of))]
fn started_of(bytes: &[u8]) -> Option<Entry>
    ensures { result ≡ started_of bytes.now }
{
    let Some((key, rest)) = Key::front(bytes) else {
        return None;
    };
    let (kind, rest) = TaskKind::front(rest)?;
    let (attempt, rest) = u32::front(rest)?;
    let Some((moment, rest)) = Moment::front(rest) else {
        return None;
    };
    if !rest.is_empty() {
        return None;
    }
    Some(Entry::Started(key, kind, attempt, moment))
}

#[tactic(auto, unfolding(crate::specs::Entry::mark_of))]
fn mark_of(bytes: &[u8]) -> Option<Entry>
    ensures { result ≡ mark_of bytes.now }
{
    let Some((key, rest)) = Key::front(bytes) else {
        return None;
    };
    let (offset, rest) = u64::front(rest)?;
    if !rest.is_empty() {
        return None;
    }
    Some(Entry::Mark(key, offset))
}

#[tactic(auto, unfolding(crate::specs::Entry::result_of))]
fn result_of(bytes: &[u8]) -> Option<Entry>
    ensures { result ≡ result_of bytes.now }
{
    let Some((key, rest)) = Key::front(bytes) else {
        return None;
    };
    let (outcomes, rest) = Outcomes::front(rest)?;
    let Some((moment, rest)) = Moment::front(rest) else {
        return None;
    };
    if !rest.is_empty() {
        return None;
    }
    Some(Entry::Result(key, outcomes, moment))
}

#[tactic(auto, unfolding(crate::specs::Entry::ended_of))]
fn ended_of(bytes: &[u8]) -> Option<Entry>
    ensures { result ≡ ended_of bytes.now }
{
    let Some((number, rest)) = ProcNo::front(bytes) else {
        return None;
    };
    let (place, rest) = u16::front(rest)?;
    let (rc, rest) = u8::front(rest)?;
    let (cause, rest) = Cause::front(rest)?;
    if !cause.is_kept() {
        return None;
    }
    let (bytes, rest) = u64::front(rest)?;
    let Some((moment, rest)) = Moment::front(rest) else {
        return None;
    };
    if !rest.is_empty() {
        return None;
    }
    Some(Entry::Ended(number, place, rc, cause, bytes, moment))
}

#[tactic(auto, unfolding(crate::specs::Entry::closed_of))]
fn closed_of(bytes: &[u8]) -> Option<Entry>
    ensures { result ≡ closed_of bytes.now }
{
    let Some((number, rest)) = ProcNo::front(bytes) else {
        return None;
    };
    let (how, rest) = How::front(rest)?;
    let Some((moment, rest)) = Moment::front(rest) else {
        return None;
    };
    if !rest.is_empty() {
        return None;
    }
    Some(Entry::Closed(number, how, moment))
}

#[tactic(auto, unfolding(crate::specs::Entry::forgot_of))]
fn forgot_of(bytes: &[u8]) -> Option<Entry>
    ensures { result ≡ forgot_of bytes.now }
{
    let Some((name, rest)) = NodeName::front(bytes) else {
        return None;
    };
    let (home, rest) = u64::front(rest)?;
    let Some((number, rest)) = ProcNo::front(rest) else {
        return None;
    };
    if !rest.is_empty() {
        return None;
    }
    Some(Entry::Forgot(name, home, number))
}

#[tactic(auto, unfolding(crate::specs::Entry::dropped_of))]
fn dropped_of(bytes: &[u8]) -> Option<Entry>
    ensures { result ≡ dropped_of bytes.now }
{
    let Some((key, rest)) = Key::front(bytes) else {
        return None;
    };
    let (rc, rest) = u8::front(rest)?;
    let (cause, rest) = Cause::front(rest)?;
    if !cause.is_kept() {
        return None;
    }
    let Some((moment, rest)) = Moment::front(rest) else {
        return None;
    };
    if !rest.is_empty() {
        return None;
    }
    Some(Entry::Dropped(key, rc, cause, moment))
}

#[tactic(auto, unfolding(crate::specs::Entry::submitted_of))]
fn submitted_of(alloc: Global, bytes: &[u8]) -> Result<Entry, EntryFault>
    ensures { Answers result (submitted_of bytes.now) }
{
    let Some((number, rest)) = ProcNo::front(bytes) else {
        return Err(EntryFault::Unfit);
    };
    let Some((moment, rest)) = Moment::front(rest) else {
        return Err(EntryFault::Unfit);
    };
    let Some((origin, rest)) = Option::<Key>::front(rest) else {
        return Err(EntryFault::Unfit);
    };
    let Some((card, rest)) = Filed::front(rest) else {
        return Err(EntryFault::Unfit);
    };
    let Some((text, rest)) = text_front(rest) else {
        return Err(EntryFault::Unfit);
    };
    if !rest.is_empty() {
        return Err(EntryFault::Unfit);
    }
    match Bytes::copy_of(alloc, text) {
        Ok(text) => Ok(Entry::Submitted(number, moment, origin, card, text)),
        Err(NoMemory) => Err(EntryFault::NoMemory),
    }
}

#[tactic(auto, unfolding(crate::specs::Entry::receiving_of))]
fn receiving_of(alloc: Global, bytes: &[u8]) -> Result<Entry, EntryFault>
    ensures { Answers result (receiving_of bytes.now) }
{
    let Some((key, rest)) = Key::front(bytes) else {
        return Err(EntryFault::Unfit);
    };
    let Some((name, rest)) = file_front(rest) else {
        return Err(EntryFault::Unfit);
    };
    let Some((disp, rest)) = Disp::front(rest) else {
        return Err(EntryFault::Unfit);
    };
    let Some((there, rest)) = bool::front(rest) else {
        return Err(EntryFault::Unfit);
    };
    let Some((base, rest)) = u64::front(rest) else {
        return Err(EntryFault::Unfit);
    };
    let Some((length, rest)) = u64::front(rest) else {
        return Err(EntryFault::Unfit);
    };
    let Some((interval, rest)) = u64::front(rest) else {
        return Err(EntryFault::Unfit);
    };
    if !rest.is_empty() {
        return Err(EntryFault::Unfit);
    }
    match Bytes::copy_of(alloc, name) {
        Ok(name) => Ok(Entry::Receiving(Receiving {
            key,
            name,
            disp,
            there,
            base,
            length,
            interval,
        })),
        Err(NoMemory) => Err(EntryFault::NoMemory),
    }
}
