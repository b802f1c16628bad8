//! Receiving a file.
ghost use Rattle.std.specs.Prelude.{◌≡◌, ◌+◌, ◌%◌, ◌≤◌, ◌++◌, ◌==◌, ◌&&◌, ◌||◌, not, length, nat_le, IfOk};
ghost use Rattle.cd_entries.specs.declared.entry.Entry.TheVariants as entry;
ghost use Rattle.cd_rules.specs.Legal.{greatest_file};
ghost use Rattle.cd_outside.specs.Shelf.{SyncFile};
ghost use Rattle.cd_protocol.specs.Node.{Keep, Touch, behind};
ghost use Rattle.cd_protocol.specs.Receiving.{failed, answer, undo, drop_back, resume, receive_anew, is_same_receiving, kept_base, is_there, is_new, receiving_of, target_known, is_piece_at, marks_at, take_piece, landed_whole, land, gives_up};
ghost use Rattle.cd_protocol.specs.Seen.{seen_effect, seen_reaction};
ghost use Rattle.cd_protocol.specs.Sending.{settled};

use crate::copies::copy_name;
use crate::reaction::{behind, go, later, only_one};
use crate::same::same_disp;
use crate::sending::{GREATEST_FILE, settled};
use cd_book::same_bytes;
use cd_entries::Entry;
use cd_protocol::{Announced, Continuation, Effect, Outgoing, Phase, Reaction, SessionTerms};
use cd_types::{Cause, Disp, Key, Moment, NoMemory, Outcomes, Receiving, Side};
use std::alloc::Global;

/// How a step ends that isn't done, with its cause.
pub fn failed(why: Cause) -> Outcomes
    ensures { result ≡ failed why }
{
    Outcomes {
        rc: 8,
        cause: why,
        bytes: 0,
        made: 0,
    }
}

/// The outcome of a step is recorded.
pub fn answer<'a>(
    alloc: Global,
    role: Side,
    terms: &SessionTerms,
    key: &Key,
    outcomes: &Outcomes,
    now: Moment,
) -> Result<Reaction<'a>, NoMemory>
    ensures { IfOk result (λ reaction. seen_reaction reaction ≡ answer role terms.now key.now outcomes.now now) }
{
    let rest = settled(alloc, role, terms, key, outcomes)?;
    let reaction = behind(Effect::Keep(Entry::Result(*key, *outcomes, now)), rest)?;
    Ok(reaction)
}

/// A step ends with a cause.
pub fn refuse<'a>(
    alloc: Global,
    role: Side,
    terms: &SessionTerms,
    key: &Key,
    why: Cause,
    now: Moment,
) -> Result<Reaction<'a>, NoMemory>
    ensures { IfOk result (λ reaction. seen_reaction reaction ≡ answer role terms.now key.now (failed why) now) }
{
    let outcomes = failed(why);
    let reaction = answer(alloc, role, terms, key, &outcomes, now)?;
    Ok(reaction)
}

/// What undoes a receiving.
fn undo<'a>(alloc: Global, receiving: &Receiving) -> Result<Effect<'a>, NoMemory>
    ensures { IfOk result (λ effect. seen_effect effect ≡ Touch (undo receiving.now receiving.now.disp)) }
{
    let name = copy_name(alloc, &receiving.name)?;
    match receiving.disp {
        Disp::New => Ok(Effect::Remove(name)),
        Disp::Rpl => Ok(Effect::Cut(name, 0)),
        Disp::Mod => {
            if receiving.there {
                Ok(Effect::Cut(name, receiving.base))
            } else {
                Ok(Effect::Remove(name))
            }
        }
    }
}

/// No mark any more; then the file is undone.
pub fn drop_back<'a>(
    alloc: Global,
    role: Side,
    terms: &SessionTerms,
    key: &Key,
    why: Cause,
) -> Result<Reaction<'a>, NoMemory>
    ensures { IfOk result (λ reaction. seen_reaction reaction ≡ drop_back role terms.now key.now why) }
{
    let undoing = later(alloc, Continuation::Undo(role, *terms, *key, why));
    let reaction = behind(Effect::Keep(Entry::Mark(*key, 0)), undoing)?;
    Ok(reaction)
}

/// The outcome of a receiving that is dropped.
fn dropped<'a>(
    alloc: Global,
    role: Side,
    terms: &SessionTerms,
    key: &Key,
    why: Cause,
    now: Moment,
) -> Result<Reaction<'a>, NoMemory>
    ensures { IfOk result (λ reaction. seen_reaction reaction ≡ behind (Keep (entry.Dropped key.now 8 why now)) (settled role terms.now key.now (failed why))) }
{
    let outcomes = failed(why);
    let rest = settled(alloc, role, terms, key, &outcomes)?;
    let reaction = behind(Effect::Keep(Entry::Dropped(*key, 8, why, now)), rest)?;
    Ok(reaction)
}

/// The file as it was and synced, and then the outcome.
pub fn undo_open<'a>(
    alloc: Global,
    role: Side,
    terms: &SessionTerms,
    key: &Key,
    why: Cause,
    now: Moment,
    receiving: &Receiving,
) -> Result<Reaction<'a>, NoMemory>
    ensures { IfOk result (λ reaction. seen_reaction reaction ≡ behind (Touch (undo receiving.now receiving.now.disp)) (behind (Touch (SyncFile receiving.now.name)) (behind (Keep (entry.Dropped key.now 8 why now)) (settled role terms.now key.now (failed why))))) }
{
    let undoing = undo(alloc, receiving)?;
    let name = copy_name(alloc, &receiving.name)?;
    let rest = dropped(alloc, role, terms, key, why, now)?;
    let synced = behind(Effect::Sync(name), rest)?;
    let reaction = behind(undoing, synced)?;
    Ok(reaction)
}

/// The file is cut to what is safe of it and synced, and the partner sends from there on.
pub fn resume<'a>(
    alloc: Global,
    role: Side,
    terms: &SessionTerms,
    receiving: &Receiving,
    mark: u64,
) -> Result<Reaction<'a>, NoMemory>
    requires { receiving.now.base + mark ≤ u64.MAX }
    ensures { IfOk result (λ reaction. seen_reaction reaction ≡ resume role terms.now receiving.now mark) }
{
    let cut = copy_name(alloc, &receiving.name)?;
    let synced = copy_name(alloc, &receiving.name)?;
    let phase = Phase::Take(role, *terms, receiving.key, mark);
    let ready = go(alloc, phase, Outgoing::Ready(receiving.key, mark))?;
    let rest = only_one(alloc, ready)?;
    let rest = behind(Effect::Sync(synced), rest)?;
    let reaction = behind(Effect::Cut(cut, receiving.base + mark), rest)?;
    Ok(reaction)
}

/// A receiving is recorded, and begins.
pub fn receive_anew<'a>(
    alloc: Global,
    role: Side,
    terms: &SessionTerms,
    receiving: Receiving,
) -> Result<Reaction<'a>, NoMemory>
    ensures { IfOk result (λ reaction. seen_reaction reaction ≡ receive_anew role terms.now receiving) }
{
    let rest = resume(alloc, role, terms, &receiving, 0)?;
    let reaction = behind(Effect::Keep(Entry::Receiving(receiving)), rest)?;
    Ok(reaction)
}

/// Whether what is announced goes on with a receiving.
pub fn is_same_receiving(receiving: &Receiving, announced: &Announced) -> bool
    ensures { result ≡ is_same_receiving receiving.now announced.now }
{
    same_bytes(receiving.name.as_slice(), announced.name.as_slice())
        && same_disp(receiving.disp, announced.disp)
        && receiving.interval == announced.interval
}

/// Whether a file of so many bytes, and so many more, isn't too large.
pub fn is_small(base: u64, length: u64) -> bool
    ensures { result ≡ nat_le (base + length) greatest_file }
{
    base <= GREATEST_FILE && length <= GREATEST_FILE - base
}

/// How many bytes of the old file stay: all of them with MOD.
fn kept_base(disp: Disp, there: Option<u64>) -> u64
    ensures { result ≡ kept_base disp there }
{
    match disp {
        Disp::Mod => match there {
            Some(size) => size,
            None => 0,
        },
        Disp::New => 0,
        Disp::Rpl => 0,
    }
}

fn is_there(there: Option<u64>) -> bool
    ensures { result ≡ is_there there }
{
    match there {
        Some(_) => true,
        None => false,
    }
}

fn is_new(disp: Disp) -> bool
    ensures { result ≡ is_new disp }
{
    match disp {
        Disp::New => true,
        Disp::Rpl => false,
        Disp::Mod => false,
    }
}

/// The receiving of what is announced, where the destination has this length.
fn receiving_of(
    alloc: Global,
    key: &Key,
    announced: &Announced,
    there: Option<u64>,
) -> Result<Receiving, NoMemory>
    ensures { IfOk result (λ receiving. receiving ≡ receiving_of key.now announced.now there) }
{
    let name = copy_name(alloc, &announced.name)?;
    Ok(Receiving {
        key: *key,
        name,
        disp: announced.disp,
        there: is_there(there),
        base: kept_base(announced.disp, there),
        length: announced.length,
        interval: announced.interval,
    })
}

/// The destination was asked for its length: with NEW it must be missing, and the whole not too large.
pub fn target_known<'a>(
    alloc: Global,
    role: Side,
    terms: &SessionTerms,
    key: &Key,
    announced: &Announced,
    now: Moment,
    there: Option<u64>,
) -> Result<Reaction<'a>, NoMemory>
    ensures { IfOk result (λ reaction. seen_reaction reaction ≡ target_known role terms.now key.now announced.now now there) }
{
    if is_new(announced.disp) && is_there(there) {
        let reaction = refuse(alloc, role, terms, key, Cause::Exists, now)?;
        Ok(reaction)
    } else if is_small(kept_base(announced.disp, there), announced.length) {
        let receiving = receiving_of(alloc, key, announced, there)?;
        let reaction = receive_anew(alloc, role, terms, receiving)?;
        Ok(reaction)
    } else {
        let reaction = refuse(alloc, role, terms, key, Cause::TooLarge, now)?;
        Ok(reaction)
    }
}

/// Whether a piece passes no multiple of the interval.
fn is_within_interval(interval: u64, came: u64, size: u64) -> bool
    ensures { result ≡ (interval == 0 || nat_le (came % interval + size) interval) }
{
    if interval == 0 {
        return true;
    }
    size <= interval - came % interval
}

/// Whether a piece is taken: at exactly the bytes that came, with 1 to block bytes, within the length and up to a
/// multiple of the interval at most.
pub fn is_piece_at(
    terms: &SessionTerms,
    receiving: &Receiving,
    came: u64,
    offset: u64,
    size: u64,
) -> bool
    ensures { result ≡ is_piece_at terms.now receiving.now came offset size }
{
    offset == came
        && 1 <= size
        && size <= terms.block as u64
        && (came <= receiving.length && size <= receiving.length - came)
        && is_within_interval(receiving.interval, came, size)
}

/// Whether a mark is recorded when so many bytes came.
fn is_marked(receiving: &Receiving, came: u64) -> bool
    ensures { result ≡ (not (receiving.now.interval == 0) && came % receiving.now.interval == 0) }
{
    if receiving.interval == 0 {
        return false;
    }
    came % receiving.interval == 0
}

/// At a multiple of the interval the file is synced and the mark recorded, before what follows.
fn marked<'a>(
    alloc: Global,
    receiving: &Receiving,
    came: u64,
    reaction: Reaction<'a>,
) -> Result<Reaction<'a>, NoMemory>
    ensures { IfOk result (λ made. seen_reaction made ≡ record (seen_reaction reaction.entry) { effects = marks_at receiving.now came ++ (seen_reaction reaction.entry).effects }) }
{
    if is_marked(receiving, came) {
        let name = copy_name(alloc, &receiving.name)?;
        let kept = behind(Effect::Keep(Entry::Mark(receiving.key, came)), reaction)?;
        let made = behind(Effect::Sync(name), kept)?;
        Ok(made)
    } else {
        Ok(reaction)
    }
}

/// The bytes are written, a mark is recorded where one is due, and Ack goes out.
pub fn take_piece<'a>(
    alloc: Global,
    role: Side,
    terms: &SessionTerms,
    receiving: &Receiving,
    came: u64,
    bytes: &'a [u8],
) -> Result<Reaction<'a>, NoMemory>
    requires { receiving.now.base + (came + length bytes.now) ≤ u64.MAX }
    ensures { IfOk result (λ reaction. seen_reaction reaction ≡ take_piece role terms.now receiving.now came bytes.now) }
{
    let upto = came + bytes.len() as u64;
    let name = copy_name(alloc, &receiving.name)?;
    let phase = Phase::Take(role, *terms, receiving.key, upto);
    let ack = go(alloc, phase, Outgoing::Ack(receiving.key, upto))?;
    let rest = only_one(alloc, ack)?;
    let rest = marked(alloc, receiving, upto, rest)?;
    let reaction = behind(Effect::Write(name, receiving.base + came, bytes), rest)?;
    Ok(reaction)
}

/// All bytes came.
fn landed_whole(receiving: &Receiving) -> Outcomes
    ensures { result ≡ landed_whole receiving.now }
{
    Outcomes {
        rc: 0,
        cause: Cause::None,
        bytes: receiving.length,
        made: 0,
    }
}

/// All came: the file gets exactly its length and is synced, and the outcome is recorded.
pub fn land<'a>(
    alloc: Global,
    role: Side,
    terms: &SessionTerms,
    receiving: &Receiving,
    now: Moment,
) -> Result<Reaction<'a>, NoMemory>
    requires { receiving.now.base + receiving.now.length ≤ u64.MAX }
    ensures { IfOk result (λ reaction. seen_reaction reaction ≡ land role terms.now receiving.now now) }
{
    let outcomes = landed_whole(receiving);
    let rest = answer(alloc, role, terms, &receiving.key, &outcomes, now)?;
    let synced = copy_name(alloc, &receiving.name)?;
    let cut = copy_name(alloc, &receiving.name)?;
    let rest = behind(Effect::Sync(synced), rest)?;
    let reaction = behind(Effect::Cut(cut, receiving.base + receiving.length), rest)?;
    Ok(reaction)
}

/// Whether the sender gives up with this cause.
pub fn gives_up(why: Cause) -> bool
    ensures { result ≡ gives_up why }
{
    matches!(
        why,
        Cause::NoSource | Cause::SourceChanged | Cause::TooLarge
    )
}
