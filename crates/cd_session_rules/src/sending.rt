//! Sending a source, and the step that sends it.
ghost use Rattle.std.specs.Prelude.{◌≡◌, ◌+◌, ◌≤◌, ◌∷◌, [], max, IfOk};
ghost use Rattle.cd_frames.specs.Message as message;
ghost use Rattle.cd_rules.specs.Legal.{greatest_file};
ghost use Rattle.cd_protocol.specs.Node.{Go, only};
ghost use Rattle.cd_protocol.specs.Seen.{seen_reaction};
ghost use Rattle.cd_protocol.specs.declared.session.Phase.TheVariants.{Await};
ghost use Rattle.cd_protocol.specs.Sending.{after_sending, piece_len, send_from, piece_read, interval_of, push, pull, copy, finish, ended, settled};

use crate::copies::{copy_name, copy_source};
use crate::reaction::{behind, go, later, only_one};
use cd_ast::CopyStep;
use cd_entries::Entry;
use cd_protocol::{Continuation, Effect, Outgoing, Phase, Reaction, SessionTerms, Source};
use cd_types::{Cause, How, Key, Moment, NoMemory, Outcomes, ProcNo, Side};
use std::alloc::Global;

/// The most bytes of a file.
pub const GREATEST_FILE: u64 = 1_099_511_627_776;

/// Where a session stands when all of a source was sent.
fn after_sending(
    alloc: Global,
    role: Side,
    terms: &SessionTerms,
    key: &Key,
    source: &Source,
) -> Result<Phase, NoMemory>
    ensures { IfOk result (λ phase. phase ≡ after_sending role terms.now key.now source.now) }
{
    match role {
        Side::Pnode => {
            let source = copy_source(alloc, source)?;
            Ok(Phase::Await(*terms, *key, Some(source)))
        }
        Side::Snode => Ok(Phase::Ready(*terms, Some(*key))),
    }
}

/// How many bytes the piece has that begins at an offset.
pub fn piece_len(terms: &SessionTerms, source: &Source, offset: u64) -> u64
    ensures len { result ≡ piece_len terms.now source.now offset }
    ensures within { offset + result ≤ max offset source.now.length }
{
    if offset >= source.length {
        return 0;
    }
    let len = (source.length - offset).min(terms.block as u64);
    if source.interval == 0 {
        return len;
    }
    len.min(source.interval - offset % source.interval)
}

/// End, where all was sent; else the piece from the offset on is read.
pub fn send_from<'a>(
    alloc: Global,
    role: Side,
    terms: &SessionTerms,
    key: &Key,
    source: &Source,
    offset: u64,
) -> Result<Reaction<'a>, NoMemory>
    ensures { IfOk result (λ reaction. seen_reaction reaction ≡ send_from role terms.now key.now source.now offset) }
{
    if offset == source.length {
        let phase = after_sending(alloc, role, terms, key, source)?;
        let done = go(alloc, phase, Outgoing::End(*key, source.length))?;
        let reaction = only_one(alloc, done)?;
        Ok(reaction)
    } else {
        let source = copy_source(alloc, source)?;
        Ok(later(
            alloc,
            Continuation::Piece(role, *terms, *key, source, offset),
        ))
    }
}

/// The piece that was read goes out; a source that gave fewer bytes has changed.
pub fn piece_read<'a>(
    alloc: Global,
    role: Side,
    terms: &SessionTerms,
    key: &Key,
    source: &Source,
    offset: u64,
    bytes: &'a [u8],
) -> Result<Reaction<'a>, NoMemory>
    ensures { IfOk result (λ reaction. seen_reaction reaction ≡ piece_read role terms.now key.now source.now offset bytes.now) }
{
    let len = piece_len(terms, source, offset);
    if bytes.len() as u64 == len {
        let source = copy_source(alloc, source)?;
        let phase = Phase::Send(role, *terms, *key, source, offset + len);
        let done = go(alloc, phase, Outgoing::Data(*key, offset, bytes))?;
        let reaction = only_one(alloc, done)?;
        Ok(reaction)
    } else {
        let phase = after_sending(alloc, role, terms, key, source)?;
        let done = go(alloc, phase, Outgoing::Abort(*key, Cause::SourceChanged))?;
        let reaction = only_one(alloc, done)?;
        Ok(reaction)
    }
}

/// The bytes between two marks, 0 where the statement says none.
pub fn interval_of(ckpt: Option<u64>) -> u64
    ensures { result ≡ interval_of ckpt }
{
    match ckpt {
        Some(interval) => interval,
        None => 0,
    }
}

/// A push that is given up in the place of its step.
fn give_up<'a>(
    alloc: Global,
    terms: &SessionTerms,
    key: &Key,
    why: Cause,
) -> Result<Reaction<'a>, NoMemory>
    ensures { IfOk result (λ reaction. seen_reaction reaction ≡ only (Go (Await terms.now key.now None) (message.Abort key.now why ∷ []) ∷ [])) }
{
    let done = go(
        alloc,
        Phase::Await(*terms, *key, None),
        Outgoing::Abort(*key, why),
    )?;
    let reaction = only_one(alloc, done)?;
    Ok(reaction)
}

/// A push with the length of its source.
fn push_sized<'a>(
    alloc: Global,
    terms: &SessionTerms,
    key: &Key,
    step: &CopyStep,
    size: u64,
) -> Result<Reaction<'a>, NoMemory>
    requires { size ≤ greatest_file }
    ensures { IfOk result (λ reaction. seen_reaction reaction ≡ push terms.now key.now step.now (Some size)) }
{
    let interval = interval_of(step.ckpt);
    let source = Source {
        name: copy_name(alloc, &step.from)?,
        length: size,
        interval,
    };
    let to = copy_name(alloc, &step.to)?;
    let frame = Outgoing::StepCopyTo(*key, to, step.disp, interval, size);
    let done = go(alloc, Phase::Await(*terms, *key, Some(source)), frame)?;
    let reaction = only_one(alloc, done)?;
    Ok(reaction)
}

/// A push goes with the length of its source; one whose source is missing or too large is given up in its place.
pub fn push<'a>(
    alloc: Global,
    terms: &SessionTerms,
    key: &Key,
    step: &CopyStep,
    size: Option<u64>,
) -> Result<Reaction<'a>, NoMemory>
    ensures { IfOk result (λ reaction. seen_reaction reaction ≡ push terms.now key.now step.now size) }
{
    match size {
        None => {
            let reaction = give_up(alloc, terms, key, Cause::NoSource)?;
            Ok(reaction)
        }
        Some(size) => {
            if size <= GREATEST_FILE {
                let reaction = push_sized(alloc, terms, key, step, size)?;
                Ok(reaction)
            } else {
                let reaction = give_up(alloc, terms, key, Cause::TooLarge)?;
                Ok(reaction)
            }
        }
    }
}

/// The partner is asked for the source of a pull.
fn pull<'a>(
    alloc: Global,
    terms: &SessionTerms,
    key: &Key,
    step: &CopyStep,
) -> Result<Reaction<'a>, NoMemory>
    ensures { IfOk result (λ reaction. seen_reaction reaction ≡ pull terms.now key.now step.now) }
{
    let from = copy_name(alloc, &step.from)?;
    let frame = Outgoing::StepCopyFrom(*key, from, interval_of(step.ckpt));
    let done = go(alloc, Phase::Ask(*terms, *key), frame)?;
    let rest = only_one(alloc, done)?;
    let reaction = behind(Effect::Begin(*key, Phase::Ask(*terms, *key)), rest)?;
    Ok(reaction)
}

/// A copy is begun.
pub fn copy<'a>(
    alloc: Global,
    terms: &SessionTerms,
    key: &Key,
    step: &CopyStep,
) -> Result<Reaction<'a>, NoMemory>
    ensures { IfOk result (λ reaction. seen_reaction reaction ≡ copy terms.now key.now step.now) }
{
    if step.push {
        let begun = Effect::Begin(*key, Phase::Await(*terms, *key, None));
        let reaction = behind(begun, later(alloc, Continuation::Push(*terms, *key)))?;
        Ok(reaction)
    } else {
        let reaction = pull(alloc, terms, key, step)?;
        Ok(reaction)
    }
}

/// The Process is at the end of its statements.
pub fn finish<'a>(
    alloc: Global,
    now: Moment,
    home: u64,
    number: ProcNo,
) -> Result<Reaction<'a>, NoMemory>
    ensures { IfOk result (λ reaction. seen_reaction reaction ≡ finish now home number) }
{
    let frames = vec![in alloc; Outgoing::Forget(home, number), Outgoing::Bye]?;
    let rest = only_one(alloc, Effect::Go(Phase::Gone, frames))?;
    let closed = Entry::Closed(number, How::Finished, now);
    let reaction = behind(Effect::Keep(closed), rest)?;
    Ok(reaction)
}

/// A step whose outcome this node has ends with it, and then the next one comes.
pub fn ended<'a>(
    alloc: Global,
    terms: &SessionTerms,
    key: &Key,
    outcomes: &Outcomes,
    now: Moment,
) -> Result<Reaction<'a>, NoMemory>
    ensures { IfOk result (λ reaction. seen_reaction reaction ≡ ended terms.now key.now outcomes.now now) }
{
    let entry = Entry::Ended(
        key.number,
        key.place,
        outcomes.rc,
        outcomes.cause,
        outcomes.bytes,
        now,
    );
    let reaction = behind(
        Effect::Keep(entry),
        later(alloc, Continuation::Next(*terms, key.number)),
    )?;
    Ok(reaction)
}

/// A step has its outcome: the SNODE answers it, and the PNODE takes the next step.
pub fn settled<'a>(
    alloc: Global,
    role: Side,
    terms: &SessionTerms,
    key: &Key,
    outcomes: &Outcomes,
) -> Result<Reaction<'a>, NoMemory>
    ensures { IfOk result (λ reaction. seen_reaction reaction ≡ settled role terms.now key.now outcomes.now) }
{
    match role {
        Side::Snode => {
            let phase = Phase::Ready(*terms, Some(*key));
            let done = go(alloc, phase, Outgoing::Result(*key, *outcomes))?;
            let reaction = only_one(alloc, done)?;
            Ok(reaction)
        }
        Side::Pnode => Ok(later(alloc, Continuation::Next(*terms, key.number))),
    }
}
