//! The questions to a step.
ghost use Rattle.std.specs.Prelude.{◌≡◌, ◌+◌, ◌≤◌, ◌<◌, ◌∷◌, List, length, reverse, option_map};
ghost use Rattle.cd_entries.specs.declared.entry.Entry.{Entry};
ghost use Rattle.cd_rules.specs.Keys.{is_of};
ghost use Rattle.cd_rules.specs.Status.{dropped_outcome, once_more, after, status, outcome, outcome_at, mark, mark_at, last_receiving, receiving_at, starts, starts_at};
ghost use Rattle.cd_book.specs.Seen.{seen_status, times_of};

use crate::same::same_key;
use crate::status::Status;
use cd_entries::Entry;
use cd_types::{Cause, Key, Outcomes, Rc, Receiving, TaskKind};

// Whether it is an entry of this step's key.
fn is_of(key: &Key, entry: &Entry) -> bool
    ensures { result ≡ is_of key.now entry.now }
{
    match entry {
        Entry::Started(step, ..) => same_key(key, step),
        Entry::Receiving(receiving) => same_key(key, &receiving.key),
        Entry::Mark(step, _) => same_key(key, step),
        Entry::Result(step, ..) => same_key(key, step),
        Entry::Dropped(step, ..) => same_key(key, step),
        _ => false,
    }
}

// The outcome of a step whose file was dropped.
fn dropped_outcome(rc: Rc, cause: Cause) -> Outcomes
    ensures { result ≡ dropped_outcome rc cause }
{
    Outcomes {
        rc,
        cause,
        bytes: 0,
        made: 0,
    }
}

// Once more started.
fn once_more<'a>(kind: TaskKind, before: Status<'a>) -> Status<'a>
    requires { times_of before < 4294967295 }
    ensures status { seen_status result ≡ once_more kind (seen_status before.entry) }
    ensures times { times_of result ≤ times_of before.entry + 1 }
{
    match before {
        Status::Fresh => Status::Started(1, kind),
        Status::Started(tries, _) => Status::Started(tries + 1, kind),
        other => other,
    }
}

// What an entry of the step's key makes of its status.
fn after<'a>(entry: &'a Entry, before: Status<'a>) -> Status<'a>
    requires { times_of before < 4294967295 }
    ensures status { seen_status result ≡ after entry.now (seen_status before.entry) }
    ensures times { times_of result ≤ times_of before.entry + 1 }
{
    match (entry, before) {
        (Entry::Started(_, kind, _, _), before) => once_more(*kind, before),
        (Entry::Result(_, outcomes, _), _) => Status::Done(*outcomes),
        (Entry::Dropped(_, rc, cause, _), _) => Status::Done(dropped_outcome(*rc, *cause)),
        (_, Status::Done(outcomes)) => Status::Done(outcomes),
        (Entry::Receiving(receiving), _) => Status::Open(receiving, 0),
        (Entry::Mark(_, offset), Status::Open(receiving, _)) => Status::Open(receiving, *offset),
        (_, before) => before,
    }
}

#[tactic(auto, unfolding(cd_rules::specs::Status::status))]
fn status_after<'a>(entry: &'a Entry, key: &Key, before: Status<'a>) -> Status<'a>
    requires { times_of before < 4294967295 }
    ensures status { (journal : List Entry) → seen_status before.entry ≡ status journal key.now → seen_status result ≡ status (entry.now ∷ journal) key.now }
    ensures times { times_of result ≤ times_of before.entry + 1 }
{
    if is_of(key, entry) {
        after(entry, before)
    } else {
        before
    }
}

pub(crate) fn status<'a>(entries: &'a [Entry], key: &Key) -> Status<'a>
    requires { length entries.now < 4294967296 }
    ensures { seen_status result ≡ status (reverse entries.now) key.now }
{
    let mut found = Status::Fresh;
    for entry in entries {
        found = status_after(entry, key, found);
    }
    found
}

fn outcome_at(entry: &Entry, before: Option<Outcomes>) -> Option<Outcomes>
    ensures { result ≡ outcome_at entry.now before }
{
    match entry {
        Entry::Result(_, outcomes, _) => Some(*outcomes),
        Entry::Dropped(_, rc, cause, _) => Some(dropped_outcome(*rc, *cause)),
        _ => before,
    }
}

#[tactic(auto, unfolding(cd_rules::specs::Status::outcome))]
fn outcome_after(entry: &Entry, key: &Key, before: Option<Outcomes>) -> Option<Outcomes>
    ensures { (journal : List Entry) → before ≡ outcome journal key.now → result ≡ outcome (entry.now ∷ journal) key.now }
{
    if is_of(key, entry) {
        outcome_at(entry, before)
    } else {
        before
    }
}

pub(crate) fn outcome(entries: &[Entry], key: &Key) -> Option<Outcomes>
    ensures { result ≡ outcome (reverse entries.now) key.now }
{
    let mut found = None;
    for entry in entries {
        found = outcome_after(entry, key, found);
    }
    found
}

fn mark_at(entry: &Entry, before: u64) -> u64
    ensures { result ≡ mark_at entry.now before }
{
    match entry {
        Entry::Receiving(_) => 0,
        Entry::Mark(_, offset) => *offset,
        _ => before,
    }
}

#[tactic(auto, unfolding(cd_rules::specs::Status::mark))]
fn mark_after(entry: &Entry, key: &Key, before: u64) -> u64
    ensures { (journal : List Entry) → before ≡ mark journal key.now → result ≡ mark (entry.now ∷ journal) key.now }
{
    if is_of(key, entry) {
        mark_at(entry, before)
    } else {
        before
    }
}

pub(crate) fn mark(entries: &[Entry], key: &Key) -> u64
    ensures { result ≡ mark (reverse entries.now) key.now }
{
    let mut found = 0;
    for entry in entries {
        found = mark_after(entry, key, found);
    }
    found
}

fn starts_at(entry: &Entry, before: u32) -> u32
    requires { before < 4294967295 }
    ensures starts { result ≡ starts_at entry.now before }
    ensures few { result ≤ before + 1 }
{
    match entry {
        Entry::Started(..) => before + 1,
        _ => before,
    }
}

#[tactic(auto, unfolding(cd_rules::specs::Status::starts))]
fn starts_after(entry: &Entry, key: &Key, before: u32) -> u32
    requires { before < 4294967295 }
    ensures starts { (journal : List Entry) → before ≡ starts journal key.now → result ≡ starts (entry.now ∷ journal) key.now }
    ensures few { result ≤ before + 1 }
{
    if is_of(key, entry) {
        starts_at(entry, before)
    } else {
        before
    }
}

pub(crate) fn starts(entries: &[Entry], key: &Key) -> u32
    requires { length entries.now < 4294967296 }
    ensures { result ≡ starts (reverse entries.now) key.now }
{
    let mut found = 0;
    for entry in entries {
        found = starts_after(entry, key, found);
    }
    found
}

fn receiving_at<'a>(entry: &'a Entry, before: Option<&'a Receiving>) -> Option<&'a Receiving>
    ensures { option_map (λ r. r.now) result ≡ receiving_at entry.now (option_map (λ r. r.now) before.entry) }
{
    match entry {
        Entry::Receiving(receiving) => Some(receiving),
        _ => before,
    }
}

#[tactic(auto, unfolding(cd_rules::specs::Status::last_receiving))]
fn receiving_after<'a>(
    entry: &'a Entry,
    key: &Key,
    before: Option<&'a Receiving>,
) -> Option<&'a Receiving>
    ensures { (journal : List Entry) → option_map (λ r. r.now) before.entry ≡ last_receiving journal key.now → option_map (λ r. r.now) result ≡ last_receiving (entry.now ∷ journal) key.now }
{
    if is_of(key, entry) {
        receiving_at(entry, before)
    } else {
        before
    }
}

pub(crate) fn last_receiving<'a>(entries: &'a [Entry], key: &Key) -> Option<&'a Receiving>
    ensures { option_map (λ r. r.now) result ≡ last_receiving (reverse entries.now) key.now }
{
    let mut found = None;
    for entry in entries {
        found = receiving_after(entry, key, found);
    }
    found
}
