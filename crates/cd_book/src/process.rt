//! The questions to a Process, by its number.
ghost use Rattle.std.specs.Prelude.{◌≡◌, ◌+◌, ◌≤◌, ◌<◌, ◌∷◌, ℕ, List, length, reverse, option_map};
ghost use Rattle.cd_entries.specs.declared.entry.Entry.{Entry};
ghost use Rattle.cd_rules.specs.Processes.{submission, submitted, is_origin, made_for, is_live, live_numbers, latest, moment_of, later_of, is_forgotten};
ghost use Rattle.cd_rules.specs.Steps.{runs_itself};
ghost use Rattle.cd_book.specs.Numbers.{AreNumbered};
ghost use Rattle.cd_book.specs.Seen.{seen_submission, told_by, told_in};

use crate::same::{same_bytes, same_key};
use crate::submission::Submission;
use cd_entries::Entry;
use cd_types::{Key, Moment, NodeName, ProcNo, Retain};

// What an entry submits.
fn told_by(entry: &Entry) -> Option<Submission<'_>>
    ensures { option_map seen_submission result ≡ told_by entry.now }
{
    match entry {
        Entry::Submitted(_, moment, origin, card, text) => Some(Submission {
            moment: *moment,
            origin: *origin,
            card,
            text: text.as_slice(),
        }),
        _ => None,
    }
}

#[tactic(auto, unfolding(cd_rules::specs::Processes::submission))]
fn submission_after<'a>(
    entry: &'a Entry,
    number: ProcNo,
    before: Option<&'a Entry>,
) -> Option<&'a Entry>
    ensures { (journal : List Entry) → told_in before.entry ≡ submission journal number → told_in result ≡ submission (entry.now ∷ journal) number }
{
    match entry {
        Entry::Submitted(own, ..) => {
            if own.number() == number.number() {
                Some(entry)
            } else {
                before
            }
        }
        _ => before,
    }
}

// The entry that submitted a number.
fn submitting(entries: &[Entry], number: ProcNo) -> Option<&Entry>
    ensures { told_in result ≡ submission (reverse entries.now) number }
{
    let mut found = None;
    for entry in entries {
        found = submission_after(entry, number, found);
    }
    found
}

pub(crate) fn submission(entries: &[Entry], number: ProcNo) -> Option<Submission<'_>>
    ensures { option_map seen_submission result ≡ submission (reverse entries.now) number }
{
    match submitting(entries, number) {
        Some(entry) => told_by(entry),
        None => None,
    }
}

pub(crate) fn runs_itself(entries: &[Entry], number: ProcNo) -> bool
    ensures { result ≡ runs_itself (reverse entries.now) number }
{
    match submission(entries, number) {
        Some(submission) => match submission.card.retain {
            Retain::No => true,
            _ => false,
        },
        None => false,
    }
}

#[tactic(auto, unfolding(cd_rules::specs::Processes::submitted))]
fn submitted_after(entry: &Entry, before: u32) -> u32
    requires { before < 4294967295 }
    ensures submitted { (journal : List Entry) → before ≡ submitted journal → result ≡ submitted (entry.now ∷ journal) }
    ensures few { result ≤ before + 1 }
{
    match entry {
        Entry::Submitted(..) => before + 1,
        _ => before,
    }
}

pub(crate) fn submitted(entries: &[Entry]) -> u32
    requires { length entries.now < 4294967296 }
    ensures { result ≡ submitted (reverse entries.now) }
{
    let mut found = 0;
    for entry in entries {
        found = submitted_after(entry, found);
    }
    found
}

fn is_origin(key: &Key, origin: &Option<Key>) -> bool
    ensures { result ≡ is_origin key.now origin.now }
{
    match origin {
        Some(step) => same_key(key, step),
        None => false,
    }
}

#[tactic(auto, unfolding(cd_rules::specs::Processes::made_for))]
fn made_after(entry: &Entry, key: &Key, before: Option<ProcNo>) -> Option<ProcNo>
    ensures { (journal : List Entry) → before ≡ made_for journal key.now → result ≡ made_for (entry.now ∷ journal) key.now }
{
    match entry {
        Entry::Submitted(number, _, origin, _, _) => {
            if is_origin(key, origin) {
                Some(*number)
            } else {
                before
            }
        }
        _ => before,
    }
}

pub(crate) fn made_for(entries: &[Entry], key: &Key) -> Option<ProcNo>
    ensures { result ≡ made_for (reverse entries.now) key.now }
{
    let mut found = None;
    for entry in entries {
        found = made_after(entry, key, found);
    }
    found
}

#[tactic(auto, unfolding(cd_rules::specs::Processes::is_live))]
fn live_after(entry: &Entry, number: ProcNo, before: bool) -> bool
    ensures { (journal : List Entry) → before ≡ is_live journal number → result ≡ is_live (entry.now ∷ journal) number }
{
    match entry {
        Entry::Submitted(own, ..) => own.number() == number.number() || before,
        Entry::Closed(own, ..) => own.number() != number.number() && before,
        _ => before,
    }
}

pub(crate) fn is_live(entries: &[Entry], number: ProcNo) -> bool
    ensures { result ≡ is_live (reverse entries.now) number }
{
    let mut found = false;
    for entry in entries {
        found = live_after(entry, number, found);
    }
    found
}

/// The moment of an entry.
pub fn moment_of(entry: &Entry) -> Option<Moment>
    ensures { result ≡ moment_of entry.now }
{
    match entry {
        Entry::Submitted(_, moment, ..) => Some(*moment),
        Entry::Placed(_, _, moment) => Some(*moment),
        Entry::Started(_, _, _, moment) => Some(*moment),
        Entry::Result(_, _, moment) => Some(*moment),
        Entry::Ended(_, _, _, _, _, moment) => Some(*moment),
        Entry::Closed(_, _, moment) => Some(*moment),
        Entry::Dropped(_, _, _, moment) => Some(*moment),
        Entry::Home(..) | Entry::Receiving(_) | Entry::Mark(..) | Entry::Forgot(..) => None,
    }
}

fn later_of(moment: Option<Moment>, before: u64) -> u64
    ensures { result ≡ later_of moment before }
{
    match moment {
        Some(moment) => before.max(moment.seconds()),
        None => before,
    }
}

#[tactic(auto, unfolding(cd_rules::specs::Processes::latest))]
fn latest_after(entry: &Entry, before: u64) -> u64
    ensures { (journal : List Entry) → before ≡ latest journal → result ≡ latest (entry.now ∷ journal) }
{
    later_of(moment_of(entry), before)
}

pub(crate) fn latest(entries: &[Entry]) -> u64
    ensures { result ≡ latest (reverse entries.now) }
{
    let mut found = 0;
    for entry in entries {
        found = latest_after(entry, found);
    }
    found
}

#[tactic(auto, unfolding(cd_rules::specs::Processes::is_forgotten))]
fn forgotten_after(entry: &Entry, name: &NodeName, home: u64, number: ProcNo, before: bool) -> bool
    ensures { (journal : List Entry) → before ≡ is_forgotten journal name.now home number → result ≡ is_forgotten (entry.now ∷ journal) name.now home number }
{
    match entry {
        Entry::Forgot(own, own_home, own_number) => {
            (same_bytes(name.as_bytes(), own.as_bytes())
                && home == *own_home
                && number.number() == own_number.number())
                || before
        }
        _ => before,
    }
}

pub(crate) fn is_forgotten(entries: &[Entry], name: &NodeName, home: u64, number: ProcNo) -> bool
    ensures { result ≡ is_forgotten (reverse entries.now) name.now home number }
{
    let mut found = false;
    for entry in entries {
        found = forgotten_after(entry, name, home, number, found);
    }
    found
}

/// The number behind so many others.
#[tactic(auto, unfolding(cd_types::specs::ProcNo::proc_no_of))]
pub(crate) fn number_behind(before: u32) -> ProcNo
    requires { before < 99999 }
    ensures { result ≡ before + 1 }
{
    ProcNo::new(before + 1).unwrap()
}

// How many Processes are live.
pub(crate) fn live(entries: &[Entry]) -> u32
    requires numbered { AreNumbered (reverse entries.now) }
    requires few { length entries.now < 4294967296 }
    ensures { result ≡ length (live_numbers (reverse entries.now)) }
{
    let mut found = 0;
    for before in 0..submitted(entries) {
        if is_live(entries, number_behind(before)) {
            found += 1;
        }
    }
    found
}
