//! A home: the entries of a journal, and what follows from them.
ghost use Rattle.std.specs.Prelude.{◌≡◌, ◌≢◌, ◌⊎◌, ◌+◌, ◌*◌, ◌≤◌, ◌<◌, ◌^◌, ◌++◌, ◌∷◌, [], List, ℕ, length, map, vec_len, vec_capacity, slice_get, true, false, ⊤, Some, None, IsTrue, IfOk, OnOk, OnErr, IfSome, All, ◌↔◌};
ghost use Rattle.cd_outside.specs.Counts.{Rose};
ghost use Rattle.cd_outside.specs.Doubt.{IsImage};
ghost use Rattle.cd_outside.specs.Disk.{last_of, LeftAt};
ghost use Rattle.cd_outside.specs.Moments.{Moments};
ghost use Rattle.cd_journal.specs.Bytes.{list_of};
ghost use Rattle.cd_journal.specs.Fault.{OnDisk, IfFull, IfUnfit, OnNoMemory};
ghost use Rattle.cd_journal.specs.Journal.{Opens, IsAt, KeepsList, length_of};
ghost use Rattle.cd_entries.specs.Entry.{entry_bytes, IsEntry, IsWritable};
ghost use Rattle.cd_turn.specs.Counts.{AreCounts};
ghost use Rattle.cd_turn.specs.Entries.{is_submission, submitted_in, live_in, moment_of, latest_in, origin_of};
ghost use Rattle.cd_turn.specs.Home.{StandsFor, IsHome, IsBad, HasBad, IsUnfit};
ghost use Rattle.cd_turn.specs.Legal.{IsNext, IsLegal, IsSubmission};
ghost use Rattle.cd_turn.specs.Texts.{card_for, filed_card, push_card, card_in, without_start, IsText};

use cd_ast::Process;
use cd_book::Texts;
use cd_canonical::Canonical;
use cd_entries::{Entry, EntryFault, read_entry, write_entry};
use cd_journal::{Journal, JournalFault};
use cd_outside::{Beat, Disk};
use cd_submission::{DEFAULT_INTERVAL, is_push};
use cd_types::{
    Card, Filed, Key, LONGEST_KEPT_TEXT, MOST_LIVE, Moment, NoMemory, NodeName, ProcNo,
};
use std::alloc::Global;
use std::marker::Model;

/// The entries of a journal, which isn't held but handed to each call with its disk. It counts what is asked of them often.
/// Contracts see the journal and the entries.
#[derive(Drop)]
pub struct Home {
    alloc: Global,
    journal: Journal,
    entries: Vec<Entry>,
    submitted: u32,
    latest: u64,
}

impl Model for Home {
    ghost use Rattle.cd_turn.specs.Home.{HomeState};
    ghost use Rattle.cd_turn.specs.Counts.{AreCounts};

    ghost Value = { HomeState };

    ghost view = { λ home. record { journal = home.journal; entries = home.entries.items } };

    ghost invariant = { λ home. AreCounts home.entries.items home.submitted home.latest };
}

/// The card that is kept of a Process with this partner.
pub fn card_for(snode: NodeName, card: &Card) -> Filed
    ensures { result ≡ card_for snode card.now }
{
    Filed {
        name: card.name,
        snode,
        prty: card.prty,
        class: card.class,
        hold: card.hold,
        retain: card.retain,
        start: None,
    }
}

fn filed_card(card: &Card) -> Option<Filed>
    ensures card { result ≡ filed_card card.now }
    ensures start { IfSome result (λ kept. kept.start ≡ None) }
{
    match card.snode {
        Some(snode) => Some(card_for(snode, card)),
        None => None,
    }
}

fn push_card(process: &Option<Process>) -> Option<Filed>
    ensures card { result ≡ push_card process.now }
    ensures start { IfSome result (λ kept. kept.start ≡ None) }
{
    match process {
        Some(process) => {
            if is_push(process, Some(DEFAULT_INTERVAL)) {
                filed_card(&process.card)
            } else {
                None
            }
        }
        None => None,
    }
}

// The card of the Process whose canonical text this is.
#[tactic(auto, unfolding(crate::specs::Texts::card_in))]
fn card_in(alloc: Global, text: &[u8]) -> Result<Option<Filed>, NoMemory>
    ensures card { IfOk result (λ card. card ≡ card_in text.now) }
    ensures start { IfOk result (λ card. IfSome card (λ kept. kept.start ≡ None)) }
{
    match Canonical.process(alloc, text) {
        Ok(process) => Ok(push_card(&process)),
        Err(fault) => Err(fault),
    }
}

fn are_same(a: &[u8], b: &[u8]) -> bool
    ensures { IsTrue result ↔ (a.now ≡ b.now) }
{
    a == b
}

// Whether a card says, but for its start, the same as one without a start.
fn same_card(a: &Filed, b: &Filed) -> bool
    requires { b.now.start ≡ None }
    ensures yes { IsTrue result → without_start a.now ≡ b.now }
    ensures only { without_start a.now ≡ b.now → IsTrue result }
{
    if !are_same(a.name.as_bytes(), b.name.as_bytes()) {
        return false;
    }
    if !are_same(a.snode.as_bytes(), b.snode.as_bytes()) {
        return false;
    }
    if a.prty != b.prty || a.class != b.class {
        return false;
    }
    a.hold == b.hold && a.retain == b.retain
}

// Whether the text is the canonical one of a Process whose card this is, but for a start.
fn is_text(alloc: Global, card: &Filed, text: &[u8]) -> Result<bool, NoMemory>
    ensures yes { IfOk result (λ is. IsTrue is → IsText card.now text.now) }
    ensures only { IfOk result (λ is. IsText card.now text.now → IsTrue is) }
{
    match card_in(alloc, text) {
        Ok(Some(kept)) => Ok(same_card(card, &kept)),
        Ok(None) => Ok(false),
        Err(fault) => Err(fault),
    }
}

fn same_key(a: &Key, b: &Key) -> bool
    ensures yes { IsTrue result → a.now ≡ b.now }
    ensures only { a.now ≡ b.now → IsTrue result }
{
    if !are_same(a.pnode.as_bytes(), b.pnode.as_bytes()) {
        return false;
    }
    a.home == b.home && a.number.number() == b.number.number() && a.place == b.place
}

fn origin_of(entry: &Entry) -> Option<Key>
    ensures { result ≡ origin_of entry.now }
{
    match entry {
        Entry::Submitted(_, _, origin, _, _) => *origin,
        _ => None,
    }
}

fn has_origin(entry: &Entry, key: &Key) -> bool
    ensures { IsTrue result ↔ (origin_of entry.now ≡ Some key.now) }
{
    match origin_of(entry) {
        Some(origin) => same_key(&origin, key),
        None => false,
    }
}

// No entry was submitted by this step.
fn is_new(entries: &[Entry], origin: &Option<Key>) -> bool
    ensures { IsTrue result ↔ IfSome origin.now (λ key. All (λ e. origin_of e ≢ Some key) entries.now) }
{
    match origin {
        None => true,
        Some(key) => entries.iter().all(|entry| !has_origin(entry, key)),
    }
}

/// There are no entries, so the home has no name yet.
pub fn has_none(entries: &[Entry]) -> bool
    ensures yes { IsTrue result → entries.now ≡ [] }
    ensures only { entries.now ≡ [] → IsTrue result }
{
    match entries {
        [] => true,
        _ => false,
    }
}

fn is_submission(entry: &Entry) -> bool
    ensures { result ≡ is_submission entry.now }
{
    match entry {
        Entry::Submitted(..) => true,
        _ => false,
    }
}

fn moment_of(entry: &Entry) -> u64
    ensures moment { result ≡ moment_of entry.now }
    ensures form { result < 250000000000 }
{
    match entry {
        Entry::Submitted(_, moment, ..) => moment.seconds(),
        Entry::Placed(_, _, moment) => moment.seconds(),
        Entry::Started(_, _, _, moment) => moment.seconds(),
        Entry::Result(_, _, moment) => moment.seconds(),
        Entry::Ended(_, _, _, _, _, moment) => moment.seconds(),
        Entry::Closed(_, _, moment) => moment.seconds(),
        Entry::Dropped(_, _, _, moment) => moment.seconds(),
        Entry::Home(..) | Entry::Receiving(_) | Entry::Mark(..) | Entry::Forgot(..) => 0,
    }
}

// Adds an entry for which there is room, and counts it.
#[tactic(auto, using(crate::proofs::Counting::counted))]
fn add(entries: &mut Vec<Entry>, submitted: &mut u32, latest: &mut u64, entry: Entry)
    requires room { vec_len entries.old < vec_capacity entries.old }
    requires counts { AreCounts entries.old.items submitted.old latest.old }
    requires fewer { submitted.old < 99999 }
    ensures items { entries.new.items ≡ entries.old.items ++ entry ∷ [] }
    ensures counts { AreCounts entries.new.items submitted.new latest.new }
{
    *submitted += is_submission(&entry) as u32;
    *latest = (*latest).max(moment_of(&entry));
    entries.push(entry).unwrap();
}

impl Home {
    // Whether this submission may follow the entries.
    fn may_submit(
        &self,
        number: ProcNo,
        moment: Moment,
        origin: &Option<Key>,
        card: &Filed,
        text: &[u8],
    ) -> Result<bool, NoMemory>
        requires { IsLegal self.now.entries }
        ensures yes { IfOk result (λ may. IsTrue may → IsSubmission self.now.entries number moment origin.now card.now text.now) }
        ensures only { IfOk result (λ may. IsSubmission self.now.entries number moment origin.now card.now text.now → IsTrue may) }
    {
        if has_none(&self.entries) {
            return Ok(false);
        }
        if self.submitted >= MOST_LIVE {
            return Ok(false);
        }
        if number.number() != self.submitted + 1 {
            return Ok(false);
        }
        if moment.seconds() < self.latest {
            return Ok(false);
        }
        if text.len() > LONGEST_KEPT_TEXT {
            return Ok(false);
        }
        if !is_new(&self.entries, origin) {
            return Ok(false);
        }
        match is_text(self.alloc, card, text) {
            Ok(is) => Ok(is),
            Err(fault) => Err(fault),
        }
    }

    // Whether this entry may follow the entries.
    fn is_next(&self, entry: &Entry) -> Result<bool, NoMemory>
        requires { IsLegal self.now.entries }
        ensures yes { IfOk result (λ is. IsTrue is → IsNext self.now.entries entry.now) }
        ensures only { IfOk result (λ is. IsNext self.now.entries entry.now → IsTrue is) }
    {
        match entry {
            Entry::Home(..) => Ok(has_none(&self.entries)),
            Entry::Submitted(number, moment, origin, card, text) => {
                match self.may_submit(*number, *moment, origin, card, text.as_slice()) {
                    Ok(may) => Ok(may),
                    Err(fault) => Err(fault),
                }
            }
            Entry::Placed(..)
            | Entry::Started(..)
            | Entry::Receiving(_)
            | Entry::Mark(..)
            | Entry::Result(..)
            | Entry::Ended(..)
            | Entry::Closed(..)
            | Entry::Forgot(..)
            | Entry::Dropped(..) => Ok(false),
        }
    }

    // Adds the entry whose body this is. `Unfit` with the body's place exactly where it is no entry that may follow.
    fn take_body(&mut self, body: &[u8], at: u64) -> Result<(), JournalFault>
        requires { IsLegal self.old.entries }
        ensures ok { OnOk result (map entry_bytes self.new.entries ≡ map entry_bytes self.old.entries ++ body.now ∷ []) }
        ensures legal { IsLegal self.new.entries }
        ensures unfit { IfUnfit result (λ place. (place ≡ at) × IsBad self.old.entries body.now) }
        ensures err { OnErr result (self.new.entries ≡ self.old.entries) }
        ensures disk { OnDisk result ⊥ }
        ensures full { IfFull result (λ _. ⊥) }
        ensures journal { self.new.journal ≡ self.old.journal }
    {
        let entry = match read_entry(self.alloc, body) {
            Ok(entry) => entry,
            Err(EntryFault::Unfit) => return Err(JournalFault::Unfit(at)),
            Err(EntryFault::NoMemory) => return Err(JournalFault::NoMemory),
        };
        let is_next = match self.is_next(&entry) {
            Ok(is_next) => is_next,
            Err(_) => return Err(JournalFault::NoMemory),
        };
        if !is_next {
            return Err(JournalFault::Unfit(at));
        }
        self.entries.reserve(1)?;
        add(
            &mut self.entries,
            &mut self.submitted,
            &mut self.latest,
            entry,
        );
        Ok(())
    }

    // Reads the entries of a journal that was opened on this disk.
    fn load<P: Disk>(&mut self, disk: &mut P) -> Result<(), JournalFault>
        requires none { self.old.entries ≡ [] }
        requires opens { P.observable → Opens self.old.journal (P.state disk.old) }
        ensures home { P.observable → OnOk result (IsHome self.new (P.state disk.new)) }
        ensures legal { IsLegal self.new.entries }
        ensures unfit { P.observable → IfUnfit result (λ at. IsUnfit (P.state disk.old).seen at) }
        ensures same { P.observable → P.state disk.new ≡ P.state disk.old }
        ensures sound { OnOk result (self.new.journal.sound ≡ self.old.journal.sound) }
        ensures cause { OnDisk result (Rose (P.faults disk.old) (P.faults disk.new)) }
        ensures full { IfFull result (λ _. ⊥) }
        ensures later { P.faults disk.old ≤ P.faults disk.new }
    {
        if !self.journal.has_header() {
            return Ok(());
        }
        let mut body = Vec::new(self.alloc);
        let mut at = 13u64;
        for i in 0..self.journal.count() {
            match self.take_entry(disk, i, &mut body, at) {
                Ok(()) => {}
                Err(fault) => return Err(fault),
            }
            at = at.saturating_add(5 + body.len() as u64);
        }
        Ok(())
    }

    // Reads the body of an entry, and adds the entry.
    fn take_entry<P: Disk>(
        &mut self,
        disk: &mut P,
        i: u32,
        body: &mut Vec<u8>,
        at: u64,
    ) -> Result<(), JournalFault>
        requires below { i < length self.old.journal.places }
        requires at { P.observable → IsAt self.old.journal (P.state disk.old) }
        requires legal { IsLegal self.old.entries }
        ensures body { P.observable → OnOk result (IfOk (list_of (P.state disk.old).seen) (λ bodies. slice_get bodies i ≡ Some body.new.items)) }
        ensures entries { OnOk result (map entry_bytes self.new.entries ≡ map entry_bytes self.old.entries ++ body.new.items ∷ []) }
        ensures legal { IsLegal self.new.entries }
        ensures unfit { P.observable → IfUnfit result (λ place. (place ≡ at) × IfOk (list_of (P.state disk.old).seen) (λ bodies. HasBad self.old.entries bodies i)) }
        ensures kept { KeepsList self.old.journal self.new.journal }
        ensures sound { OnOk result (self.new.journal.sound ≡ self.old.journal.sound) }
        ensures same { P.observable → P.state disk.new ≡ P.state disk.old }
        ensures cause { OnDisk result (Rose (P.faults disk.old) (P.faults disk.new)) }
        ensures full { IfFull result (λ _. ⊥) }
        ensures later { P.faults disk.old ≤ P.faults disk.new }
    {
        match self.journal.entry(disk, i, body) {
            Ok(()) => self.take_body(body, at),
            Err(fault) => Err(fault),
        }
    }

    /// Opens the home of this disk: syncs, reads the journal's entries, and sees that each may follow those before it.
    /// `Unfit` tells the first place that isn't as it has to be, exactly where there is one.
    pub fn open<P: Disk>(alloc: Global, disk: &mut P, beat: &mut Beat) -> Result<Self, JournalFault>
        requires { P.observable → last_of (P.state disk.old).calls ≤ beat.old }
        ensures home { P.observable → IfOk result (λ home. IsHome home (P.state disk.new)) }
        ensures legal { IfOk result (λ home. IsLegal home.entries) }
        ensures sound { IfOk result (λ home. home.journal.sound ≡ true) }
        ensures unfit { P.observable → IfUnfit result (λ at. IsUnfit (P.state disk.old).seen at) }
        ensures same { P.observable → (P.state disk.new).seen ≡ (P.state disk.old).seen }
        ensures moments { P.observable → Moments (LeftAt (P.state disk.old)) (LeftAt (P.state disk.new)) beat.old (IsImage (P.state disk.old).doubt) }
        ensures cause { OnDisk result (Rose (P.faults disk.old) (P.faults disk.new)) }
        ensures full { IfFull result (λ _. ⊥) }
        ensures order { P.observable → last_of (P.state disk.new).calls ≤ beat.new }
        ensures beat { beat.old ≤ beat.new }
        ensures later { P.faults disk.old ≤ P.faults disk.new }
    {
        let journal = match Journal::open(alloc, disk, beat) {
            Ok(journal) => journal,
            Err(fault) => return Err(fault),
        };
        let mut home = Home {
            alloc,
            journal,
            entries: Vec::new(alloc),
            submitted: 0,
            latest: 0,
        };
        match home.load(disk) {
            Ok(()) => Ok(home),
            Err(fault) => Err(fault),
        }
    }

    /// Its entries.
    pub fn entries(&self) -> &[Entry]
        ensures { result.now ≡ self.now.entries }
    {
        &self.entries
    }

    /// Appends an entry that may follow. At `Ok` it is on the disk; a crash at any moment of the call leaves the list from
    /// before it, or the list with the entry.
    pub fn keep<P: Disk>(
        &mut self,
        disk: &mut P,
        entry: Entry,
        beat: &mut Beat,
    ) -> Result<(), JournalFault>
        requires next { IsNext self.old.entries entry }
        requires writable { IsWritable entry }
        requires short { length (entry_bytes entry) ≤ 262144 }
        requires legal { IsLegal self.old.entries }
        requires header { self.old.journal.has_header ≡ true }
        requires sound { self.old.journal.sound ≡ true }
        requires home { P.observable → IsHome self.old (P.state disk.old) }
        requires order { P.observable → last_of (P.state disk.old).calls ≤ beat.old }

        ensures home { P.observable → OnOk result (IsHome self.new (P.state disk.new)) }
        ensures kept { OnOk result (self.new.entries ≡ self.old.entries ++ entry ∷ []) }
        ensures err { OnErr result (self.new.entries ≡ self.old.entries) }
        ensures header { self.new.journal.has_header ≡ true }
        ensures sound { OnOk result (self.new.journal.sound ≡ true) }

        ensures moments { P.observable → Moments (LeftAt (P.state disk.old)) (LeftAt (P.state disk.new)) beat.old
            (λ image. StandsFor image self.old.entries ⊎ StandsFor image (self.old.entries ++ entry ∷ [])) }

        ensures form { IsEntry entry }
        ensures full { IfFull result (λ len. (len ≡ length_of self.old.journal) × (2 ^ 30 < length_of self.old.journal + 5 + length (entry_bytes entry))) }
        ensures fits { OnOk result (length_of self.old.journal + 5 + length (entry_bytes entry) ≤ 2 ^ 30) }
        ensures fits_too { OnDisk result (length_of self.old.journal + 5 + length (entry_bytes entry) ≤ 2 ^ 30) }
        ensures full_first { IfFull result (λ _. (disk.new ≡ disk.old) × (beat.new ≡ beat.old)) }
        ensures memory_first { OnNoMemory result ((disk.new ≡ disk.old) × (beat.new ≡ beat.old)) }
        ensures cause { OnDisk result (Rose (P.faults disk.old) (P.faults disk.new)) }
        ensures unfit { IfUnfit result (λ _. ⊥) }
        ensures order { P.observable → last_of (P.state disk.new).calls ≤ beat.new }
        ensures beat { beat.old ≤ beat.new }
        ensures later { P.faults disk.old ≤ P.faults disk.new }
    {
        let mut body = Vec::new(self.alloc);
        if write_entry(&entry, &mut body).is_err() {
            return Err(JournalFault::NoMemory);
        }
        if self.entries.reserve(1).is_err() {
            return Err(JournalFault::NoMemory);
        }
        match self.journal.append(disk, &body, beat) {
            Ok(()) => {
                add(
                    &mut self.entries,
                    &mut self.submitted,
                    &mut self.latest,
                    entry,
                );
                Ok(())
            }
            Err(fault) => Err(fault),
        }
    }

    /// The disk has a header; without one it has no bytes.
    pub fn has_header(&self) -> bool
        ensures { result ≡ self.now.journal.has_header }
    {
        self.journal.has_header()
    }

    /// Makes the journal of a disk without bytes. A stop within may leave any bytes, up to nine.
    pub fn make<P: Disk>(&mut self, disk: &mut P, beat: &mut Beat) -> Result<(), JournalFault>
        requires header { self.old.journal.has_header ≡ false }
        requires home { P.observable → IsHome self.old (P.state disk.old) }
        requires order { P.observable → last_of (P.state disk.old).calls ≤ beat.old }
        ensures home { P.observable → OnOk result (IsHome self.new (P.state disk.new)) }
        ensures entries { self.new.entries ≡ self.old.entries }
        ensures sound { OnOk result (self.new.journal.sound ≡ true) }
        ensures made { P.observable → OnOk result (self.new.journal.has_header ≡ true) }
        ensures moments { P.observable → Moments (LeftAt (P.state disk.old)) (LeftAt (P.state disk.new)) beat.old (λ image. length image ≤ 9) }
        ensures unfit { P.observable → IfUnfit result (λ _. ⊥) }
        ensures cause { OnDisk result (Rose (P.faults disk.old) (P.faults disk.new)) }
        ensures full { IfFull result (λ _. ⊥) }
        ensures order { P.observable → last_of (P.state disk.new).calls ≤ beat.new }
        ensures beat { beat.old ≤ beat.new }
        ensures later { P.faults disk.old ≤ P.faults disk.new }
    {
        match Journal::create(disk, beat) {
            Ok(()) => {}
            Err(fault) => return Err(fault),
        }
        match Journal::open(self.alloc, disk, beat) {
            Ok(journal) => {
                self.journal = journal;
                Ok(())
            }
            Err(fault) => Err(fault),
        }
    }

    /// How many Processes were submitted, which are all live.
    pub fn live(&self) -> u32
        requires { IsLegal self.now.entries }
        ensures submitted { result ≡ submitted_in self.now.entries }
        ensures live { result ≡ live_in self.now.entries }
    {
        self.submitted
    }

    /// The latest moment of an entry.
    pub fn latest(&self) -> u64
        ensures value { result ≡ latest_in self.now.entries }
        ensures form { result < 250000000000 }
    {
        self.latest
    }
}
