//! One turn of the node: an order, its answer, and what it adds to the journal.
ghost use Rattle.std.specs.Prelude.{◌≡◌, ◌+◌, ◌^◌, ◌<◌, ◌≤◌, ◌++◌, ◌∷◌, [], length, true, Some, option_to_list, IfOk, OnOk, OnErr, IfErr};
ghost use Rattle.cd_outside.specs.Counts.{Rose};
ghost use Rattle.cd_outside.specs.Disk.{last_of, LeftAt};
ghost use Rattle.cd_outside.specs.Moments.{Moments};
ghost use Rattle.cd_outside.specs.Streams.{TookFront};
ghost use Rattle.cd_journal.specs.Fault.{OnDisk, IfFull, IfUnfit};
ghost use Rattle.cd_ast.specs.Canonical.{canonical};
ghost use Rattle.cd_entries.specs.Entry.{entry_bytes, IsEntry, IsWritable};
ghost use Rattle.cd_turn.specs.Entries.{submitted_in};
ghost use Rattle.cd_turn.specs.Home.{IsHome, HasKept};
ghost use Rattle.cd_turn.specs.Legal.{IsLegal, IsNext};
ghost use Rattle.cd_turn.specs.Order.{IsFormed};
ghost use Rattle.cd_turn.specs.Reply.{reply_text};
ghost use Rattle.cd_turn.specs.Ends.{MayLeave, journal_length, FitsBehind, HasReason, TookAtEnd};
ghost use Rattle.cd_turn.specs.Turn.{is_named, room_answer, partner_answer, submission_answer, refusal_for, named_answer, answer, submission, submission_with, added, MayKeep};

use crate::home::{Home, card_for};
use crate::order::Order;
use crate::reply::{Refusal, Reply};
use crate::status::Status;
use cd_ast::{Process, print};
use cd_entries::Entry;
use cd_journal::JournalFault;
use cd_outside::{Beat, Disk, Sink};
use cd_submission::Unread;
use cd_types::{Bytes, MOST_LIVE, Moment, NoMemory, NodeName, ProcNo};
use std::alloc::Global;

fn is_named(entries: &[Entry]) -> bool
    ensures { result ≡ is_named entries.now }
{
    match entries {
        [] => false,
        _ => true,
    }
}

// What a submission is answered where there is a partner.
fn room_reply(home: &Home) -> Reply
    requires { IsLegal home.now.entries }
    ensures { result ≡ room_answer home.now.entries }
{
    let live = home.live();
    if live >= MOST_LIVE {
        return Reply::Refused(Refusal::Full(MOST_LIVE));
    }
    match ProcNo::new(live + 1) {
        Some(number) => Reply::Submitted(number),
        None => unreachable!(),
    }
}

// What a submission is answered.
fn submission_reply(home: &Home, process: &Process) -> Reply
    requires { IsLegal home.now.entries }
    ensures { result ≡ submission_answer home.now.entries process.now }
{
    if !is_named(home.entries()) {
        return Reply::Refused(Refusal::NotHome);
    }
    match process.card.snode {
        Some(_) => room_reply(home),
        None => Reply::Refused(Refusal::NoNode),
    }
}

// Why there is no Process, as it is told.
fn refusal_for(alloc: Global, why: &Unread) -> Result<Refusal, NoMemory>
    ensures { IfOk result (λ refusal. refusal ≡ refusal_for why.now) }
{
    match why {
        Unread::NoFile(name) => Ok(Refusal::NoFile(Bytes::copy_of(alloc, name.as_slice())?)),
        Unread::FileFault => Ok(Refusal::FileFault),
        Unread::Wrong(name, at) => Ok(Refusal::Text(*name, *at)),
    }
}

// What a submission is answered that is refused for this.
fn named_reply(home: &Home, refusal: Refusal) -> Reply
    ensures { result ≡ named_answer home.now.entries refusal }
{
    if is_named(home.entries()) {
        Reply::Refused(refusal)
    } else {
        Reply::Refused(Refusal::NotHome)
    }
}

// What a look at a Process is answered.
fn view_reply(alloc: Global, process: &Process) -> Result<Reply, NoMemory>
    ensures { IfOk result (λ reply. reply ≡ Reply.Viewed (canonical process.now)) }
{
    let text = print(alloc, process)?;
    Ok(Reply::Viewed(Bytes::new(text)))
}

fn init_reply(home: &Home, name: NodeName, number: u64) -> Reply
    ensures { result ≡ answer home.now.entries (Order.Init name number) }
{
    if is_named(home.entries()) {
        Reply::Refused(Refusal::AlreadyHome)
    } else {
        Reply::Home(name, number)
    }
}

/// What an order is answered.
fn reply_to(alloc: Global, home: &Home, wanted: &Order) -> Result<Reply, NoMemory>
    requires { IsLegal home.now.entries }
    ensures { IfOk result (λ reply. reply ≡ answer home.now.entries wanted.now) }
{
    match wanted {
        Order::Wrong(name, at) => Ok(Reply::Refused(Refusal::Text(*name, *at))),
        Order::NotBuilt => Ok(Reply::Refused(Refusal::NotYet)),
        Order::Stop => Ok(Reply::Stopped),
        Order::Init(name, number) => Ok(init_reply(home, *name, *number)),
        Order::Submit(process) => Ok(submission_reply(home, process)),
        Order::SubmitNotBuilt => Ok(named_reply(home, Refusal::NotYet)),
        Order::SubmitUnread(why) => Ok(named_reply(home, refusal_for(alloc, why)?)),
        Order::View(process) => match view_reply(alloc, process) {
            Ok(reply) => Ok(reply),
            Err(fault) => Err(fault),
        },
        Order::ViewUnread(why) | Order::DrillUnread(why) => {
            Ok(Reply::Refused(refusal_for(alloc, why)?))
        }
        Order::Report(report) => Ok(Reply::Reported(Bytes::copy_of(alloc, report.as_slice())?)),
    }
}

// The entry of a submission.
fn submission(
    alloc: Global,
    home: &Home,
    number: ProcNo,
    snode: NodeName,
    process: &Process,
    now: Moment,
) -> Result<Entry, NoMemory>
    requires { number ≡ submitted_in home.now.entries + 1 }
    ensures { IfOk result (λ e. e ≡ submission home.now.entries now snode process.now) }
{
    let text = print(alloc, process)?;
    let moment = Moment::latest(now.seconds().max(home.latest()));
    let card = card_for(snode, &process.card);
    Ok(Entry::Submitted(number, moment, None, card, Bytes::new(text)))
}

// What a submission adds to the journal.
fn submission_entry(
    alloc: Global,
    home: &Home,
    process: &Process,
    now: Moment,
) -> Result<Option<Entry>, NoMemory>
    requires { IsLegal home.now.entries }
    ensures { IfOk result (λ e. e ≡ submission_with home.now.entries now process.now process.now.card.snode) }
{
    let Some(snode) = process.card.snode else {
        return Ok(None);
    };
    match room_reply(home) {
        Reply::Submitted(number) => Ok(Some(submission(alloc, home, number, snode, process, now)?)),
        _ => Ok(None),
    }
}

// What an order adds to the journal.
fn entry_for(
    alloc: Global,
    home: &Home,
    wanted: &Order,
    now: Moment,
) -> Result<Option<Entry>, NoMemory>
    requires { IsLegal home.now.entries }
    ensures { IfOk result (λ e. e ≡ added home.now.entries now wanted.now) }
{
    match wanted {
        Order::Wrong(..)
        | Order::NotBuilt
        | Order::SubmitNotBuilt
        | Order::SubmitUnread(_)
        | Order::View(_)
        | Order::ViewUnread(_)
        | Order::Report(_)
        | Order::DrillUnread(_)
        | Order::Stop => Ok(None),
        Order::Init(name, number) => {
            if is_named(home.entries()) {
                Ok(None)
            } else {
                Ok(Some(Entry::Home(*name, *number)))
            }
        }
        Order::Submit(process) => {
            if !is_named(home.entries()) {
                return Ok(None);
            }
            match submission_entry(alloc, home, process, now) {
                Ok(entry) => Ok(entry),
                Err(fault) => Err(fault),
            }
        }
    }
}

// Keeps an entry; where the disk has no bytes yet, it makes the journal first.
fn kept<P: Disk>(
    home: &mut Home,
    entry: Entry,
    journal: &mut P,
    beat: &mut Beat,
) -> Result<(), JournalFault>
    requires next { IsNext home.old.entries entry }
    requires writable { IsWritable entry }
    requires short { length (entry_bytes entry) ≤ 262144 }
    requires legal { IsLegal home.old.entries }
    requires sound { home.old.journal.sound ≡ true }
    requires home { P.observable → IsHome home.old (P.state journal.old) }
    requires order { P.observable → last_of (P.state journal.old).calls ≤ beat.old }
    ensures home { P.observable → OnOk result (IsHome home.new (P.state journal.new)) }
    ensures kept { OnOk result (home.new.entries ≡ home.old.entries ++ entry ∷ []) }
    ensures form { OnOk result (IsEntry entry) }
    ensures sound { OnOk result (home.new.journal.sound ≡ true) }
    ensures moments { P.observable → Moments (LeftAt (P.state journal.old)) (LeftAt (P.state journal.new)) beat.old
        (MayLeave ((P.state journal.old).seen ≡ []) home.old.entries (Some entry)) }
    ensures full { IfFull result (λ len. 2 ^ 30 < len + 5 + length (entry_bytes entry)) }
    ensures full_len { P.observable → IfFull result (λ len. len ≡ journal_length home.old.entries) }
    ensures fits { P.observable → OnOk result (FitsBehind home.old.entries (Some entry)) }
    ensures fits_too { P.observable → OnDisk result (FitsBehind home.old.entries (Some entry)) }
    ensures unfit { P.observable → IfUnfit result (λ _. ⊥) }
    ensures cause { OnDisk result (Rose (P.faults journal.old) (P.faults journal.new)) }
    ensures order { P.observable → last_of (P.state journal.new).calls ≤ beat.new }
    ensures beat { beat.old ≤ beat.new }
    ensures later { P.faults journal.old ≤ P.faults journal.new }
{
    if home.has_header() {
        return home.keep(journal, entry, beat);
    }
    match home.make(journal, beat) {
        Ok(()) => {}
        Err(fault) => return Err(fault),
    }
    if !home.has_header() {
        return Err(JournalFault::Unfit(0));
    }
    home.keep(journal, entry, beat)
}

// Keeps an entry, and tells why the run ends where it can't.
#[tactic(auto, using(crate::proofs::Legality::legal_push, crate::proofs::Homes::entry_seen))]
fn keep_entry<P: Disk>(
    home: &mut Home,
    entry: Entry,
    journal: &mut P,
    beat: &mut Beat,
) -> Result<(), Status>
    requires may { MayKeep home.old.entries entry }
    requires legal { IsLegal home.old.entries }
    requires sound { home.old.journal.sound ≡ true }
    requires home { P.observable → IsHome home.old (P.state journal.old) }
    requires order { P.observable → last_of (P.state journal.old).calls ≤ beat.old }
    ensures home { P.observable → OnOk result (IsHome home.new (P.state journal.new)) }
    ensures kept { OnOk result (home.new.entries ≡ home.old.entries ++ entry ∷ []) }
    ensures legal { OnOk result (IsLegal home.new.entries) }
    ensures sound { OnOk result (home.new.journal.sound ≡ true) }
    ensures moments { P.observable → Moments (LeftAt (P.state journal.old)) (LeftAt (P.state journal.new)) beat.old
        (MayLeave ((P.state journal.old).seen ≡ []) home.old.entries (Some entry)) }
    ensures fresh { P.observable → OnOk result ((P.state journal.new).seen ≡ [] → ⊥) }
    ensures reason { IfErr result (HasReason P.observable (Rose (P.faults journal.old) (P.faults journal.new)) ⊥ home.old.entries (Some entry)) }
    ensures fits { P.observable → OnOk result (FitsBehind home.old.entries (Some entry)) }
    ensures order { P.observable → last_of (P.state journal.new).calls ≤ beat.new }
    ensures beat { beat.old ≤ beat.new }
    ensures later { P.faults journal.old ≤ P.faults journal.new }
{
    match kept(home, entry, journal, beat) {
        Ok(()) => Ok(()),
        Err(JournalFault::Disk) => Err(Status::DiskFault),
        Err(JournalFault::Full(len)) => Err(Status::JournalFull(len)),
        Err(JournalFault::Unfit(at)) => Err(Status::Unfit(at)),
        Err(JournalFault::NoMemory) => Err(Status::NoMemory),
    }
}

// Keeps what an order adds.
#[tactic(auto, using(crate::proofs::Adding::added_may))]
fn keep_added<P: Disk>(
    alloc: Global,
    home: &mut Home,
    wanted: &Order,
    now: Moment,
    journal: &mut P,
    beat: &mut Beat,
) -> Result<(), Status>
    requires formed { IsFormed wanted.now }
    requires legal { IsLegal home.old.entries }
    requires sound { home.old.journal.sound ≡ true }
    requires home { P.observable → IsHome home.old (P.state journal.old) }
    requires order { P.observable → last_of (P.state journal.old).calls ≤ beat.old }
    ensures home { P.observable → OnOk result (IsHome home.new (P.state journal.new)) }
    ensures kept { OnOk result (home.new.entries ≡ home.old.entries ++ option_to_list (added home.old.entries now wanted.now)) }
    ensures legal { OnOk result (IsLegal home.new.entries) }
    ensures sound { OnOk result (home.new.journal.sound ≡ true) }
    ensures moments { P.observable → Moments (LeftAt (P.state journal.old)) (LeftAt (P.state journal.new)) beat.old
        (MayLeave ((P.state journal.old).seen ≡ []) home.old.entries (added home.old.entries now wanted.now)) }
    ensures fresh { P.observable → OnOk result ((P.state journal.new).seen ≡ [] → (P.state journal.old).seen ≡ []) }
    ensures reason { IfErr result (HasReason P.observable (Rose (P.faults journal.old) (P.faults journal.new)) ⊥ home.old.entries (added home.old.entries now wanted.now)) }
    ensures fits { P.observable → OnOk result (FitsBehind home.old.entries (added home.old.entries now wanted.now)) }
    ensures order { P.observable → last_of (P.state journal.new).calls ≤ beat.new }
    ensures beat { beat.old ≤ beat.new }
    ensures later { P.faults journal.old ≤ P.faults journal.new }
{
    match entry_for(alloc, home, wanted, now) {
        Ok(Some(entry)) => keep_entry(home, entry, journal, beat),
        Ok(None) => Ok(()),
        Err(_) => Err(Status::NoMemory),
    }
}

// Writes the line of a reply.
fn tell<O: Sink>(reply: Reply, text: &[u8], out: &mut O) -> Result<Reply, Status>
    ensures reply { IfOk result (λ told. told ≡ reply) }
    ensures out { O.observable → OnOk result (O.taken out.new ≡ O.taken out.old ++ text.now) }
    ensures front { O.observable → OnErr result (TookFront (O.taken out.old) text.now (O.taken out.new)) }
    ensures fault { IfErr result (λ status. (status ≡ Status.SinkFault) × Rose (O.faults out.old) (O.faults out.new)) }
    ensures later { O.faults out.old ≤ O.faults out.new }
{
    match out.write(text) {
        Ok(()) => Ok(reply),
        Err(_) => Err(Status::SinkFault),
    }
}

/// Does one order: decides the answer, keeps what the order adds, and then writes the answer. So what was answered is
/// on the disk. Where it fails, the run ends; the output took a front of the answer where that is what failed, and else
/// nothing. A crash at any moment leaves the entries before it, or these with what the order adds.
#[tactic(auto, using(crate::proofs::Homes::rests_after))]
pub fn make_turn<P: Disk, O: Sink>(
    alloc: Global,
    home: &mut Home,
    wanted: &Order,
    now: Moment,
    journal: &mut P,
    out: &mut O,
    beat: &mut Beat,
) -> Result<Reply, Status>
    requires formed { IsFormed wanted.now }
    requires legal { IsLegal home.old.entries }
    requires sound { home.old.journal.sound ≡ true }
    requires home { P.observable → IsHome home.old (P.state journal.old) }
    requires order { P.observable → last_of (P.state journal.old).calls ≤ beat.old }
    ensures reply { IfOk result (λ reply. reply ≡ answer home.old.entries wanted.now) }
    ensures out { O.observable → IfOk result (λ reply. O.taken out.new ≡ O.taken out.old ++ reply_text reply) }
    ensures took { O.observable → IfErr result (λ status. TookAtEnd status (reply_text (answer home.old.entries wanted.now)) (O.taken out.old) (O.taken out.new)) }
    // Where the output failed, what the order adds was on the disk before.
    ensures written { P.observable → IfErr result (λ status. status ≡ Status.SinkFault → HasKept (home.old.entries ++ option_to_list (added home.old.entries now wanted.now)) (P.state journal.new)) }
    ensures home { P.observable → OnOk result (IsHome home.new (P.state journal.new)) }
    ensures kept { OnOk result (home.new.entries ≡ home.old.entries ++ option_to_list (added home.old.entries now wanted.now)) }
    ensures legal { OnOk result (IsLegal home.new.entries) }
    ensures sound { OnOk result (home.new.journal.sound ≡ true) }
    ensures moments { P.observable → Moments (LeftAt (P.state journal.old)) (LeftAt (P.state journal.new)) beat.old
        (MayLeave ((P.state journal.old).seen ≡ []) home.old.entries (added home.old.entries now wanted.now)) }
    ensures fresh { P.observable → OnOk result ((P.state journal.new).seen ≡ [] → (P.state journal.old).seen ≡ []) }
    ensures reason { IfErr result (HasReason P.observable (Rose (P.faults journal.old) (P.faults journal.new)) (Rose (O.faults out.old) (O.faults out.new)) home.old.entries (added home.old.entries now wanted.now)) }
    ensures fits { P.observable → OnOk result (FitsBehind home.old.entries (added home.old.entries now wanted.now)) }
    ensures order { P.observable → last_of (P.state journal.new).calls ≤ beat.new }
    ensures beat { beat.old ≤ beat.new }
    ensures later { P.faults journal.old ≤ P.faults journal.new }
    ensures later_out { O.faults out.old ≤ O.faults out.new }
{
    let Ok(reply) = reply_to(alloc, home, wanted) else {
        return Err(Status::NoMemory);
    };
    let Ok(text) = reply.text(alloc) else {
        return Err(Status::NoMemory);
    };
    match keep_added(alloc, home, wanted, now, journal, beat) {
        Ok(()) => {}
        Err(status) => return Err(status),
    }
    tell(reply, &text, out)
}
