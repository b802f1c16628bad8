//! Journals worked by hand, entry by entry. `Book` is asked each of its questions once.
ghost use Rattle.std.specs.Prelude.{◌≡◌, None};
ghost use Rattle.cd_book.specs.Book.{IsRead};

use crate::closing::{close_book, close_entry, close_reading};
use cd_ast::{Process, Stmt, Stmts, TaskStep, What};
use cd_book::{Book, Status, Texts};
use cd_entries::Entry;
use cd_legality::allowed;
use cd_types::{
    Bytes, Card, Cause, Disp, Filed, Hold, How, Key, Label, Moment, NoMemory, NodeName, Outcomes,
    Placing, ProcNo, Queue, Reason, Receiving, Retain, Side, TaskKind,
};
use std::alloc::Global;
use std::process::Abort;
use std::test::Fail;

/// Reads each text as the same Process: P1 runs one task, on its own node.
#[derive(Drop)]
struct OneTask;

impl Texts for OneTask {
    ghost use Rattle.std.specs.Prelude.{◌∷◌, [], Some, None, option_map, if◌then◌else◌};
    ghost use Rattle.cd_types.specs.Label.{is_label};
    ghost use Rattle.cd_types.specs.NodeName.{node_name_of};
    ghost use Rattle.cd_types.specs.declared.choices.Hold.TheVariants as hold;
    ghost use Rattle.cd_types.specs.declared.choices.Retain.TheVariants as retain;
    ghost use Rattle.cd_types.specs.declared.choices.Side.TheVariants as side;
    ghost use Rattle.cd_types.specs.declared.choices.TaskKind.TheVariants as task_kind;
    ghost use Rattle.cd_ast.specs.declared.process.What.TheVariants as what;

    ghost read = { λ text. option_map (λ own. record { name = own; card = record { name = own; snode = node_name_of (66 ∷ 69 ∷ 84 ∷ 65 ∷ []); prty = 10; class = 1; hold = hold.No; retain = retain.No; start = None }; stmts = record { label = None; what = what.Task (record { side = side.Pnode; command = 103 ∷ 111 ∷ []; kind = task_kind.Restart }) } ∷ [] }) (if is_label (80 ∷ 49 ∷ []) then Some (80 ∷ 49 ∷ []) else None) };

    fn process(&self, alloc: Global, _: &[u8]) -> Result<Option<Process>, NoMemory> {
        let Some(name) = Label::exact(b"P1") else {
            return Ok(None);
        };
        let command = Bytes::copy_of(alloc, b"go")?;
        let mut stmts = Vec::new(alloc);
        let what = What::Task(TaskStep {
            side: Side::Pnode,
            command,
            kind: TaskKind::Restart,
        });
        stmts.push(Stmt { label: None, what })?;
        let card = Card {
            name,
            snode: NodeName::new(b"BETA"),
            prty: 10,
            class: 1,
            hold: Hold::No,
            retain: Retain::No,
            start: None,
        };
        Ok(Some(Process {
            name,
            card,
            stmts: Stmts::new(stmts),
        }))
    }
}

/// The entry may follow, and goes into the book.
fn add(rt: &impl Abort, book: &mut Book<OneTask>, entry: Entry) -> Result<(), Fail>
    requires { IsRead ⟦<OneTask as Texts>⟧.read entry None }
{
    assert!(rt; allowed(book, &entry, None));
    match book.reserve() {
        Ok(()) => {
            book.put(entry, None);
            Ok(())
        }
        Err(fault) => {
            close_entry(entry);
            Err(Fail::from(fault))
        }
    }
}

/// The entry may follow. It goes nowhere.
fn may(book: &Book<OneTask>, entry: Entry) -> bool
    requires { IsRead ⟦<OneTask as Texts>⟧.read entry None }
{
    let may = allowed(book, &entry, None);
    close_entry(entry);
    may
}

/// A Process is submitted.
fn submit(
    rt: &impl Abort,
    alloc: Global,
    book: &mut Book<OneTask>,
    number: ProcNo,
    moment: Moment,
) -> Result<(), Fail> {
    let card = Filed {
        name: Label::exact(b"P1").ok_or("no label")?,
        snode: NodeName::new(b"BETA").ok_or("no name")?,
        prty: 10,
        class: 1,
        hold: Hold::No,
        retain: Retain::No,
        start: None,
    };
    let text = Bytes::copy_of(alloc, b"a text")?;
    let process = match book.texts().process(alloc, text.as_slice()) {
        Ok(process) => process,
        Err(fault) => return Err(Fail::from(fault)),
    };
    let entry = Entry::Submitted(number, moment, None, card, text);
    assert!(rt; allowed(book, &entry, process.as_ref()));
    match book.reserve() {
        Ok(()) => {
            book.put(entry, process);
            Ok(())
        }
        Err(fault) => {
            close_entry(entry);
            close_reading(process);
            Err(Fail::from(fault))
        }
    }
}

/// The book gets to be that of node ALPHA, at home 17.
fn begin(rt: &impl Abort, book: &mut Book<OneTask>) -> Result<(), Fail> {
    let name = NodeName::new(b"ALPHA").ok_or("no name")?;
    add(rt, book, Entry::Home(name, 17))?;
    Ok(())
}

fn key(name: &[u8], home: u64, number: u32) -> Result<Key, Fail> {
    Ok(Key {
        pnode: NodeName::new(name).ok_or("no name")?,
        home,
        number: ProcNo::new(number).ok_or("no number")?,
        place: 0,
    })
}

fn moment(seconds: u64) -> Result<Moment, Fail> {
    Ok(Moment::new(seconds).ok_or("no moment")?)
}

/// Two Processes are submitted, and the first one is placed.
fn submitted_processes(
    rt: &impl Abort,
    alloc: Global,
    book: &mut Book<OneTask>,
) -> Result<(), Fail> {
    let step = key(b"ALPHA", 17, 1)?;
    let two = ProcNo::new(2).ok_or("no number")?;
    let one = step.number;
    let now = moment(100)?;
    submit(rt, alloc, book, one, now)?;
    submit(rt, alloc, book, two, now)?;
    assert!(rt; book.is_own(&step) && book.is_live(one) && book.runs_itself(one));
    assert_eq!(rt; book.submitted(), 2);
    assert_eq!(rt; book.live(), 2);
    assert!(rt; matches!(book.next_due(now, &[]), Some(row) if row.number == one));
    assert!(rt; matches!(book.next_due(now, &[one]), Some(row) if row.number == two));
    let placed = Placing {
        queue: Queue::Execution,
        reason: Reason::Running,
        due: 0,
        attempts: 0,
        prty: 10,
    };
    add(rt, book, Entry::Placed(one, placed, now))?;
    assert!(rt; matches!(book.placing(one), Some(placing) if placing == placed));
    Ok(())
}

/// The task of the first Process is started twice and ends with 4, and the Process closes.
fn ended_process(rt: &impl Abort, book: &mut Book<OneTask>) -> Result<(), Fail> {
    let step = key(b"ALPHA", 17, 1)?;
    let two = ProcNo::new(2).ok_or("no number")?;
    let later = moment(101)?;
    let one = step.number;
    let outcomes = Outcomes {
        rc: 4,
        cause: Cause::None,
        bytes: 0,
        made: 0,
    };
    add(rt, book, Entry::Started(step, TaskKind::Restart, 1, later))?;
    add(rt, book, Entry::Started(step, TaskKind::Restart, 2, later))?;
    assert_eq!(rt; book.starts(&step), 2);
    assert!(rt; matches!(book.status(&step), Status::Started(2, TaskKind::Restart)));
    assert_eq!(rt; book.next_place(one), 0);
    assert!(rt; matches!(book.what_next(one), Some(What::Task(_))));
    add(rt, book, Entry::Result(step, outcomes, later))?;
    assert!(rt; matches!(book.outcome(&step), Some(found) if found == outcomes));
    assert!(rt; !may(book, Entry::Result(step, outcomes, later)));
    assert!(rt; !may(book, Entry::Ended(one, 0, 0, Cause::None, 0, later)));
    add(rt, book, Entry::Ended(one, 0, 4, Cause::None, 0, later))?;
    assert_eq!(rt; book.next_place(one), 1);
    assert!(rt; book.what_next(one).is_none());
    add(rt, book, Entry::Closed(one, How::Finished, later))?;
    assert!(rt; !book.is_live(one) && book.is_live(two));
    assert_eq!(rt; book.live(), 1);
    assert_eq!(rt; book.latest(), 101);
    assert_eq!(rt; book.len(), 9);
    Ok(())
}

fn whole_process(rt: &impl Abort, alloc: Global, book: &mut Book<OneTask>) -> Result<(), Fail> {
    begin(rt, book)?;
    submitted_processes(rt, alloc, book)?;
    ended_process(rt, book)?;
    Ok(())
}

#[test]
fn own_process(rt: HostRuntime) -> Result<(), Fail> {
    let mut book = Book::new(rt.alloc(), OneTask);
    let outcome = whole_process(&rt, rt.alloc(), &mut book);
    close_book(book);
    outcome
}

fn coming(alloc: Global, key: Key, length: u64) -> Result<Receiving, Fail> {
    Ok(Receiving {
        key,
        name: Bytes::copy_of(alloc, b"in")?,
        disp: Disp::New,
        there: false,
        base: 0,
        length,
        interval: 4,
    })
}

/// A file is received, and once more from its start.
fn received(rt: &impl Abort, alloc: Global, book: &mut Book<OneTask>) -> Result<(), Fail> {
    let step = key(b"BETA", 23, 7)?;
    let other = key(b"BETA", 23, 8)?;
    add(rt, book, Entry::Receiving(coming(alloc, step, 10)?))?;
    add(rt, book, Entry::Mark(step, 4))?;
    assert!(rt; matches!(book.status(&step), Status::Open(_, 4)));
    assert!(rt; !may(book, Entry::Mark(step, 12)));
    assert!(rt; !may(book, Entry::Receiving(coming(alloc, other, 8)?)));
    assert!(rt; book.is_in_use(&other, b"in") && !book.is_in_use(&step, b"in"));
    assert!(rt; book.is_receiving_for(&step.pnode, 23, step.number));
    add(rt, book, Entry::Receiving(coming(alloc, step, 8)?))?;
    assert_eq!(rt; book.mark(&step), 0);
    assert!(rt; matches!(book.receiving(b"in"), Some(found) if found.length == 8));
    assert!(rt; matches!(book.receiving_of(&step), Some(found) if found.length == 8));
    Ok(())
}

/// The file lands whole, and another one is dropped.
fn landed(rt: &impl Abort, alloc: Global, book: &mut Book<OneTask>) -> Result<(), Fail> {
    let step = key(b"BETA", 23, 7)?;
    let other = key(b"BETA", 23, 8)?;
    let now = moment(50)?;
    let outcomes = Outcomes {
        rc: 0,
        cause: Cause::None,
        bytes: 8,
        made: 0,
    };
    add(rt, book, Entry::Mark(step, 4))?;
    assert!(rt; !may(book, Entry::Result(step, outcomes, now)));
    assert!(rt; !may(book, Entry::Forgot(step.pnode, 23, step.number)));
    add(rt, book, Entry::Mark(step, 8))?;
    add(rt, book, Entry::Result(step, outcomes, now))?;
    add(rt, book, Entry::Forgot(step.pnode, 23, step.number))?;
    assert!(rt; book.is_over(&step) && !book.is_over(&other));
    assert!(rt; book.is_forgotten(&step.pnode, 23, step.number));
    add(rt, book, Entry::Receiving(coming(alloc, other, 8)?))?;
    add(rt, book, Entry::Dropped(other, 8, Cause::NoSource, now))?;
    assert!(rt; matches!(book.outcome(&other), Some(found) if found.rc == 8));
    assert!(rt; book.made_for(&other).is_none());
    assert!(rt; matches!(book.own_home(), Some((_, 17))));
    Ok(())
}

fn whole_files(rt: &impl Abort, alloc: Global, book: &mut Book<OneTask>) -> Result<(), Fail> {
    begin(rt, book)?;
    received(rt, alloc, book)?;
    landed(rt, alloc, book)?;
    Ok(())
}

#[test]
fn receiving(rt: HostRuntime) -> Result<(), Fail> {
    let mut book = Book::new(rt.alloc(), OneTask);
    let outcome = whole_files(&rt, rt.alloc(), &mut book);
    close_book(book);
    outcome
}
