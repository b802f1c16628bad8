//! The steps of this node's Processes.
ghost use Rattle.std.specs.Prelude.{◌≡◌, Bool};
ghost use Rattle.cd_types.specs.Choices.{task_kind_code, disp_code};
ghost use Rattle.cd_ast.specs.declared.process.What.{What};
ghost use Rattle.cd_rules.specs.Steps.{is_pnode, pnode_keeps, is_run_of, is_interval, is_pull_of, fits_own};
ghost use Rattle.cd_legality.specs.Own.{fits_seen};

use cd_ast::What;
use cd_book::{Book, Texts, same_bytes};
use cd_types::{Disp, Key, Receiving, Side, TaskKind};

/// What a book says of the step of a key.
#[derive(Clone, Copy)]
pub(crate) enum Own<'a> {
    /// It is of another node's Process.
    Foreign,
    /// Its Process isn't live, or it isn't the next step.
    Unfit,
    /// It is the next step of a live Process, with this statement.
    Step(&'a What),
}

pub(crate) fn own_step<'a, T: Texts>(book: &'a Book<T>, key: &Key) -> Own<'a>
    ensures { (test : What → Bool) → fits_own T.read book.now.entries key.now test ≡ fits_seen test result }
{
    if !book.is_own(key) {
        return Own::Foreign;
    }
    if !book.is_live(key.number) {
        return Own::Unfit;
    }
    if key.place as usize != book.next_place(key.number) {
        return Own::Unfit;
    }
    match book.what_at(key.number, key.place as usize) {
        Some(what) => Own::Step(what),
        None => Own::Unfit,
    }
}

fn is_pnode(side: Side) -> bool
    ensures { result ≡ is_pnode side }
{
    match side {
        Side::Pnode => true,
        Side::Snode => false,
    }
}

// Whether the node that submitted the Process keeps the outcome.
pub(crate) fn pnode_keeps(what: &What) -> bool
    ensures { result ≡ pnode_keeps what.now }
{
    match what {
        What::Copy(step) => !step.push,
        What::Task(step) => is_pnode(step.side),
        What::Submit(step) => is_pnode(step.side),
        _ => false,
    }
}

fn task_kind_code(kind: TaskKind) -> u8
    ensures { result ≡ task_kind_code kind }
{
    kind as u8
}

pub(crate) fn disp_code(disp: Disp) -> u8
    ensures { result ≡ disp_code disp }
{
    disp as u8
}

// Whether it is a RUN of this kind on the PNODE's side.
fn is_run_of(kind: TaskKind, what: &What) -> bool
    ensures { result ≡ is_run_of kind what.now }
{
    match what {
        What::Task(step) => {
            is_pnode(step.side) && task_kind_code(step.kind) == task_kind_code(kind)
        }
        _ => false,
    }
}

fn is_interval(interval: u64, own: Option<u64>) -> bool
    ensures { result ≡ is_interval interval own }
{
    match own {
        Some(own) => interval == own,
        None => false,
    }
}

// Whether it is a COPY to the PNODE, with this destination, disposition and interval.
fn is_pull_of(receiving: &Receiving, what: &What) -> bool
    ensures { result ≡ is_pull_of receiving.now what.now }
{
    match what {
        What::Copy(step) => {
            !step.push
                && same_bytes(receiving.name.as_slice(), step.to.as_slice())
                && disp_code(receiving.disp) == disp_code(step.disp)
                && is_interval(receiving.interval, step.ckpt)
        }
        _ => false,
    }
}

pub(crate) fn fits_kept(own: &Own<'_>) -> bool
    ensures { result ≡ fits_seen pnode_keeps own.now }
{
    match own {
        Own::Foreign => true,
        Own::Unfit => false,
        Own::Step(what) => pnode_keeps(what),
    }
}

pub(crate) fn fits_run(own: &Own<'_>, kind: TaskKind) -> bool
    ensures { result ≡ fits_seen (is_run_of kind) own.now }
{
    match own {
        Own::Foreign => true,
        Own::Unfit => false,
        Own::Step(what) => is_run_of(kind, what),
    }
}

pub(crate) fn fits_pull(own: &Own<'_>, receiving: &Receiving) -> bool
    ensures { result ≡ fits_seen (is_pull_of receiving.now) own.now }
{
    match own {
        Own::Foreign => true,
        Own::Unfit => false,
        Own::Step(what) => is_pull_of(receiving, what),
    }
}
