//! How a Process goes from statement to statement. Each of these goes down the statements once, of which a Process has at
//! most 1,024.
ghost use Rattle.std.specs.Prelude.{◌≡◌, ◌+◌, ◌<◌, ◌≤◌, length, reverse, IfSome};
ghost use Rattle.cd_ast.specs.Walk.{is_action, is_else, is_eif, depth_behind, eif_from, else_from, eif_of, else_of, has_label, action_from, action_of, relates, holds, behind, behind_else, label_from, go, pending, pending_from, GoesOn};
ghost use Rattle.cd_rules.specs.Processes.{ended};

use crate::ended::code_at;
use crate::same::same_bytes;
use cd_ast::{Stmt, What};
use cd_entries::Entry;
use cd_types::{Label, ProcNo, Relation};

fn is_action(what: &What) -> bool
    ensures { result ≡ is_action what.now }
{
    matches!(what, What::Copy(_) | What::Task(_) | What::Submit(_))
}

fn is_else(what: &What) -> bool
    ensures { result ≡ is_else what.now }
{
    matches!(what, What::Else)
}

fn is_eif(what: &What) -> bool
    ensures { result ≡ is_eif what.now }
{
    matches!(what, What::Eif)
}

// How many further IFs are open behind a statement.
fn depth_behind(what: &What, depth: usize) -> usize
    requires { depth < 18446744073709551615 }
    ensures depth { result ≡ depth_behind what.now depth }
    ensures most { result ≤ depth + 1 }
{
    match what {
        What::If(..) => depth + 1,
        What::Eif => depth.saturating_sub(1),
        _ => depth,
    }
}

#[tactic(auto, unfolding(cd_ast::specs::Walk::eif_from))]
fn eif_from(stmts: &[Stmt], here: usize, depth: usize) -> Option<usize>
    requires here { here + length stmts.now < 18446744073709551615 }
    requires depth { depth + length stmts.now < 18446744073709551615 }
    ensures place { result ≡ eif_from stmts.now here depth }
    ensures within { IfSome result (λ place. place < here + length stmts.now) }
{
    match stmts {
        [] => None,
        [first, more @ ..] => {
            if is_eif(&first.what) && depth == 0 {
                Some(here)
            } else {
                eif_from(more, here + 1, depth_behind(&first.what, depth))
            }
        }
    }
}

#[tactic(auto, unfolding(cd_ast::specs::Walk::else_from))]
fn else_from(stmts: &[Stmt], here: usize, depth: usize) -> Option<usize>
    requires here { here + length stmts.now < 18446744073709551615 }
    requires depth { depth + length stmts.now < 18446744073709551615 }
    ensures place { result ≡ else_from stmts.now here depth }
    ensures within { IfSome result (λ place. place < here + length stmts.now) }
{
    match stmts {
        [] => None,
        [first, more @ ..] => {
            if is_eif(&first.what) && depth == 0 {
                None
            } else if is_else(&first.what) && depth == 0 {
                Some(here)
            } else {
                else_from(more, here + 1, depth_behind(&first.what, depth))
            }
        }
    }
}

fn eif_of(stmts: &[Stmt], place: usize) -> Option<usize>
    requires { place < length stmts.now }
    ensures place { result ≡ eif_of stmts.now place }
    ensures within { IfSome result (λ other. other < length stmts.now) }
{
    eif_from(&stmts[place + 1..], place + 1, 0)
}

fn else_of(stmts: &[Stmt], place: usize) -> Option<usize>
    requires { place < length stmts.now }
    ensures place { result ≡ else_of stmts.now place }
    ensures within { IfSome result (λ other. other < length stmts.now) }
{
    else_from(&stmts[place + 1..], place + 1, 0)
}

fn has_label(label: &Label, own: &Option<Label>) -> bool
    ensures { result ≡ has_label label.now own.now }
{
    match own {
        Some(own) => same_bytes(label.as_bytes(), own.as_bytes()),
        None => false,
    }
}

#[tactic(auto, unfolding(cd_ast::specs::Walk::action_from))]
fn action_from(stmts: &[Stmt], here: usize, label: &Label) -> Option<usize>
    requires { here + length stmts.now < 18446744073709551615 }
    ensures { result ≡ action_from stmts.now here label.now }
{
    match stmts {
        [] => None,
        [first, more @ ..] => {
            if is_action(&first.what) && has_label(label, &first.label) {
                Some(here)
            } else {
                action_from(more, here + 1, label)
            }
        }
    }
}

#[tactic(auto, unfolding(cd_ast::specs::Walk::label_from))]
fn label_from(stmts: &[Stmt], here: usize, label: &Label) -> usize
    requires { here + length stmts.now < 18446744073709551615 }
    ensures { result ≡ label_from stmts.now here label.now }
{
    match stmts {
        [] => here,
        [first, more @ ..] => {
            if has_label(label, &first.label) {
                here
            } else {
                label_from(more, here + 1, label)
            }
        }
    }
}

fn relates(how: Relation, code: u8, number: u8) -> bool
    ensures { result ≡ relates how code number }
{
    match how {
        Relation::Eq => code == number,
        Relation::Ne => code != number,
        Relation::Ge => number <= code,
        Relation::Gt => number < code,
        Relation::Le => code <= number,
        Relation::Lt => code < number,
    }
}

// Whether the condition of an IF holds.
fn holds(
    stmts: &[Stmt],
    entries: &[Entry],
    number: ProcNo,
    label: &Label,
    how: Relation,
    other: u8,
) -> bool
    ensures { result ≡ holds stmts.now (ended (reverse entries.now) number) label.now how other }
{
    match action_from(stmts, 0, label) {
        Some(place) => match code_at(entries, number, place) {
            Some(code) => relates(how, code, other),
            None => false,
        },
        None => false,
    }
}

// The place behind another one, or the end where there is none.
fn behind(stmts: &[Stmt], place: Option<usize>) -> usize
    requires { IfSome place (λ p. p < length stmts.now) }
    ensures { result ≡ behind stmts.now place }
{
    match place {
        Some(place) => place + 1,
        None => stmts.len(),
    }
}

// From the statement at a place.
fn go(stmts: &[Stmt], entries: &[Entry], number: ProcNo, place: usize, what: &What) -> usize
    requires { place < length stmts.now }
    ensures { result ≡ go stmts.now (ended (reverse entries.now) number) place what.now }
{
    match what {
        What::If(label, how, other) => {
            if holds(stmts, entries, number, label, *how, *other) {
                return place + 1;
            }
            match else_of(stmts, place) {
                Some(found) => found + 1,
                None => behind(stmts, eif_of(stmts, place)),
            }
        }
        What::Else => behind(stmts, eif_of(stmts, place)),
        What::Eif => place + 1,
        What::Goto(label) => label_from(stmts, 0, label),
        What::Exit => stmts.len(),
        What::Copy(_) | What::Task(_) | What::Submit(_) => place,
    }
}

// The place of the step that comes next, where the walk is at `here`, before `more`, and goes on at `next`.
#[tactic(auto, using(crate::proofs::Stops::stopped), unfolding(cd_ast::specs::Walk::pending_from))]
fn pending_from(
    stmts: &[Stmt],
    entries: &[Entry],
    number: ProcNo,
    more: &[Stmt],
    here: usize,
    next: usize,
) -> usize
    requires { here + length more.now ≡ length stmts.now }
    ensures { result ≡ pending_from stmts.now (ended (reverse entries.now) number) more.now here (GoesOn next) }
{
    let [first, rest @ ..] = more else {
        return here;
    };
    if here != next {
        return pending_from(stmts, entries, number, rest, here + 1, next);
    }
    if !is_action(&first.what) {
        let next = go(stmts, entries, number, here, &first.what);
        return pending_from(stmts, entries, number, rest, here + 1, next);
    }
    match code_at(entries, number, here) {
        Some(_) => pending_from(stmts, entries, number, rest, here + 1, here + 1),
        None => here,
    }
}

// The place of the step that comes next, or the end.
pub(crate) fn pending(stmts: &[Stmt], entries: &[Entry], number: ProcNo) -> usize
    ensures { result ≡ pending stmts.now (ended (reverse entries.now) number) }
{
    pending_from(stmts, entries, number, stmts, 0, 0)
}
