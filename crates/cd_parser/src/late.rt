//! What is wrong with a Process that is in the grammar.
ghost use Rattle.std.specs.Prelude.{◌≡◌, ◌+◌, ◌<◌, ◌≤◌, ◌^◌, ◌++◌, ◌∷◌, ℕ, List, [], length, take, drop, not, ◌&&◌, true, false};
ghost use Rattle.std.specs.List.{list_any};
ghost use Rattle.cd_grammar.specs.Later.{Found, is_label, is_named, is_action, have_label, have_action, open_behind, is_eif, is_closed, is_inside, fault_if, doubled, wrong_here, wrong_from, wrong_start, rank, IsSooner};
ghost use Rattle.cd_parser.specs.Best.{IsBest, jumped};

use crate::fault::Found;
use cd_ast::FaultName;
use cd_grammar::{Mark, Sketch};
use cd_types::{Label, Retain, Start};

/// The order of faults at one place.
fn rank(name: FaultName) -> u8
    ensures { result ≡ rank name }
{
    match name {
        FaultName::DoubleLabel => 0,
        FaultName::NoLabel => 1,
        FaultName::Backward => 2,
        FaultName::IntoIf => 3,
        FaultName::Unclosed => 4,
        FaultName::SameSide => 5,
        _ => 6,
    }
}

/// Whether a fault is told before another, or is the same: the one at the lesser place, and at one place the one of the lower
/// rank.
fn is_sooner(one: Found, other: Found) -> bool
    ensures first { result ≡ true → IsSooner one other }
    ensures second { result ≡ false → IsSooner other one }
{
    if one.1 == other.1 {
        return rank(one.0) <= rank(other.0);
    }
    one.1 < other.1
}

/// Of two faults that which is told.
pub(crate) fn sooner(one: Option<Found>, other: Option<Found>) -> Option<Found>
    ensures { (xs ys : List Found) → IsBest one xs → IsBest other ys → IsBest result (xs ++ ys) }
{
    let Some(first) = one else {
        return other;
    };
    let Some(second) = other else {
        return one;
    };
    if is_sooner(first, second) { one } else { other }
}

/// A fault, where it is there.
fn fault_if(holds: bool, name: FaultName, at: u32) -> Option<Found>
    ensures { IsBest result (fault_if holds name at) }
{
    if holds { Some((name, at)) } else { None }
}

/// Whether a statement has this label.
fn is_named(mark: &Mark, name: &Label) -> bool
    ensures { result ≡ is_named name.now mark.now }
{
    match &mark.label {
        Some((_, label)) => label.as_bytes() == name.as_bytes(),
        None => false,
    }
}

fn is_action(what: &Sketch) -> bool
    ensures { result ≡ is_action what.now }
{
    match what {
        Sketch::Copy(_) | Sketch::Action => true,
        _ => false,
    }
}

fn is_eif(what: &Sketch) -> bool
    ensures { result ≡ is_eif what.now }
{
    match what {
        Sketch::Eif => true,
        _ => false,
    }
}

/// Whether a statement has this label.
fn have_label(name: &Label, marks: &[Mark]) -> bool
    ensures { result ≡ have_label name.now marks.now }
{
    marks.iter().any(|mark| is_named(mark, name))
}

/// Whether a mark is an action's of this label.
fn is_named_action(mark: &Mark, name: &Label) -> bool
    ensures { result ≡ (is_named name.now mark.now && is_action mark.now.what) }
{
    is_named(mark, name) && is_action(&mark.what)
}

/// Whether an action has this label.
fn have_action(name: &Label, marks: &[Mark]) -> bool
    ensures { result ≡ have_action name.now marks.now }
{
    marks.iter().any(|mark| is_named_action(mark, name))
}

/// How many of these IFs are open behind a statement, of so many that were open before it.
fn open_behind(what: &Sketch, depth: usize) -> usize
    requires { depth + 1 < 2 ^ 64 }
    ensures exact { result ≡ open_behind what.now depth }
    ensures more { result ≤ depth + 1 }
{
    match what {
        Sketch::If(_, _) => depth + 1,
        Sketch::Eif => depth.saturating_sub(1),
        _ => depth,
    }
}

/// Whether the IF around these statements has its EIF among them, where so many IFs of their own are open before them.
#[tactic(auto, unfolding(cd_grammar::specs::Later::is_closed))]
fn is_closed(depth: usize, marks: &[Mark]) -> bool
    requires { depth + length marks.now < 2 ^ 64 }
    ensures { result ≡ is_closed depth marks.now }
{
    let mut depth = depth;
    let mut rest = marks;
    while let Some((mark, behind)) = rest.split_first() {
        if depth == 0 && is_eif(&mark.what) {
            return true;
        }
        depth = open_behind(&mark.what, depth);
        rest = behind;
    }
    false
}

/// Whether the first of these statements with this label stands in an IF of theirs that has its EIF.
#[tactic(auto, unfolding(cd_grammar::specs::Later::is_inside))]
fn is_inside(name: &Label, marks: &[Mark]) -> bool
    requires { length marks.now + 1 < 2 ^ 64 }
    ensures { result ≡ is_inside name.now 0 marks.now }
{
    let mut depth = 0;
    let mut rest = marks;
    while let Some((mark, behind)) = rest.split_first() {
        if is_named(mark, name) {
            return depth != 0 && is_closed(open_behind(&mark.what, 0), behind);
        }
        depth = open_behind(&mark.what, depth);
        rest = behind;
    }
    false
}

/// A second statement with the label of an earlier one.
fn doubled(before: &[Mark], label: Option<(u32, Label)>) -> Option<Found>
    ensures { IsBest result (doubled before.now label) }
{
    let (at, name) = label?;
    fault_if(have_label(&name, before), FaultName::DoubleLabel, at)
}

/// What is wrong with an IF that stands at a place, before it and behind it.
fn wrong_if(before: &[Mark], at: u32, behind: &[Mark], label: (u32, Label)) -> Option<Found>
    requires { length behind.now + 1 < 2 ^ 64 }
    ensures { (this : Mark) → this.at ≡ at → IsBest result (wrong_here before.now this behind.now (Sketch.If label.0 label.1)) }
{
    let unknown = fault_if(!have_action(&label.1, before), FaultName::NoLabel, label.0);
    let open = fault_if(!is_closed(0, behind), FaultName::Unclosed, at);
    sooner(unknown, open)
}

/// What is wrong with a GOTO among these statements, of which so many stand up to it.
fn wrong_goto(marks: &[Mark], upto: usize, label: (u32, Label)) -> Option<Found>
    requires short { length marks.now + 1 < 2 ^ 64 }
    requires within { upto ≤ length marks.now }
    ensures { IsBest result (jumped (take upto marks.now) (drop upto marks.now) marks.now label.0 label.1) }
{
    let (before, behind) = marks.split_at(upto);
    let back = have_label(&label.1, before);
    let into = !back && is_inside(&label.1, behind);
    let unknown = fault_if(!have_label(&label.1, marks), FaultName::NoLabel, label.0);
    let back = fault_if(back, FaultName::Backward, label.0);
    let into = fault_if(into, FaultName::IntoIf, label.0);
    sooner(unknown, sooner(back, into))
}

/// What is wrong with the statement at this place of the list, by itself and among the others.
fn wrong_at(marks: &[Mark], place: usize) -> Option<Found>
    requires short { length marks.now + 1 < 2 ^ 64 }
    requires within { place < length marks.now }
    ensures { (this : Mark) (behind : List Mark) → drop place marks.now ≡ this ∷ behind
        → IsBest result (doubled (take place marks.now) this.label ++ wrong_here (take place marks.now) this behind this.what) }
{
    let (before, rest) = marks.split_at(place);
    let Some((mark, behind)) = rest.split_first() else {
        return None;
    };
    let wrong = match mark.what {
        Sketch::Copy(alike) => fault_if(alike, FaultName::SameSide, mark.at),
        Sketch::If(at, label) => wrong_if(before, mark.at, behind, (at, label)),
        Sketch::Goto(at, label) => wrong_goto(marks, place + 1, (at, label)),
        Sketch::Action => None,
        Sketch::Else => None,
        Sketch::Eif => None,
        Sketch::Exit => None,
    };
    sooner(doubled(before, mark.label), wrong)
}

/// What is wrong with the statements.
#[tactic(auto, unfolding(cd_grammar::specs::Later::wrong_from))]
pub(crate) fn wrong_in(marks: &[Mark]) -> Option<Found>
    requires { length marks.now + 1 < 2 ^ 64 }
    ensures { IsBest result (wrong_from [] marks.now) }
{
    let mut best = None;
    let mut place = marks.len();
    while place > 0 {
        place -= 1;
        best = sooner(wrong_at(marks, place), best);
    }
    best
}

/// What is wrong with a Process that is kept for each start of its node; the place is that of the word RETAIN.
pub(crate) fn wrong_start(retain: Option<Retain>, start: Option<Start>, at: u32) -> Option<Found>
    ensures { IsBest result (wrong_start retain start at) }
{
    match (retain, start) {
        (Some(Retain::Initial), Some(_)) => Some((FaultName::RetainStart, at)),
        _ => None,
    }
}
