//! The codes of the steps of a Process that ended.
ghost use Rattle.std.specs.Prelude.{◌≡◌, ◌∷◌, List, reverse};
ghost use Rattle.cd_entries.specs.declared.entry.Entry.{Entry};
ghost use Rattle.cd_rules.specs.Processes.{ended};
ghost use Rattle.cd_ast.specs.Walk.{code_at};
ghost use Rattle.cd_book.specs.Codes.{or_code};

use cd_entries::Entry;
use cd_types::{ProcNo, Rc};

// The code that was there before, else that of a further step where it is at the place.
fn or_code(before: Option<Rc>, place: usize, own: u16, rc: Rc) -> Option<Rc>
    ensures { result ≡ or_code before place own rc }
{
    match before {
        Some(code) => Some(code),
        None => {
            if own as usize == place {
                Some(rc)
            } else {
                None
            }
        }
    }
}

#[tactic(auto, using(crate::proofs::Codes::code_more), unfolding(cd_rules::specs::Processes::ended))]
fn code_after(entry: &Entry, number: ProcNo, place: usize, before: Option<Rc>) -> Option<Rc>
    ensures { (journal : List Entry) → before ≡ code_at (ended journal number) place → result ≡ code_at (ended (entry.now ∷ journal) number) place }
{
    match entry {
        Entry::Ended(own, own_place, rc, _, _, _) => {
            if own.number() == number.number() {
                or_code(before, place, *own_place, *rc)
            } else {
                before
            }
        }
        _ => before,
    }
}

// The code of the step at a place.
pub(crate) fn code_at(entries: &[Entry], number: ProcNo, place: usize) -> Option<Rc>
    ensures { result ≡ code_at (ended (reverse entries.now) number) place }
{
    let mut found = None;
    for entry in entries {
        found = code_after(entry, number, place, found);
    }
    found
}
