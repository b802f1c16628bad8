//! Receivings, their marks, and dropped files.
ghost use Rattle.std.specs.Prelude.{◌≡◌, ◌+◌, ◌==◌, nat_le};
ghost use Rattle.cd_types.specs.Compound.{flag};
ghost use Rattle.cd_rules.specs.Legal.{is_resized, may_receive_from, is_base_of, greatest_file, may_receive, may_mark_from, is_dropping, may_drop_from};
ghost use Rattle.cd_book.specs.Seen.{seen_status};

use crate::own::{disp_code, fits_pull, own_step};
use cd_book::{Book, Status, Texts, same_bytes};
use cd_types::{Cause, Disp, Rc, Receiving};

/// The greatest length of a file.
const GREATEST: u64 = 1_099_511_627_776;

fn flag(there: bool) -> u8
    ensures { result ≡ flag there }
{
    there as u8
}

// The same receiving with another length.
fn is_resized(before: &Receiving, receiving: &Receiving) -> bool
    ensures { result ≡ is_resized before.now receiving.now }
{
    same_bytes(receiving.name.as_slice(), before.name.as_slice())
        && disp_code(receiving.disp) == disp_code(before.disp)
        && flag(receiving.there) == flag(before.there)
        && receiving.base == before.base
        && receiving.interval == before.interval
        && receiving.length != before.length
}

// Of a step that was never started, or that is being received with another length.
fn may_receive_from(status: &Status<'_>, receiving: &Receiving) -> bool
    ensures { result ≡ may_receive_from (seen_status status.now) receiving.now }
{
    match status {
        Status::Fresh => true,
        Status::Started(..) => false,
        Status::Open(before, _) => is_resized(before, receiving),
        Status::Done(_) => false,
    }
}

// NEW has no file before it, and only MOD with a file before it keeps bytes.
fn is_base_of(disp: Disp, there: bool, base: u64) -> bool
    ensures { result ≡ is_base_of disp there base }
{
    match disp {
        Disp::New => !there && base == 0,
        Disp::Rpl => base == 0,
        Disp::Mod => there || base == 0,
    }
}

// Whether the whole isn't too long.
fn is_short(base: u64, length: u64) -> bool
    ensures { result ≡ nat_le (base + length) greatest_file }
{
    match base.checked_add(length) {
        Some(whole) => whole <= GREATEST,
        None => false,
    }
}

pub(crate) fn may_receive<T: Texts>(book: &Book<T>, receiving: &Receiving) -> bool
    ensures { result ≡ may_receive T.read book.now.entries receiving.now }
{
    may_receive_from(&book.status(&receiving.key), receiving)
        && !book.is_over(&receiving.key)
        && !book.is_in_use(&receiving.key, receiving.name.as_slice())
        && is_base_of(receiving.disp, receiving.there, receiving.base)
        && is_short(receiving.base, receiving.length)
        && fits_pull(&own_step(book, &receiving.key), receiving)
}

// Whether the offset is one interval further.
fn is_one_further(mark: u64, interval: u64, offset: u64) -> bool
    ensures { result ≡ (offset == mark + interval) }
{
    match mark.checked_add(interval) {
        Some(next) => offset == next,
        None => false,
    }
}

// Back to 0, or one interval further and within the length.
pub(crate) fn may_mark_from(status: &Status<'_>, offset: u64) -> bool
    ensures { result ≡ may_mark_from (seen_status status.now) offset }
{
    match status {
        Status::Open(receiving, mark) => {
            offset == 0
                || (receiving.interval != 0
                    && is_one_further(*mark, receiving.interval, offset)
                    && offset <= receiving.length)
        }
        Status::Fresh => false,
        Status::Started(..) => false,
        Status::Done(_) => false,
    }
}

fn is_dropping(cause: Cause) -> bool
    ensures { result ≡ is_dropping cause }
{
    match cause {
        Cause::Released => true,
        Cause::NoSource => true,
        Cause::SourceChanged => true,
        Cause::TooLarge => true,
        _ => false,
    }
}

pub(crate) fn may_drop_from(status: &Status<'_>, rc: Rc, cause: Cause) -> bool
    ensures { result ≡ may_drop_from (seen_status status.now) rc cause }
{
    match status {
        Status::Open(_, mark) => *mark == 0 && rc == 8 && is_dropping(cause),
        Status::Fresh => false,
        Status::Started(..) => false,
        Status::Done(_) => false,
    }
}
