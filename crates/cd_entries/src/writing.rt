//! Writing: the kind's byte, and the fields of that kind.
ghost use Rattle.std.specs.Prelude.{◌≡◌, ◌+◌, ◌<◌, ◌≤◌, ◌++◌, length, vec_len, vec_capacity, IsOk, IsTrue, OnOk, OnErr};
ghost use Rattle.cd_types.specs.FileName.{is_file_name};
ghost use Rattle.cd_types.specs.Key.{IsPlace};
ghost use Rattle.cd_entries.specs.Entry.{entry_bytes, receiving_bytes, IsEntry, IsWritable};

use crate::entry::Entry;
use crate::kind;
use cd_types::{
    Field, NoMemory, Receiving, file_size, put_file, put_text, put_three, put_two, text_size,
};

/// Appends an entry's bytes. Where the spare room of `into` holds them it takes no memory.
pub fn write_entry(entry: &Entry, into: &mut Vec<u8>) -> Result<(), NoMemory>
    requires { IsWritable entry.now }
    ensures form { IsEntry entry.now }
    ensures ok { OnOk result (into.new.items ≡ into.old.items ++ entry_bytes entry.now) }
    ensures err { OnErr result (into.new.items ≡ into.old.items) }
    ensures room { vec_len into.old + length (entry_bytes entry.now) ≤ vec_capacity into.old → IsOk result }
{
    into.reserve(size_of(entry))?;
    put_entry(entry, into);
    Ok(())
}

/// How many bytes an entry has.
fn size_of(entry: &Entry) -> usize
    requires { IsWritable entry.now }
    ensures size { result ≡ length (entry_bytes entry.now) }
    ensures form { IsEntry entry.now }
{
    match entry {
        Entry::Home(name, home) => kind::HOME.size() + name.size() + home.size(),
        Entry::Submitted(number, moment, origin, card, text) => {
            kind::SUBMITTED.size()
                + number.size()
                + moment.size()
                + origin.size()
                + card.size()
                + text_size(text.as_slice())
        }
        Entry::Placed(number, placing, moment) => kind::PLACED.size()
            + number.size()
            + placing.size()
            + moment.size(),
        Entry::Started(key, kind, attempt, moment) => kind::STARTED.size()
            + key.size()
            + kind.size()
            + attempt.size()
            + moment.size(),
        Entry::Receiving(receiving) => kind::RECEIVING.size() + receiving_size(receiving),
        Entry::Mark(key, offset) => kind::MARK.size() + key.size() + offset.size(),
        Entry::Result(key, outcomes, moment) => kind::RESULT.size()
            + key.size()
            + outcomes.size()
            + moment.size(),
        Entry::Ended(number, place, rc, cause, bytes, moment) => kind::ENDED.size()
            + number.size()
            + place.size()
            + rc.size()
            + cause.size()
            + bytes.size()
            + moment.size(),
        Entry::Closed(number, how, moment) => kind::CLOSED.size()
            + number.size()
            + how.size()
            + moment.size(),
        Entry::Forgot(name, home, number) => kind::FORGOT.size()
            + name.size()
            + home.size()
            + number.size(),
        Entry::Dropped(key, rc, cause, moment) => kind::DROPPED.size()
            + key.size()
            + rc.size()
            + cause.size()
            + moment.size(),
    }
}

/// Appends an entry's bytes. It takes no memory.
fn put_entry(entry: &Entry, into: &mut Vec<u8>)
    requires writable { IsWritable entry.now }
    requires room { vec_len into.old + length (entry_bytes entry.now) ≤ vec_capacity into.old }
    ensures { into.new.items ≡ into.old.items ++ entry_bytes entry.now }
{
    match entry {
        Entry::Home(name, home) => put_three(&kind::HOME, name, home, into),
        Entry::Submitted(number, moment, origin, card, text) => {
            put_three(&kind::SUBMITTED, number, moment, into);
            put_two(origin, card, into);
            put_text(text.as_slice(), into);
        }
        Entry::Placed(number, placing, moment) => {
            kind::PLACED.put(into);
            put_three(number, placing, moment, into);
        }
        Entry::Started(key, kind, attempt, moment) => {
            put_two(&kind::STARTED, key, into);
            put_three(kind, attempt, moment, into);
        }
        Entry::Receiving(receiving) => {
            kind::RECEIVING.put(into);
            put_receiving(receiving, into);
        }
        Entry::Mark(key, offset) => put_three(&kind::MARK, key, offset, into),
        Entry::Result(key, outcomes, moment) => {
            kind::RESULT.put(into);
            put_three(key, outcomes, moment, into);
        }
        Entry::Ended(number, place, rc, cause, bytes, moment) => {
            kind::ENDED.put(into);
            put_three(number, place, rc, into);
            put_three(cause, bytes, moment, into);
        }
        Entry::Closed(number, how, moment) => {
            kind::CLOSED.put(into);
            put_three(number, how, moment, into);
        }
        Entry::Forgot(name, home, number) => {
            kind::FORGOT.put(into);
            put_three(name, home, number, into);
        }
        Entry::Dropped(key, rc, cause, moment) => {
            put_two(&kind::DROPPED, key, into);
            put_three(rc, cause, moment, into);
        }
    }
}

/// How many bytes the fields of a Receiving have.
fn receiving_size(receiving: &Receiving) -> usize
    requires place { IsPlace receiving.now.key.place }
    requires name { IsTrue (is_file_name receiving.now.name) }
    ensures size { result ≡ length (receiving_bytes receiving.now) }
    ensures form { IsEntry (Entry.Receiving receiving.now) }
    ensures short { result < 2000 }
{
    receiving.key.size()
        + file_size(receiving.name.as_slice())
        + receiving.disp.size()
        + receiving.there.size()
        + receiving.base.size()
        + receiving.length.size()
        + receiving.interval.size()
}

/// Appends the fields of a Receiving. It takes no memory.
fn put_receiving(receiving: &Receiving, into: &mut Vec<u8>)
    requires place { IsPlace receiving.now.key.place }
    requires name { IsTrue (is_file_name receiving.now.name) }
    requires room { vec_len into.old + length (receiving_bytes receiving.now) ≤ vec_capacity into.old }
    ensures { into.new.items ≡ into.old.items ++ receiving_bytes receiving.now }
{
    receiving.key.put(into);
    put_file(receiving.name.as_slice(), into);
    put_two(&receiving.disp, &receiving.there, into);
    put_three(
        &receiving.base,
        &receiving.length,
        &receiving.interval,
        into,
    );
}
