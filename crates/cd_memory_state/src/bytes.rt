// Edits of bytes within the room that they have, so that none takes memory.
ghost use Rattle.std.specs.Prelude.{◌≡◌, ◌≤◌, ◌+◌, ◌++◌, max, length, take, drop, replicate, vec_len, vec_capacity, OnOk};
ghost use Rattle.cd_outside.specs.Content.{overwritten, resized};

use cd_types::NoMemory;

/// Takes room for that many bytes in all; none where it is there.
pub fn reserve_to(to: &mut Vec<u8>, total: usize) -> Result<(), NoMemory>
    ensures items { to.new.items ≡ to.old.items }
    ensures room { OnOk result (total ≤ vec_capacity to.new) }
    ensures more { vec_capacity to.old ≤ vec_capacity to.new }
{
    to.reserve(total.saturating_sub(to.len()))?;
    Ok(())
}

/// Appends bytes.
pub fn append_within(to: &mut Vec<u8>, bytes: &[u8])
    requires { vec_len to.old + length bytes.now ≤ vec_capacity to.old }
    ensures items { to.new.items ≡ to.old.items ++ bytes.now }
    ensures room { vec_capacity to.old ≤ vec_capacity to.new }
{
    match to.extend_from_slice(bytes) {
        Ok(()) => {}
        Err(_) => {}
    }
}

/// Leaves these bytes alone.
pub fn replace_within(to: &mut Vec<u8>, bytes: &[u8])
    requires { length bytes.now ≤ vec_capacity to.old }
    ensures items { to.new.items ≡ bytes.now }
    ensures room { vec_capacity to.old ≤ vec_capacity to.new }
{
    to.clear();
    append_within(to, bytes);
}

/// Cuts to a length, or makes longer by zeros.
pub fn resize_within(to: &mut Vec<u8>, len: usize)
    requires { len ≤ vec_capacity to.old }
    ensures items { to.new.items ≡ resized len to.old.items }
    ensures room { vec_capacity to.old ≤ vec_capacity to.new }
{
    match to.resize(len, 0) {
        Ok(()) => {}
        Err(_) => {}
    }
}

/// Writes over what is there, and past the end.
pub fn overwrite_within(to: &mut Vec<u8>, at: usize, bytes: &[u8])
    requires place { at ≤ vec_len to.old }
    requires room { at + length bytes.now ≤ vec_capacity to.old }
    ensures items { to.new.items ≡ overwritten at bytes.now to.old.items }
    ensures room { vec_capacity to.old ≤ vec_capacity to.new }
{
    let end = at + bytes.len();
    if end <= to.len() {
        to[at..end].copy_from_slice(bytes);
    } else {
        to.truncate(at);
        append_within(to, bytes);
    }
}

/// Writes over what is there, and past the end; between the old end and a later place stand zeros.
pub fn write_within(to: &mut Vec<u8>, at: usize, bytes: &[u8])
    requires { at + length bytes.now ≤ vec_capacity to.old }
    ensures items { to.new.items ≡ overwritten at bytes.now to.old.items }
    ensures room { vec_capacity to.old ≤ vec_capacity to.new }
{
    if to.len() < at {
        resize_within(to, at);
    }
    overwrite_within(to, at, bytes);
}

/// Makes longer by so many zeros, which stand at that place.
pub fn open_within(to: &mut Vec<u8>, at: usize, count: usize)
    requires place { at ≤ vec_len to.old }
    requires room { vec_len to.old + count ≤ vec_capacity to.old }
    ensures items { to.new.items ≡ take at to.old.items ++ replicate count 0 ++ drop at to.old.items }
    ensures room { vec_capacity to.old ≤ vec_capacity to.new }
{
    let len = to.len();
    resize_within(to, len + count);
    to.copy_within(at..len, at + count);
    to[at..at + count].fill(0);
}

/// Takes out so many bytes from that place on.
pub fn close_within(to: &mut Vec<u8>, at: usize, count: usize)
    requires { at + count ≤ vec_len to.old }
    ensures items { to.new.items ≡ take at to.old.items ++ drop (at + count) to.old.items }
    ensures room { vec_capacity to.old ≤ vec_capacity to.new }
{
    let len = to.len();
    to.copy_within(at + count..len, at);
    to.truncate(len - count);
}
