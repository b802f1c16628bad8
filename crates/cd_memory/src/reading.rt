ghost use Rattle.std.specs.Prelude.{◌≡◌, ◌≤◌, length, take, drop};

/// Copies bytes from a place on to the front of a buffer, as many as there are and it holds, and tells how many.
pub fn read_from(bytes: &[u8], at: u64, into: &mut [u8]) -> usize
    ensures within { result ≤ length into.old }
    ensures bytes { take result into.new ≡ take (length into.old) (drop at bytes.now) }
{
    let at = (at as usize).min(bytes.len());
    let count = into.len().min(bytes.len() - at);
    into[..count].copy_from_slice(&bytes[at..at + count]);
    count
}
