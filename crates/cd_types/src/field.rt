ghost use Rattle.std.specs.Prelude.{◌≡◌, ℕ, ◌+◌, ◌<◌, ◌≤◌, ◌++◌, List, length, Option, option_map, vec_len, vec_capacity, IsOk, OnOk, OnErr};
ghost use Rattle.cd_types.specs.Format.{counted, IsFormat};

use crate::NoMemory;

/// A field of the formats: a value with one spelling in bytes, which nothing else has.
///
/// Journal entries and frames are fields one behind another, so all that they need of a field is said
/// here, once: what is spelled is found again with its length, whatever follows it, and nothing else is found.
pub trait Field: Sized {
    /// The values that have a spelling.
    ghost form: { Self → Type 0 };

    /// What a caller has to know of a value to write it. A type that holds nothing else needs nothing.
    ghost writable: { Self → Type 0 };

    /// The most bytes that a value has.
    ghost longest: { ℕ };

    /// The bytes of a value.
    ghost spelled: { Self → List ℕ };

    /// The value at the front of the bytes, with the bytes after it.
    ghost found_in: { List ℕ → Option (Self × List ℕ) };

    /// The field at the front, and the bytes after it; `None` exactly where the bytes begin with no such field.
    fn front(bytes: &[u8]) -> Option<(Self, &[u8])>
        ensures { option_map (λ found. (found.0, found.1.now)) result ≡ found_in bytes.now };

    /// How many bytes the field has.
    fn size(&self) -> usize
        requires { writable self.now }
        ensures size { result ≡ length (spelled self.now) }
        ensures short { result ≤ longest }
        ensures form { form self.now };

    /// Appends the field's bytes. It takes no memory.
    fn put(&self, into: &mut Vec<u8>)
        requires writable { writable self.now }
        requires room { vec_len into.old + length (spelled self.now) ≤ vec_capacity into.old }
        ensures bytes { into.new.items ≡ into.old.items ++ spelled self.now }
        ensures capacity { vec_capacity into.old ≤ vec_capacity into.new };

    /// The field at the front, and how many bytes it has; `None` exactly where the bytes begin with no such field.
    final fn read(bytes: &[u8]) -> Option<(Self, usize)>
        ensures { result ≡ counted bytes.now (found_in bytes.now) }
    {
        let (field, rest) = Self::front(bytes)?;
        Some((field, bytes.len() - rest.len()))
    }

    /// Appends the field's bytes. Where the spare room of `into` holds them it takes no memory.
    final fn write(&self, into: &mut Vec<u8>) -> Result<(), NoMemory>
        requires { writable self.now }
        ensures ok { OnOk result (into.new.items ≡ into.old.items ++ spelled self.now) }
        ensures err { OnErr result (into.new.items ≡ into.old.items) }
        ensures room { vec_len into.old + length (spelled self.now) ≤ vec_capacity into.old → IsOk result }
    {
        into.reserve(self.size())?;
        self.put(into);
        Ok(())
    }

    /// What is spelled is found again, whatever follows it, and nothing else is found.
    ghost law: { IsFormat form spelled found_in };
}

/// A field that has few bytes, whatever its value.
pub trait Small: Field {
    /// Fewer than 65,536.
    ghost small: { Self.longest < 65536 };
}

/// Appends two fields, one behind the other. It takes no memory.
pub fn put_two<A: Field, B: Field>(first: &A, second: &B, into: &mut Vec<u8>)
    requires first { A.writable first.now }
    requires second { B.writable second.now }
    requires room { vec_len into.old + length (A.spelled first.now ++ B.spelled second.now) ≤ vec_capacity into.old }
    ensures bytes { into.new.items ≡ into.old.items ++ (A.spelled first.now ++ B.spelled second.now) }
    ensures capacity { vec_capacity into.old ≤ vec_capacity into.new }
{
    first.put(into);
    second.put(into);
}

/// Appends three fields, one behind the other. It takes no memory.
pub fn put_three<A: Field, B: Field, C: Field>(first: &A, second: &B, third: &C, into: &mut Vec<u8>)
    requires first { A.writable first.now }
    requires second { B.writable second.now }
    requires third { C.writable third.now }
    requires room { vec_len into.old + length (A.spelled first.now ++ (B.spelled second.now ++ C.spelled third.now)) ≤ vec_capacity into.old }
    ensures bytes { into.new.items ≡ into.old.items ++ (A.spelled first.now ++ (B.spelled second.now ++ C.spelled third.now)) }
    ensures capacity { vec_capacity into.old ≤ vec_capacity into.new }
{
    first.put(into);
    second.put(into);
    third.put(into);
}
