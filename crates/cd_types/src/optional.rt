//! A field that may be missing, and a flag.
#![tactic(auto, unfolding(crate::specs::Compound::optional_in, crate::specs::Number::number_bytes))]

ghost use Rattle.std.specs.Prelude.{◌≡◌, ◌+◌, ⊤};
ghost use Rattle.cd_types.specs.Number.{number_bytes};
ghost use Rattle.cd_types.specs.Compound.{choice_in, flag, flags, optional_bytes, optional_in, IsOptional};
ghost use Rattle.cd_types.specs.CompoundLaw.{flag_law, optional_law};

use crate::choices::choice;
use crate::{Field, Small};

/// A byte 0 for no, and a byte 1 for yes.
impl Field for bool {
    ghost form = { λ _. ⊤ };

    ghost writable = { λ _. ⊤ };

    ghost longest = { 1 };

    ghost spelled = { λ b. number_bytes 1 (flag b) };

    ghost found_in = { choice_in flags };

    ghost law = { flag_law };

    fn front(bytes: &[u8]) -> Option<(bool, &[u8])> {
        choice(&[false, true], bytes)
    }

    fn size(&self) -> usize {
        1
    }

    fn put(&self, into: &mut Vec<u8>) {
        (*self as u8).put(into);
    }
}

/// A byte 0, or a byte 1 and the field.
impl<T: Small> Field for Option<T> {
    ghost form = { IsOptional T.form };

    ghost writable = { IsOptional T.writable };

    ghost longest = { 1 + T.longest };

    ghost spelled = { optional_bytes T.spelled };

    ghost found_in = { optional_in T.found_in };

    ghost law = { optional_law T.form T.spelled T.found_in T.law };

    fn front(bytes: &[u8]) -> Option<(Option<T>, &[u8])> {
        let (there, rest) = bool::front(bytes)?;
        if there {
            let (field, rest) = T::front(rest)?;
            Some((Some(field), rest))
        } else {
            Some((None, rest))
        }
    }

    fn size(&self) -> usize {
        match self {
            Some(field) => 1 + field.size(),
            None => 1,
        }
    }

    fn put(&self, into: &mut Vec<u8>) {
        match self {
            Some(field) => {
                true.put(into);
                field.put(into);
            }
            None => false.put(into),
        }
    }
}
