#![tactic(auto, unfolding(crate::specs::Text::ranged_in))]

ghost use Rattle.std.specs.Prelude.{◌≡◌, ⊤};
ghost use Rattle.cd_types.specs.Number.{number_bytes};
ghost use Rattle.cd_types.specs.ProcNo.{is_proc_no, IsProcNo, proc_no_of};
ghost use Rattle.cd_types.specs.ProcNoLaw.{proc_no_law};
ghost use Rattle.cd_types.specs.Text.{ranged_in};

use crate::Field;
use std::marker::Model;

/// The number of a Process, from 1 to 99,999. Contracts see it as that number.
/// (Connect:Direct for UNIX: process numbers.)
#[derive(Clone, Copy, Debug, PartialEq, Eq, PartialOrd, Ord, Hash)]
pub struct ProcNo {
    number: u32,
}

impl Model for ProcNo {
    ghost use Rattle.std.specs.Prelude.{ℕ};
    ghost use Rattle.cd_types.specs.ProcNo.{IsProcNo};

    ghost Value = { ℕ };

    ghost view = { λ process. process.number };

    ghost invariant = { λ process. IsProcNo process.number };

    ghost inverse = { λ number. record { number = number } };
}

impl ProcNo {
    /// The process number `number`; `None` exactly where it is none.
    pub fn new(number: u32) -> Option<Self>
        ensures { result ≡ proc_no_of number }
    {
        if 1 <= number && number <= 99_999 {
            Some(ProcNo { number })
        } else {
            None
        }
    }

    /// It as a number.
    pub fn number(self) -> u32
        ensures value { result ≡ self }
        ensures form { IsProcNo self }
    {
        self.number
    }
}

/// Four bytes.
impl Field for ProcNo {
    ghost form = { IsProcNo };

    ghost writable = { λ _. ⊤ };

    ghost longest = { 4 };

    ghost spelled = { number_bytes 4 };

    ghost found_in = { ranged_in 4 is_proc_no };

    ghost law = { proc_no_law };

    fn front(bytes: &[u8]) -> Option<(ProcNo, &[u8])> {
        let (number, rest) = u32::front(bytes)?;
        Some((ProcNo::new(number)?, rest))
    }

    fn size(&self) -> usize {
        self.number().size()
    }

    fn put(&self, into: &mut Vec<u8>) {
        self.number().put(into);
    }
}
