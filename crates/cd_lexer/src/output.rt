//! What substitution puts out.
ghost use Rattle.std.specs.Prelude.{◌≡◌, ◌++◌, List, ℕ, OnOk, IfErr};

use crate::fault::SymFault;
use cd_types::LONGEST_TEXT;

/// The bytes put out so far. Once they are too many, they are only counted.
#[derive(Drop)]
pub(crate) struct Output {
    pub(crate) bytes: Vec<u8>,
    pub(crate) len: u64,
}

impl Output {
    ghost use Rattle.cd_lexer.specs.Output.{StandsFor, IsStopped};
    ghost use Rattle.std.specs.Prelude.{Ok, []};

    /// Puts bytes out.
    pub(crate) fn put(&mut self, bytes: &[u8]) -> Result<(), SymFault>
        ensures ok { OnOk result ((all : List ℕ) → StandsFor self.old all → StandsFor self.new (all ++ bytes.now)) }
        ensures err { IfErr result (IsStopped (Ok [])) }
    {
        let Some(len) = self.len.checked_add(bytes.len() as u64) else {
            return Err(SymFault::NoMemory);
        };
        if len <= LONGEST_TEXT as u64 {
            self.bytes.extend_from_slice(bytes)?;
        }
        self.len = len;
        Ok(())
    }
}
