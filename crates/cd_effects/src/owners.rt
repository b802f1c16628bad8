//! Which session holds which key.
ghost use Rattle.std.specs.Prelude.{◌≡◌, ◌∷◌, [], OnOk, OnErr};

use cd_outside::Sid;
use cd_types::{Key, NoMemory};
use std::alloc::Global;
use std::marker::Model;

/// A session holds a key.
#[derive(Clone, Copy, Debug, PartialEq, Eq)]
pub struct Holding {
    pub key: Key,
    pub sid: Sid,
}

/// Which session holds which key. The holdings stand with the newest first, and so contracts see them; of a key the newest one
/// counts.
#[derive(Debug, Drop)]
pub struct KeyOwners {
    holdings: Vec<Holding>,
}

impl Model for KeyOwners {
    ghost use Rattle.std.specs.Prelude.{List};
    ghost use Rattle.cd_effects.specs.declared.owners.Holding.{Holding};

    ghost Value = { List Holding };

    ghost view = { λ owners. owners.holdings.items };
}

impl KeyOwners {
    /// No key is held. It takes no memory.
    pub fn new(alloc: Global) -> Self
        ensures { result ≡ [] }
    {
        KeyOwners {
            holdings: Vec::new(alloc),
        }
    }

    /// The session holds the key from now on.
    pub fn hold(&mut self, holding: Holding) -> Result<(), NoMemory>
        ensures held { OnOk result (self.new ≡ holding ∷ self.old) }
        ensures same { OnErr result (self.new ≡ self.old) }
    {
        self.holdings.insert(0, holding)?;
        Ok(())
    }

    /// The holdings, the newest first.
    pub fn holdings(&self) -> &[Holding]
        ensures { result.now ≡ self.now }
    {
        &self.holdings
    }
}
