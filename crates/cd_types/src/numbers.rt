ghost use Rattle.std.specs.Prelude.{◌≡◌};

use crate::ProcNo;
use std::marker::Model;

/// Process numbers, one after another. Contracts see them as a list of numbers.
#[derive(Debug, Drop)]
pub struct Numbers {
    numbers: Vec<ProcNo>,
}

impl Model for Numbers {
    ghost use Rattle.std.specs.Prelude.{List, ℕ};

    ghost Value = { List ℕ };

    ghost view = { λ owned. owned.numbers.items };
}

impl Numbers {
    /// Takes a vector. It takes no memory.
    pub fn new(numbers: Vec<ProcNo>) -> Self
        ensures { result ≡ numbers.items }
    {
        Numbers { numbers }
    }

    /// Gives the vector back. It takes no memory.
    pub fn into_vec(self) -> Vec<ProcNo>
        ensures { result.items ≡ self }
    {
        self.numbers
    }

    /// The numbers.
    pub fn as_slice(&self) -> &[ProcNo]
        ensures { result.now ≡ self.now }
    {
        self.numbers.as_slice()
    }
}
