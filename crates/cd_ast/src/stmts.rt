ghost use Rattle.std.specs.Prelude.{◌≡◌};

use crate::Stmt;
use std::marker::Model;

/// Statements. Contracts see them as a list.
#[derive(Drop)]
pub struct Stmts {
    stmts: Vec<Stmt>,
}

impl Model for Stmts {
    ghost use Rattle.std.specs.Prelude.{List};
    ghost use Rattle.cd_ast.specs.declared.process.Stmt.{Stmt};

    ghost Value = { List Stmt };

    ghost view = { λ owned. owned.stmts.items };
}

impl Stmts {
    /// Takes a vector. It takes no memory.
    pub fn new(stmts: Vec<Stmt>) -> Self
        ensures { result ≡ stmts.items }
    {
        Stmts { stmts }
    }

    /// Gives the vector back. It takes no memory.
    pub fn into_vec(self) -> Vec<Stmt>
        ensures { result.items ≡ self }
    {
        self.stmts
    }

    /// The statements.
    pub fn as_slice(&self) -> &[Stmt]
        ensures { result.now ≡ self.now }
    {
        self.stmts.as_slice()
    }
}
