ghost use Rattle.std.specs.Prelude.{◌≡◌, IfOk};
ghost use Rattle.cd_rules.specs.Steps.{Reading};

use cd_ast::Process;
use cd_types::NoMemory;
use std::alloc::Global;

/// How canonical texts are read.
pub trait Texts {
    /// The Process whose canonical text this is, where there is one.
    ghost read: { Reading };

    /// The Process that a text reads as.
    fn process(&self, alloc: Global, text: &[u8]) -> Result<Option<Process>, NoMemory>
        ensures { IfOk result (λ process. process ≡ read text.now) };
}
