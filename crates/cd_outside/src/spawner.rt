ghost use Rattle.std.specs.Prelude.{◌≡◌, ◌≤◌, List, ℕ, OnOk, OnErr};
ghost use Rattle.cd_outside.specs.Counts.{Rose};

use crate::Failed;

/// How a command ended.
#[derive(Clone, Copy, Debug, PartialEq, Eq)]
pub enum Outcome {
    /// By itself, with this exit status.
    Exit(u8),
    /// By a signal.
    Killed,
    /// It couldn't be started.
    Failed,
}

/// Starts commands of the system.
pub trait Spawner {
    ghost use Rattle.cd_outside.specs.Spawner.{Child, with_run, with_start, OnFailed};

    /// It tells its children.
    ghost observable: { Type 0 };

    /// The commands that it started, in their order.
    ghost children: { Self → List Child };

    /// How often it has failed, up to the greatest u64.
    ghost faults: { Self → ℕ };

    /// Runs a command and waits for its end.
    fn run(&mut self, command: &[u8]) -> Outcome
        ensures ran { observable → children self.new ≡ with_run command.now result (children self.old) }
        ensures later { faults self.old ≤ faults self.new }
        ensures cause { OnFailed result (Rose (faults self.old) (faults self.new)) };

    /// Starts a command and doesn't wait.
    fn start(&mut self, command: &[u8]) -> Result<(), Failed>
        ensures started { observable → OnOk result (children self.new ≡ with_start command.now (children self.old)) }
        ensures none { observable → OnErr result (children self.new ≡ children self.old) }
        ensures later { faults self.old ≤ faults self.new }
        ensures cause { OnErr result (Rose (faults self.old) (faults self.new)) };
}
