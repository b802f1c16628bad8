//! Which commands a script may not have.
ghost use Rattle.std.specs.Prelude.{◌≡◌};
ghost use Rattle.cd_drill.specs.Kept.{is_kept};

use cd_commands::{Command, CommandFault, law_of_grammar, read_command};
use cd_drill_script::Reserved;
use cd_types::NoMemory;
use std::alloc::Global;

/// The test for commands that a script may not have: those that make a home, run sessions or a script, or end the run.
#[derive(Clone, Copy)]
pub(crate) struct Kept {
    pub alloc: Global,
}

fn is_kept(command: &Command) -> bool
    ensures { result ≡ is_kept command.now }
{
    match command {
        Command::Init(..) => true,
        Command::SubmitFile(..) => false,
        Command::SubmitText(..) => false,
        Command::View(..) => false,
        Command::SelectProcess(..) => false,
        Command::Change(..) => false,
        Command::Delete(_) => false,
        Command::Flush(_) => false,
        Command::SelectStatistics(_) => false,
        Command::ReleaseReceive(_) => false,
        Command::Work(..) => true,
        Command::Serve(..) => true,
        Command::Drill(_) => true,
        Command::Generate(..) => true,
        Command::Stop => true,
    }
}

impl Reserved for Kept {
    ghost use Rattle.cd_drill.specs.Kept.{is_reserved};

    ghost reserved = { is_reserved };

    #[tactic(auto, unfolding(crate::specs::Kept::is_reserved))]
    fn is_reserved(&self, text: &[u8]) -> Result<bool, NoMemory> {
        law_of_grammar();
        match read_command(self.alloc, text) {
            Ok(command) => Ok(is_kept(&command)),
            Err(CommandFault::Word(_)) => Ok(false),
            Err(CommandFault::Process(_, _)) => Ok(false),
            Err(CommandFault::NoMemory) => Err(NoMemory),
        }
    }
}
