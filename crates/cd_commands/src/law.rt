//! What the reader of commands has to do with their grammar.
ghost use Rattle.std.specs.Prelude.{◌≡◌, ℕ, List};
ghost use Rattle.cd_grammar.specs.declared.token.Token.{Token};
ghost use Rattle.cd_commands.specs.declared.command.Command.{Command};
ghost use Rattle.cd_commands.specs.declared.given.Given.{Given};
ghost use Rattle.cd_commands.specs.Machine.{Said, Whole, Text, Begin, said};
ghost use Rattle.cd_commands.specs.Grammar.{First, Rest};

/// What is read of tokens is what the grammar of commands says of them, and all that it allows is read.
pub fn law_of_grammar()
    ensures sound { (len : ℕ) (tokens : List Token) (c : Command) → said len Begin tokens ≡ Whole c → Rest First tokens (Whole c) }
    ensures sound_text { (len : ℕ) (tokens rest : List Token) (given : Given) (at : ℕ) → said len Begin tokens ≡ Text given at rest → Rest First tokens (Text given at rest) }
    ensures complete { (len : ℕ) (tokens : List Token) (x : Said) → Rest First tokens x → said len Begin tokens ≡ x }
{}
