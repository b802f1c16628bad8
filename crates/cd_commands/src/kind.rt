//! The words of commands: with which one begins, and which parameters it has.
ghost use Rattle.std.specs.Prelude.{◌≡◌, ◌∷◌, []};
ghost use Rattle.cd_grammar.specs.Words.{said_in, or_else};
ghost use Rattle.cd_commands.specs.Words.{first_words, second_words, lead_in, kind_in, option_words, other_words, param_in, init_takes, submit_takes, file_alone, select_takes, change_takes, number_alone, work_takes, serve_takes, drill_takes, takes, takes_symbols, looks_ahead};

use cd_grammar::is_word;

/// A command, as its first words name it.
#[derive(Clone, Copy, Debug, PartialEq, Eq)]
pub enum Kind {
    Init,
    Submit,
    View,
    SelectProcess,
    Change,
    Delete,
    Flush,
    SelectStatistics,
    Release,
    Work,
    Serve,
    Drill,
    Stop,
}

/// The first word of a command that has two.
#[derive(Clone, Copy, Debug, PartialEq, Eq)]
pub enum Verb {
    View,
    Select,
    Change,
    Delete,
    Flush,
    Release,
}

/// What a command's first word says: which command it is, or that a second word follows.
#[derive(Clone, Copy, Debug, PartialEq, Eq)]
pub enum Lead {
    Alone(Kind),
    Two(Verb),
}

/// A parameter of a command.
#[derive(Clone, Copy, Debug, PartialEq, Eq)]
pub enum Param {
    Name,
    Home,
    File,
    Pnumber,
    Queue,
    Snode,
    Prty,
    Class,
    Hold,
    Retain,
    Startt,
    Release,
    Sessions,
    Together,
    Turns,
    Generate,
    Count,
}

/// What a command's first word says, if one begins with it.
#[tactic(auto, unfolding(cd_grammar::specs::Words::said_in, crate::specs::Words::lead_in))]
pub(crate) fn lead_in(word: &[u8]) -> Option<Lead>
    ensures { result ≡ lead_in word.now }
{
    if is_word(word, b"init") {
        Some(Lead::Alone(Kind::Init))
    } else if is_word(word, b"submit") {
        Some(Lead::Alone(Kind::Submit))
    } else if is_word(word, b"work") {
        Some(Lead::Alone(Kind::Work))
    } else if is_word(word, b"serve") {
        Some(Lead::Alone(Kind::Serve))
    } else if is_word(word, b"drill") {
        Some(Lead::Alone(Kind::Drill))
    } else if is_word(word, b"stop") {
        Some(Lead::Alone(Kind::Stop))
    } else if is_word(word, b"view") {
        Some(Lead::Two(Verb::View))
    } else if is_word(word, b"select") {
        Some(Lead::Two(Verb::Select))
    } else if is_word(word, b"change") {
        Some(Lead::Two(Verb::Change))
    } else if is_word(word, b"delete") {
        Some(Lead::Two(Verb::Delete))
    } else if is_word(word, b"flush") {
        Some(Lead::Two(Verb::Flush))
    } else if is_word(word, b"release") {
        Some(Lead::Two(Verb::Release))
    } else {
        None
    }
}

/// Which command it is, where this second word stands behind the first.
#[tactic(auto, unfolding(cd_grammar::specs::Words::said_in, crate::specs::Words::kind_in))]
pub(crate) fn kind_in(verb: Verb, word: &[u8]) -> Option<Kind>
    ensures { result ≡ kind_in verb word.now }
{
    let kind = match verb {
        Verb::View => Kind::View,
        Verb::Select => return selected_in(word),
        Verb::Change => Kind::Change,
        Verb::Delete => Kind::Delete,
        Verb::Flush => Kind::Flush,
        Verb::Release => {
            if is_word(word, b"receive") {
                return Some(Kind::Release);
            }
            return None;
        }
    };
    if is_word(word, b"process") {
        Some(kind)
    } else {
        None
    }
}

/// What is selected.
#[tactic(auto, unfolding(cd_grammar::specs::Words::said_in))]
fn selected_in(word: &[u8]) -> Option<Kind>
    ensures { result ≡ said_in (second_words Verb.Select) word.now }
{
    if is_word(word, b"process") {
        Some(Kind::SelectProcess)
    } else if is_word(word, b"statistics") {
        Some(Kind::SelectStatistics)
    } else {
        None
    }
}

/// The parameter that takes the place of one of the PROCESS statement's, if it is one.
#[tactic(auto, unfolding(cd_grammar::specs::Words::said_in))]
fn option_in(word: &[u8]) -> Option<Param>
    ensures { result ≡ said_in option_words word.now }
{
    if is_word(word, b"snode") {
        Some(Param::Snode)
    } else if is_word(word, b"prty") {
        Some(Param::Prty)
    } else if is_word(word, b"class") {
        Some(Param::Class)
    } else if is_word(word, b"hold") {
        Some(Param::Hold)
    } else if is_word(word, b"retain") {
        Some(Param::Retain)
    } else if is_word(word, b"startt") {
        Some(Param::Startt)
    } else {
        None
    }
}

/// Another parameter, if it is one.
#[tactic(auto, unfolding(cd_grammar::specs::Words::said_in))]
fn other_in(word: &[u8]) -> Option<Param>
    ensures { result ≡ said_in other_words word.now }
{
    if is_word(word, b"name") {
        Some(Param::Name)
    } else if is_word(word, b"home") {
        Some(Param::Home)
    } else if is_word(word, b"file") {
        Some(Param::File)
    } else if is_word(word, b"pnumber") {
        Some(Param::Pnumber)
    } else if is_word(word, b"queue") {
        Some(Param::Queue)
    } else if is_word(word, b"release") {
        Some(Param::Release)
    } else if is_word(word, b"sessions") {
        Some(Param::Sessions)
    } else if is_word(word, b"together") {
        Some(Param::Together)
    } else if is_word(word, b"turns") {
        Some(Param::Turns)
    } else if is_word(word, b"generate") {
        Some(Param::Generate)
    } else if is_word(word, b"count") {
        Some(Param::Count)
    } else {
        None
    }
}

/// The parameter that a word names, if it names one.
#[tactic(auto, unfolding(crate::specs::Words::param_in))]
pub(crate) fn param_in(word: &[u8]) -> Option<Param>
    ensures { result ≡ param_in word.now }
{
    match option_in(word) {
        Some(param) => Some(param),
        None => other_in(word),
    }
}

#[tactic(auto, unfolding(crate::specs::Words::init_takes))]
fn init_takes(param: Param) -> bool
    ensures { result ≡ init_takes param }
{
    match param {
        Param::Name | Param::Home => true,
        _ => false,
    }
}

#[tactic(auto, unfolding(crate::specs::Words::submit_takes))]
fn submit_takes(param: Param) -> bool
    ensures { result ≡ submit_takes param }
{
    match param {
        Param::File
        | Param::Snode
        | Param::Prty
        | Param::Class
        | Param::Hold
        | Param::Retain
        | Param::Startt => true,
        _ => false,
    }
}

#[tactic(auto, unfolding(crate::specs::Words::file_alone))]
fn file_alone(param: Param) -> bool
    ensures { result ≡ file_alone param }
{
    match param {
        Param::File => true,
        _ => false,
    }
}

#[tactic(auto, unfolding(crate::specs::Words::number_alone))]
fn number_alone(param: Param) -> bool
    ensures { result ≡ number_alone param }
{
    match param {
        Param::Pnumber => true,
        _ => false,
    }
}

#[tactic(auto, unfolding(crate::specs::Words::select_takes))]
fn select_takes(param: Param) -> bool
    ensures { result ≡ select_takes param }
{
    match param {
        Param::Pnumber | Param::Queue => true,
        _ => false,
    }
}

#[tactic(auto, unfolding(crate::specs::Words::change_takes))]
fn change_takes(param: Param) -> bool
    ensures { result ≡ change_takes param }
{
    match param {
        Param::Pnumber | Param::Prty | Param::Hold | Param::Release => true,
        _ => false,
    }
}

#[tactic(auto, unfolding(crate::specs::Words::work_takes))]
fn work_takes(param: Param) -> bool
    ensures { result ≡ work_takes param }
{
    match param {
        Param::Sessions | Param::Turns => true,
        _ => false,
    }
}

#[tactic(auto, unfolding(crate::specs::Words::serve_takes))]
fn serve_takes(param: Param) -> bool
    ensures { result ≡ serve_takes param }
{
    match param {
        Param::Sessions | Param::Together | Param::Turns => true,
        _ => false,
    }
}

#[tactic(auto, unfolding(crate::specs::Words::drill_takes))]
fn drill_takes(param: Param) -> bool
    ensures { result ≡ drill_takes param }
{
    match param {
        Param::File | Param::Generate | Param::Count => true,
        _ => false,
    }
}

/// Whether the command has this parameter.
#[tactic(auto, unfolding(crate::specs::Words::takes))]
pub(crate) fn takes(kind: Kind, param: Param) -> bool
    ensures { result ≡ takes kind param }
{
    match kind {
        Kind::Init => init_takes(param),
        Kind::Submit => submit_takes(param),
        Kind::View | Kind::Release => file_alone(param),
        Kind::SelectProcess => select_takes(param),
        Kind::Change => change_takes(param),
        Kind::Delete | Kind::Flush | Kind::SelectStatistics => number_alone(param),
        Kind::Work => work_takes(param),
        Kind::Serve => serve_takes(param),
        Kind::Drill => drill_takes(param),
        Kind::Stop => false,
    }
}

/// Whether the command gives values to symbolic names.
#[tactic(auto, unfolding(crate::specs::Words::takes_symbols))]
pub(crate) fn takes_symbols(kind: Kind) -> bool
    ensures { result ≡ takes_symbols kind }
{
    match kind {
        Kind::Submit | Kind::View => true,
        _ => false,
    }
}

/// Whether a word is told by the token behind it.
#[tactic(auto, unfolding(crate::specs::Words::looks_ahead))]
pub(crate) fn looks_ahead(kind: Kind) -> bool
    ensures { result ≡ looks_ahead kind }
{
    match kind {
        Kind::Submit => true,
        _ => false,
    }
}
