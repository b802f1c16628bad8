//! The canonical text of a Process.
ghost use Rattle.std.specs.Prelude.{◌≡◌, ◌==◌, ◌++◌, [], codes, IfOk, OnOk, string_bytes};
ghost use Rattle.std.specs.List.{list_any};
ghost use Rattle.std.specs.Fmt.{decimal};
ghost use Rattle.cd_ast.specs.Canonical.{quote_of, side_word, hold_word, retain_word, disp_word, relation_sign, source_word, target_word, two_digits, four_digits, weekday, quoted_onto, day_onto, start_onto, interval_onto, ckpt_onto, snode_onto, prty_onto, head_onto, end_onto, copy_onto, run_word, restart_text, task_onto, symbols_onto, submit_onto, what_onto, label_onto, stmt_onto, stmts_onto, canonical};

use crate::{CopyStep, Process, Stmt, SubmitStep, TaskStep, What};
use cd_types::{
    Card, Day, Disp, Hold, Label, NoMemory, NodeName, Relation, Retain, Side, Start, Symbols,
    TaskKind,
};
use std::alloc::Global;
use std::marker::Model;

/// Whether a text has a `"`.
fn has_quote(text: &[u8]) -> bool
    ensures { result ≡ list_any (λ b. b == 34) text.now }
{
    text.iter().any(|byte| *byte == b'"')
}

/// The quote in which a text stands.
fn quote_of(text: &[u8]) -> &'static [u8]
    ensures { result.now ≡ quote_of text.now }
{
    if has_quote(text) { b"'" } else { b"\"" }
}

fn side_word(side: Side) -> &'static [u8]
    ensures { result.now ≡ side_word side }
{
    match side {
        Side::Pnode => b"PNODE",
        Side::Snode => b"SNODE",
    }
}

fn hold_word(hold: Hold) -> &'static [u8]
    ensures { result.now ≡ hold_word hold }
{
    match hold {
        Hold::No => b"NO",
        Hold::Yes => b"YES",
        Hold::Call => b"CALL",
    }
}

fn retain_word(retain: Retain) -> &'static [u8]
    ensures { result.now ≡ retain_word retain }
{
    match retain {
        Retain::No => b"NO",
        Retain::Yes => b"YES",
        Retain::Initial => b"INITIAL",
    }
}

fn disp_word(disp: Disp) -> &'static [u8]
    ensures { result.now ≡ disp_word disp }
{
    match disp {
        Disp::New => b"NEW",
        Disp::Rpl => b"RPL",
        Disp::Mod => b"MOD",
    }
}

fn relation_sign(relation: Relation) -> &'static [u8]
    ensures { result.now ≡ relation_sign relation }
{
    match relation {
        Relation::Eq => b"=",
        Relation::Ne => b"<>",
        Relation::Ge => b">=",
        Relation::Gt => b">",
        Relation::Le => b"<=",
        Relation::Lt => b"<",
    }
}

/// The side of a copy's source.
fn source_word(push: bool) -> &'static [u8]
    ensures { result.now ≡ source_word push }
{
    if push { b"PNODE" } else { b"SNODE" }
}

/// The side of its destination.
fn target_word(push: bool) -> &'static [u8]
    ensures { result.now ≡ target_word push }
{
    if push { b"SNODE" } else { b"PNODE" }
}

/// What stands before the side of a RUN.
fn run_word(kind: TaskKind) -> &'static [u8]
    ensures { result.now ≡ run_word kind }
{
    match kind {
        TaskKind::Restart | TaskKind::Once => b"RUN TASK ",
        TaskKind::Job => b"RUN JOB ",
    }
}

/// What stands behind its command.
fn restart_text(kind: TaskKind) -> &'static [u8]
    ensures { result.now ≡ restart_text kind }
{
    match kind {
        TaskKind::Restart => b" RESTART=YES",
        TaskKind::Once => b" RESTART=NO",
        TaskKind::Job => b"",
    }
}

#[tactic(auto, unfolding(crate::specs::Canonical::weekday))]
fn weekday(number: u8) -> &'static [u8]
    ensures { result.now ≡ weekday number }
{
    match number {
        0 => b"MONDAY",
        1 => b"TUESDAY",
        2 => b"WEDNESDAY",
        3 => b"THURSDAY",
        4 => b"FRIDAY",
        5 => b"SATURDAY",
        _ => b"SUNDAY",
    }
}

/// The last two digits of a number.
fn two_digits(number: u32) -> [u8; 2]
    ensures { result ≡ two_digits number }
{
    [b'0' + (number / 10 % 10) as u8, b'0' + (number % 10) as u8]
}

/// The last four digits of a number.
fn four_digits(number: u32) -> [u8; 4]
    ensures { result ≡ four_digits number }
{
    [
        b'0' + (number / 1000 % 10) as u8,
        b'0' + (number / 100 % 10) as u8,
        b'0' + (number / 10 % 10) as u8,
        b'0' + (number % 10) as u8,
    ]
}

/// A text that is printed.
#[derive(Drop)]
struct Printer {
    alloc: Global,
    text: Vec<u8>,
}

impl Model for Printer {
    ghost use Rattle.std.specs.Prelude.{List, ℕ};

    ghost Value = { List ℕ };

    ghost view = { λ printer. printer.text.items };
}

impl Printer {
    /// Prints bytes.
    fn put(&mut self, part: &[u8]) -> Result<(), NoMemory>
        ensures { OnOk result (self.new ≡ self.old ++ part.now) }
    {
        self.text.extend_from_slice(part)?;
        Ok(())
    }

    /// Prints a number.
    fn number(&mut self, number: u64) -> Result<(), NoMemory>
        ensures { OnOk result (self.new ≡ self.old ++ decimal number) }
    {
        let digits = format!(in self.alloc; "{number}")?;
        self.put(digits.as_bytes())
    }

    /// Prints a quoted text.
    fn quoted(&mut self, body: &[u8]) -> Result<(), NoMemory>
        ensures { OnOk result (self.new ≡ quoted_onto self.old body.now) }
    {
        let quote = quote_of(body);
        self.put(quote)?;
        self.put(body)?;
        self.put(quote)
    }

    fn day(&mut self, day: Day) -> Result<(), NoMemory>
        ensures { OnOk result (self.new ≡ day_onto self.old day) }
    {
        match day {
            Day::Today => self.put(b"TODAY"),
            Day::Tomorrow => self.put(b"TOMORROW"),
            Day::Weekday(number) => self.put(weekday(number)),
            Day::Date(year, month, day) => self.date(year, month, day),
        }
    }

    fn date(&mut self, year: u16, month: u8, day: u8) -> Result<(), NoMemory>
        ensures { OnOk result (self.new ≡ self.old ++ two_digits month ++ codes "/" ++ two_digits day ++ codes "/" ++ four_digits year) }
    {
        self.put(&two_digits(month as u32))?;
        self.put(b"/")?;
        self.put(&two_digits(day as u32))?;
        self.put(b"/")?;
        self.put(&four_digits(year as u32))
    }

    /// Prints a start, where there is one.
    fn start(&mut self, start: Option<Start>) -> Result<(), NoMemory>
        ensures { OnOk result (self.new ≡ start_onto self.old start) }
    {
        let Some(start) = start else {
            return Ok(());
        };
        self.put(b" STARTT=(")?;
        self.day(start.day)?;
        self.put(b",")?;
        self.put(&two_digits(start.seconds / 3600))?;
        self.put(b":")?;
        self.put(&two_digits(start.seconds / 60 % 60))?;
        self.put(b":")?;
        self.put(&two_digits(start.seconds % 60))?;
        self.put(b")")
    }

    /// Prints the interval between checkpoints, where the statement says one.
    #[tactic(auto, unfolding(crate::specs::Canonical::interval_onto))]
    fn ckpt(&mut self, ckpt: Option<u64>) -> Result<(), NoMemory>
        ensures { OnOk result (self.new ≡ ckpt_onto self.old ckpt) }
    {
        let Some(bytes) = ckpt else {
            return Ok(());
        };
        if bytes == 0 {
            return self.put(b" CKPT=NO");
        }
        self.put(b" CKPT=")?;
        self.number(bytes / 1024)?;
        self.put(b"K")
    }

    /// Prints a partner, where there is one.
    fn snode(&mut self, snode: &Option<NodeName>) -> Result<(), NoMemory>
        ensures { OnOk result (self.new ≡ snode_onto self.old snode.now) }
    {
        match snode {
            Some(name) => {
                self.put(b" SNODE=")?;
                self.put(name.as_bytes())
            }
            None => Ok(()),
        }
    }

    /// Prints a priority, where there is one.
    fn priority(&mut self, prty: Option<u8>) -> Result<(), NoMemory>
        ensures { OnOk result (self.new ≡ prty_onto self.old prty) }
    {
        let Some(prty) = prty else {
            return Ok(());
        };
        self.put(b" PRTY=")?;
        self.number(prty as u64)
    }

    /// Prints the line of the PROCESS statement.
    fn head(&mut self, name: &Label, card: &Card) -> Result<(), NoMemory>
        ensures { OnOk result (self.new ≡ head_onto self.old name.now card.now) }
    {
        self.put(name.as_bytes())?;
        self.put(b" PROCESS")?;
        self.snode(&card.snode)?;
        self.put(b" PRTY=")?;
        self.number(card.prty as u64)?;
        self.put(b" CLASS=")?;
        self.number(card.class as u64)?;
        self.put(b" HOLD=")?;
        self.put(hold_word(card.hold))?;
        self.put(b" RETAIN=")?;
        self.put(retain_word(card.retain))?;
        self.start(card.start)?;
        self.put(b"\n")
    }

    /// Prints an end of a copy up to its side.
    fn end(&mut self, front: &[u8], file: &[u8], word: &[u8]) -> Result<(), NoMemory>
        ensures { OnOk result (self.new ≡ end_onto self.old front.now file.now word.now) }
    {
        self.put(front)?;
        self.quoted(file)?;
        self.put(b" ")?;
        self.put(word)
    }

    fn copy(&mut self, copy: &CopyStep) -> Result<(), NoMemory>
        ensures { OnOk result (self.new ≡ copy_onto self.old copy.now) }
    {
        let source = source_word(copy.push);
        let target = target_word(copy.push);
        self.end(b"COPY FROM (FILE=", copy.from.as_slice(), source)?;
        self.end(b") TO (FILE=", copy.to.as_slice(), target)?;
        self.put(b" DISP=")?;
        self.put(disp_word(copy.disp))?;
        self.put(b")")?;
        self.ckpt(copy.ckpt)
    }

    fn task(&mut self, task: &TaskStep) -> Result<(), NoMemory>
        ensures { OnOk result (self.new ≡ task_onto self.old task.now) }
    {
        self.put(run_word(task.kind))?;
        self.put(side_word(task.side))?;
        self.put(b" SYSOPTS=")?;
        self.quoted(task.command.as_slice())?;
        self.put(restart_text(task.kind))
    }

    /// Prints symbols with their values.
    #[tactic(auto, unfolding(crate::specs::Canonical::symbols_onto))]
    fn symbols(&mut self, symbols: &Symbols) -> Result<(), NoMemory>
        ensures { OnOk result (self.new ≡ symbols_onto self.old symbols.now) }
    {
        for place in 0..symbols.len() {
            let Some((name, value)) = symbols.pair(place) else {
                return Ok(());
            };
            self.put(b" &")?;
            self.put(name)?;
            self.put(b"=")?;
            self.quoted(value)?;
        }
        Ok(())
    }

    fn submit(&mut self, submit: &SubmitStep) -> Result<(), NoMemory>
        ensures { OnOk result (self.new ≡ submit_onto self.old submit.now) }
    {
        self.put(b"SUBMIT FILE=")?;
        self.quoted(submit.file.as_slice())?;
        self.put(b" SUBNODE=")?;
        self.put(side_word(submit.side))?;
        self.snode(&submit.snode)?;
        self.priority(submit.prty)?;
        self.symbols(&submit.symbols)
    }

    fn condition(&mut self, label: &Label, relation: Relation, number: u8) -> Result<(), NoMemory>
        ensures { OnOk result (self.new ≡ self.old ++ codes "IF (" ++ label.now ++ codes " " ++ relation_sign relation ++ codes " " ++ decimal number ++ codes ") THEN") }
    {
        self.put(b"IF (")?;
        self.put(label.as_bytes())?;
        self.put(b" ")?;
        self.put(relation_sign(relation))?;
        self.put(b" ")?;
        self.number(number as u64)?;
        self.put(b") THEN")
    }

    fn goto(&mut self, label: &Label) -> Result<(), NoMemory>
        ensures { OnOk result (self.new ≡ self.old ++ codes "GOTO " ++ label.now) }
    {
        self.put(b"GOTO ")?;
        self.put(label.as_bytes())
    }

    /// Prints what a statement says.
    fn what(&mut self, what: &What) -> Result<(), NoMemory>
        ensures { OnOk result (self.new ≡ what_onto self.old what.now) }
    {
        match what {
            What::Copy(copy) => self.copy(copy),
            What::Task(task) => self.task(task),
            What::Submit(submit) => self.submit(submit),
            What::If(label, relation, number) => self.condition(label, *relation, *number),
            What::Else => self.put(b"ELSE"),
            What::Eif => self.put(b"EIF"),
            What::Goto(label) => self.goto(label),
            What::Exit => self.put(b"EXIT"),
        }
    }

    /// Prints a label, where there is one.
    fn label(&mut self, label: &Option<Label>) -> Result<(), NoMemory>
        ensures { OnOk result (self.new ≡ label_onto self.old label.now) }
    {
        match label {
            Some(label) => {
                self.put(label.as_bytes())?;
                self.put(b" ")
            }
            None => Ok(()),
        }
    }

    /// Prints a statement's line.
    fn stmt(&mut self, stmt: &Stmt) -> Result<(), NoMemory>
        ensures { OnOk result (self.new ≡ stmt_onto self.old stmt.now) }
    {
        self.label(&stmt.label)?;
        self.what(&stmt.what)?;
        self.put(b"\n")
    }

    /// Prints the lines of statements.
    #[tactic(auto, unfolding(crate::specs::Canonical::stmts_onto))]
    fn stmts(&mut self, stmts: &[Stmt]) -> Result<(), NoMemory>
        ensures { OnOk result (self.new ≡ stmts_onto self.old stmts.now) }
    {
        for stmt in stmts {
            self.stmt(stmt)?;
        }
        Ok(())
    }
}

/// The canonical text of a Process.
pub fn print(alloc: Global, process: &Process) -> Result<Vec<u8>, NoMemory>
    ensures { IfOk result (λ text. text.items ≡ canonical process.now) }
{
    let mut printer = Printer {
        alloc,
        text: Vec::new(alloc),
    };
    printer.head(&process.name, &process.card)?;
    printer.stmts(process.stmts.as_slice())?;
    printer.put(b"PEND\n")?;
    Ok(printer.text)
}
