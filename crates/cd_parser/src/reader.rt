//! What was read so far, and what each statement adds to it.
ghost use Rattle.std.specs.Prelude.{◌≡◌, [], Some, None, Ok, IfOk, IfErr, OnOk};
ghost use Rattle.std.specs.Option.{option_map};
ghost use Rattle.cd_types.specs.Symbols.{upper_case};
ghost use Rattle.cd_grammar.specs.Answers.{strict};
ghost use Rattle.cd_grammar.specs.Reading.{named, stored, ended, copied, copied_between, run, submitted, kind_of, or_default, opposite, source_side, target_side, is_pnode, are_same, has_room, has_depth, with_name};
ghost use Rattle.cd_grammar.specs.Grammar.{begun_at};
ghost use Rattle.cd_grammar.specs.declared.step.Step.TheVariants as step;
ghost use Rattle.cd_automaton.specs.State.{At};
ghost use Rattle.cd_automaton.specs.Machine.{else_turn, eif_turn};
ghost use Rattle.cd_grammar.specs.Later.{late_faults};
ghost use Rattle.cd_grammar.specs.Faults.{process_of};
ghost use Rattle.cd_parser.specs.Best.{IsBest};
ghost use Rattle.cd_parser.specs.Ends.{EndsAs};
ghost use Rattle.cd_parser.specs.Runs.{Tells, opened_if};

use crate::ParseFault;
use crate::fault::Found;
use crate::late::{sooner, wrong_in, wrong_start};
use crate::leaf::{too_many, unexpected};
use cd_ast::{CopyStep, Process, Stmt, Stmts, SubmitStep, TaskStep, What};
use cd_grammar::{Begun, CopyGiven, Given, Lent, Mark, Sketch, Step, Work};
use cd_types::{
    Bytes, Card, Disp, Hold, Label, MOST_STATEMENTS, Relation, Retain, Side, Symbols, TaskKind,
};
use std::alloc::Global;
use std::collections::VecDeque;
use std::marker::Model;
use std::mem;

/// The Process's name, the parameters of PROCESS, the statements with what the others must know of them, the symbols of the
/// SUBMIT that is being read, and the IFs that are open, from the innermost: for each whether its ELSE was read.
#[derive(Drop)]
pub(crate) struct Reader<'a> {
    name: Label,
    head: Given<'a>,
    stmts: Vec<Stmt>,
    marks: Vec<Mark>,
    symbols: Symbols,
    ifs: VecDeque<bool>,
    alloc: Global,
}

impl<'a> Model for Reader<'a> {
    ghost use Rattle.cd_grammar.specs.Reading.{Reading};

    ghost Value = { Reading };

    ghost view = { λ reader. record { name = reader.name; head = reader.head; stmts = reader.stmts.items; marks = reader.marks.items; symbols = reader.symbols; ifs = reader.ifs.items } };
}

fn opposite(side: Side) -> Side
    ensures { result ≡ opposite side }
{
    match side {
        Side::Pnode => Side::Snode,
        Side::Snode => Side::Pnode,
    }
}

/// The side of a copy's source.
fn source_side(from: Option<Side>, to: Option<Side>) -> Side
    ensures { result ≡ source_side from to }
{
    match (from, to) {
        (Some(side), _) => side,
        (None, Some(side)) => opposite(side),
        (None, None) => Side::Pnode,
    }
}

/// The side of its destination.
fn target_side(from: Option<Side>, to: Option<Side>) -> Side
    ensures { result ≡ target_side from to }
{
    match (to, from) {
        (Some(side), _) => side,
        (None, Some(side)) => opposite(side),
        (None, None) => Side::Snode,
    }
}

fn is_pnode(side: Side) -> bool
    ensures { result ≡ is_pnode side }
{
    match side {
        Side::Pnode => true,
        Side::Snode => false,
    }
}

fn are_same(side: Side, other: Side) -> bool
    ensures { result ≡ are_same side other }
{
    match side {
        Side::Pnode => is_pnode(other),
        Side::Snode => !is_pnode(other),
    }
}

/// What a RUN runs, and whether it is started again.
fn kind_of(work: Work, restart: Option<bool>) -> TaskKind
    ensures { result ≡ kind_of work restart }
{
    match (work, restart) {
        (Work::Job, _) => TaskKind::Job,
        (Work::Task, None) => TaskKind::Restart,
        (Work::Task, Some(restart)) => {
            if restart {
                TaskKind::Restart
            } else {
                TaskKind::Once
            }
        }
    }
}

/// The keyword of a statement without a label at this place.
fn unlabelled(at: u32) -> Begun
    ensures { result ≡ begun_at None at }
{
    Begun { label: None, at }
}

/// A statement's own label.
fn name_of(label: Option<(u32, Label)>) -> Option<Label>
    ensures { result ≡ option_map (λ found. found.1) label }
{
    match label {
        Some((_, name)) => Some(name),
        None => None,
    }
}

impl<'a> Reader<'a> {
    /// Of a Process of this name nothing else.
    pub(crate) fn new(alloc: Global, name: Label) -> Self
        ensures { result ≡ named name }
    {
        Reader {
            name,
            head: Given::nothing(),
            stmts: Vec::new(alloc),
            marks: Vec::new(alloc),
            symbols: Symbols::new(alloc),
            ifs: VecDeque::new(alloc),
            alloc,
        }
    }

    /// Adds a statement.
    pub(crate) fn store(&mut self, begun: Begun, what: Sketch, said: What) -> Result<(), ParseFault>
        ensures ok { OnOk result (self.new ≡ stored self.old begun what said) }
        ensures err { IfErr result (λ fault. fault ≡ ParseFault.NoMemory) }
    {
        let label = name_of(begun.label);
        self.stmts.push(Stmt { label, what: said })?;
        self.marks.push(Mark {
            label: begun.label,
            at: begun.at,
            what,
        })?;
        self.symbols = Symbols::new(self.alloc);
        Ok(())
    }

    /// Adds a COPY between two files.
    fn store_copy(
        &mut self,
        begun: Begun,
        ckpt: Option<u64>,
        from: (&Given<'_>, &Lent<'_>),
        to: (&Given<'_>, &Lent<'_>),
    ) -> Result<(), ParseFault>
        ensures ok { OnOk result (copied self.old begun from.entry.0.now to.entry.0.now ckpt (Some from.entry.1.now) (Some to.entry.1.now) ≡ Some self.new) }
        ensures err { IfErr result (λ fault. fault ≡ ParseFault.NoMemory) }
    {
        let source = source_side(from.0.side, to.0.side);
        let target = target_side(from.0.side, to.0.side);
        let step = CopyStep {
            from: Bytes::copy_of(self.alloc, from.1.bytes())?,
            to: Bytes::copy_of(self.alloc, to.1.bytes())?,
            push: is_pnode(source),
            disp: to.0.disp.unwrap_or(Disp::Rpl),
            ckpt,
        };
        self.store(
            begun,
            Sketch::Copy(are_same(source, target)),
            What::Copy(step),
        )?;
        Ok(())
    }

    /// Ends a COPY, where its two files are named.
    fn end_copy(&mut self, begun: Begun, copy: &CopyGiven<'_>) -> Result<bool, ParseFault>
        ensures ok { IfOk result (λ done. EndsAs done (copied_between self.old begun copy.now.others.ckpt copy.now.from copy.now.to) self.new) }
        ensures err { IfErr result (λ fault. fault ≡ ParseFault.NoMemory) }
    {
        let (Some(from), Some(to)) = (&copy.from, &copy.to) else {
            return Ok(false);
        };
        let (Some(source), Some(target)) = (&from.file, &to.file) else {
            return Ok(false);
        };
        self.store_copy(begun, copy.others.ckpt, (from, source), (to, target))?;
        Ok(true)
    }

    /// Ends a RUN, where its command is given.
    fn end_run(&mut self, begun: Begun, work: Work, given: &Given<'_>) -> Result<bool, ParseFault>
        ensures ok { IfOk result (λ done. EndsAs done (run self.old begun work given.now given.now.command) self.new) }
        ensures err { IfErr result (λ fault. fault ≡ ParseFault.NoMemory) }
    {
        let Some(command) = &given.command else {
            return Ok(false);
        };
        let step = TaskStep {
            side: given.side.unwrap_or(Side::Pnode),
            command: Bytes::copy_of(self.alloc, command.bytes())?,
            kind: kind_of(work, given.restart),
        };
        self.store(begun, Sketch::Action, What::Task(step))?;
        Ok(true)
    }

    /// Ends a SUBMIT, where its file is named.
    fn end_submit(&mut self, begun: Begun, given: &Given<'_>) -> Result<bool, ParseFault>
        ensures ok { IfOk result (λ done. EndsAs done (submitted self.old begun given.now given.now.file) self.new) }
        ensures err { IfErr result (λ fault. fault ≡ ParseFault.NoMemory) }
    {
        let Some(file) = &given.file else {
            return Ok(false);
        };
        let file = Bytes::copy_of(self.alloc, file.bytes())?;
        let step = SubmitStep {
            file,
            side: given.side.unwrap_or(Side::Pnode),
            snode: given.snode,
            prty: given.prty,
            symbols: mem::replace(&mut self.symbols, Symbols::new(self.alloc)),
        };
        self.store(begun, Sketch::Action, What::Submit(step))?;
        Ok(true)
    }

    /// Ends what is being read, where nothing that is required is missing; whether it is so.
    #[tactic(auto, unfolding(cd_grammar::specs::Reading::ended))]
    pub(crate) fn end(&mut self, step: Step<'a>) -> Result<bool, ParseFault>
        ensures ok { IfOk result (λ done. EndsAs done (ended self.old step.entry) self.new) }
        ensures err { IfErr result (λ fault. fault ≡ ParseFault.NoMemory) }
    {
        match step {
            Step::Head(given) => {
                self.head = given;
                Ok(true)
            }
            Step::Between => Ok(true),
            Step::Group(_, _, _, _) | Step::RunGroup(_, _, _) => Ok(false),
            Step::Copy(begun, copy) => {
                let done = self.end_copy(begun, &copy)?;
                Ok(done)
            }
            Step::Run(begun, work, given) => {
                let done = self.end_run(begun, work, &given)?;
                Ok(done)
            }
            Step::Submit(begun, given) => {
                let done = self.end_submit(begun, &given)?;
                Ok(done)
            }
        }
    }

    /// Whether a statement may begin.
    pub(crate) fn has_room(&self) -> bool
        ensures { result ≡ has_room strict self.now }
    {
        self.stmts.len() < MOST_STATEMENTS
    }

    /// Whether an IF may begin.
    pub(crate) fn has_depth(&self, at: u32) -> bool
        ensures { result ≡ has_depth strict at self.now }
    {
        self.ifs.len() < 16
    }

    /// Adds an IF.
    pub(crate) fn open_if(
        &mut self,
        begun: Begun,
        at: u32,
        label: Label,
        relation: Relation,
        number: u8,
    ) -> Result<(), ParseFault>
        ensures ok { OnOk result (self.new ≡ opened_if self.old begun at label relation number) }
        ensures err { IfErr result (λ fault. fault ≡ ParseFault.NoMemory) }
    {
        self.store(
            begun,
            Sketch::If(at, label),
            What::If(label, relation, number),
        )?;
        self.ifs.push_front(false)?;
        Ok(())
    }

    /// Adds an ELSE at a place, where the innermost open IF has none yet.
    pub(crate) fn begin_else(&mut self, at: u32) -> Result<(), ParseFault>
        ensures ok { OnOk result (else_turn self.old at (has_room strict self.old) self.old.ifs ≡ Ok (self.new, At step.Between)) }
        ensures err { IfErr result (λ fault. Tells fault (else_turn self.old at (has_room strict self.old) self.old.ifs)) }
    {
        let has_room = self.has_room();
        match self.ifs.pop_front() {
            None | Some(true) => Err(unexpected(at).into()),
            Some(false) => {
                if !has_room {
                    return Err(too_many().into());
                }
                self.store(unlabelled(at), Sketch::Else, What::Else)?;
                self.ifs.push_front(true)?;
                Ok(())
            }
        }
    }

    /// Adds an EIF at a place, where an IF is open.
    pub(crate) fn close_if(&mut self, at: u32) -> Result<(), ParseFault>
        ensures ok { OnOk result (eif_turn self.old at (has_room strict self.old) self.old.ifs ≡ Ok (self.new, At step.Between)) }
        ensures err { IfErr result (λ fault. Tells fault (eif_turn self.old at (has_room strict self.old) self.old.ifs)) }
    {
        let has_room = self.has_room();
        match self.ifs.pop_front() {
            None => Err(unexpected(at).into()),
            Some(_) => {
                if !has_room {
                    return Err(too_many().into());
                }
                self.store(unlabelled(at), Sketch::Eif, What::Eif)?;
                Ok(())
            }
        }
    }

    /// Gives a name of a SUBMIT a value. Those of PROCESS have no effect here.
    pub(crate) fn name(
        &mut self,
        step: &Step<'_>,
        name: &[u8],
        value: &[u8],
    ) -> Result<(), ParseFault>
        ensures ok { OnOk result (self.new ≡ with_name self.old step.now (upper_case name.now) value.now) }
        ensures err { IfErr result (λ fault. fault ≡ ParseFault.NoMemory) }
    {
        match step {
            Step::Submit(_, _) => self.symbols.set(name, value)?,
            _ => {}
        }
        Ok(())
    }

    /// What is wrong with what was read, if anything is.
    #[tactic(auto, unfolding(cd_grammar::specs::Later::late_faults))]
    pub(crate) fn late_fault(&self) -> Option<Found>
        ensures { IsBest result (late_faults self.now) }
    {
        let start = wrong_start(self.head.retain, self.head.start, self.head.retain_at);
        sooner(start, wrong_in(&self.marks))
    }

    /// The Process that was read.
    pub(crate) fn into_process(self) -> Process
        ensures { result ≡ process_of self.entry }
    {
        Process {
            name: self.name,
            card: Card {
                name: self.name,
                snode: self.head.snode,
                prty: self.head.prty.unwrap_or(10),
                class: self.head.class.unwrap_or(1),
                hold: self.head.hold.unwrap_or(Hold::No),
                retain: self.head.retain.unwrap_or(Retain::No),
                start: self.head.start,
            },
            stmts: Stmts::new(self.stmts),
        }
    }
}
