//! Processes that are made part by part, and the texts that are printed of them.
use crate::closing::{close_statements, close_symbols, print_and_close};
use cd_ast::{CopyStep, Process, Stmt, Stmts, SubmitStep, TaskStep, What};
use cd_types::{
    Bytes, Card, Day, Disp, Hold, Label, NodeName, Relation, Retain, Side, Start, Symbols, TaskKind,
};
use std::alloc::Global;
use std::test::Fail;

fn label(name: &[u8]) -> Result<Label, Fail> {
    Ok(Label::new(name).ok_or("no label")?)
}

fn bytes(alloc: Global, text: &[u8]) -> Result<Bytes, Fail> {
    Ok(Bytes::copy_of(alloc, text)?)
}

fn copy(alloc: Global, files: (&[u8], &[u8]), push: bool, ckpt: Option<u64>) -> Result<What, Fail> {
    Ok(What::Copy(CopyStep {
        from: bytes(alloc, files.0)?,
        to: bytes(alloc, files.1)?,
        push,
        disp: Disp::Rpl,
        ckpt,
    }))
}

/// Adds a statement, where what it says was made.
fn add(stmts: &mut Vec<Stmt>, label: Option<Label>, what: Result<What, Fail>) -> Result<(), Fail> {
    match what {
        Ok(what) => {
            stmts.push(Stmt { label, what })?;
            Ok(())
        }
        Err(fault) => Err(fault),
    }
}

/// What is printed of a Process with this card, where its statements were made.
fn printed(alloc: Global, card: Card, stmts: Result<Vec<Stmt>, Fail>) -> Result<Vec<u8>, Fail> {
    match stmts {
        Ok(stmts) => {
            let process = Process {
                name: card.name,
                card,
                stmts: Stmts::new(stmts),
            };
            Ok(print_and_close(alloc, process)?)
        }
        Err(fault) => Err(fault),
    }
}

fn one_copy(alloc: Global) -> Result<Vec<Stmt>, Fail> {
    let s1 = label(b"s1")?;
    let mut stmts = Vec::new(alloc);
    let what = copy(alloc, (b"a.txt", b"b.txt"), true, Some(65_536));
    match add(&mut stmts, Some(s1), what) {
        Ok(()) => Ok(stmts),
        Err(fault) => {
            close_statements(stmts);
            Err(fault)
        }
    }
}

/// The kept text of a Process with one COPY has these three lines.
#[test]
fn one_copy_has_three_lines(rt: HostRuntime) -> Result<(), Fail> {
    let name = label(b"P1")?;
    let snode = Some(NodeName::new(b"BETA").ok_or("no name")?);
    let card = Card {
        name,
        snode,
        prty: 10,
        class: 1,
        hold: Hold::No,
        retain: Retain::No,
        start: None,
    };
    let text = printed(rt.alloc(), card, one_copy(rt.alloc()))?;
    let expected = b"P1 PROCESS SNODE=BETA PRTY=10 CLASS=1 HOLD=NO RETAIN=NO
S1 COPY FROM (FILE=\"a.txt\" PNODE) TO (FILE=\"b.txt\" SNODE DISP=RPL) CKPT=64K
PEND
";
    assert_eq!(rt; text.len(), 137);
    assert!(rt; text.as_slice() == expected.as_slice());
    Ok(())
}

fn task(alloc: Global, side: Side, command: &[u8], kind: TaskKind) -> Result<What, Fail> {
    Ok(What::Task(TaskStep {
        side,
        command: bytes(alloc, command)?,
        kind,
    }))
}

fn set_both(symbols: &mut Symbols) -> Result<(), Fail> {
    symbols.set(b"x", b"3")?;
    symbols.set(b"Y", b"a\"b")?;
    Ok(())
}

fn two_symbols(alloc: Global) -> Result<Symbols, Fail> {
    let mut symbols = Symbols::new(alloc);
    match set_both(&mut symbols) {
        Ok(()) => Ok(symbols),
        Err(fault) => {
            close_symbols(symbols);
            Err(fault)
        }
    }
}

fn submit(alloc: Global) -> Result<What, Fail> {
    let snode = NodeName::new(b"GAMMA").ok_or("no name")?;
    let file = bytes(alloc, b"n.cd")?;
    match two_symbols(alloc) {
        Ok(symbols) => Ok(What::Submit(SubmitStep {
            file,
            side: Side::Snode,
            snode: Some(snode),
            prty: Some(3),
            symbols,
        })),
        Err(fault) => Err(fault),
    }
}

fn add_copies(alloc: Global, stmts: &mut Vec<Stmt>) -> Result<(), Fail> {
    let s1 = Some(label(b"s1")?);
    add(
        stmts,
        s1,
        copy(alloc, (b"say \"hi\"", b"b"), false, Some(10_485_760)),
    )?;
    add(stmts, s1, copy(alloc, (b"a", b"b"), true, Some(0)))?;
    add(stmts, s1, copy(alloc, (b"a", b"b"), true, None))?;
    Ok(())
}

fn add_actions(alloc: Global, stmts: &mut Vec<Stmt>) -> Result<(), Fail> {
    let j = Some(label(b"J")?);
    add(
        stmts,
        None,
        task(alloc, Side::Snode, b"ls -l", TaskKind::Once),
    )?;
    add(stmts, j, task(alloc, Side::Pnode, b"ls", TaskKind::Job))?;
    add(stmts, None, submit(alloc))?;
    Ok(())
}

fn add_jumps(stmts: &mut Vec<Stmt>) -> Result<(), Fail> {
    add(stmts, None, Ok(What::If(label(b"J")?, Relation::Ge, 4)))?;
    add(stmts, None, Ok(What::Else))?;
    add(stmts, None, Ok(What::Goto(label(b"L")?)))?;
    add(stmts, None, Ok(What::Eif))?;
    add(stmts, Some(label(b"l")?), Ok(What::Exit))?;
    Ok(())
}

fn add_all(alloc: Global, stmts: &mut Vec<Stmt>) -> Result<(), Fail> {
    add_copies(alloc, stmts)?;
    add_actions(alloc, stmts)?;
    add_jumps(stmts)?;
    Ok(())
}

fn each_statement(alloc: Global) -> Result<Vec<Stmt>, Fail> {
    let mut stmts = Vec::new(alloc);
    match add_all(alloc, &mut stmts) {
        Ok(()) => Ok(stmts),
        Err(fault) => {
            close_statements(stmts);
            Err(fault)
        }
    }
}

/// Each statement in its canonical form.
#[test]
fn each_statement_has_its_line(rt: HostRuntime) -> Result<(), Fail> {
    let name = label(b"night")?;
    let day = Day::Date(2024, 3, 1);
    let card = Card {
        name,
        snode: None,
        prty: 12,
        class: 255,
        hold: Hold::Call,
        retain: Retain::Yes,
        start: Some(Start {
            day,
            seconds: 52_205,
        }),
    };
    let text = printed(rt.alloc(), card, each_statement(rt.alloc()))?;
    let expected =
        b"NIGHT PROCESS PRTY=12 CLASS=255 HOLD=CALL RETAIN=YES STARTT=(03/01/2024,14:30:05)
S1 COPY FROM (FILE='say \"hi\"' SNODE) TO (FILE=\"b\" PNODE DISP=RPL) CKPT=10240K
S1 COPY FROM (FILE=\"a\" PNODE) TO (FILE=\"b\" SNODE DISP=RPL) CKPT=NO
S1 COPY FROM (FILE=\"a\" PNODE) TO (FILE=\"b\" SNODE DISP=RPL)
RUN TASK SNODE SYSOPTS=\"ls -l\" RESTART=NO
J RUN JOB PNODE SYSOPTS=\"ls\"
SUBMIT FILE=\"n.cd\" SUBNODE=SNODE SNODE=GAMMA PRTY=3 &X=\"3\" &Y='a\"b'
IF (J >= 4) THEN
ELSE
GOTO L
EIF
L EXIT
PEND
";
    assert!(rt; text.as_slice() == expected.as_slice());
    Ok(())
}
