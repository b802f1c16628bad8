//! A text that is canonical, one that only says the same Process, and some that say none.
use crate::closing::print_and_close;
use cd_book::Texts;
use cd_canonical::Canonical;
use std::alloc::Global;
use std::process::Abort;
use std::test::Fail;

const CANONICAL: &[u8] =
    b"P PROCESS SNODE=BETA PRTY=10 CLASS=1 HOLD=NO RETAIN=NO\nS RUN TASK PNODE SYSOPTS=\"go\" RESTART=YES\nIF (S = 0) THEN\nEXIT\nEIF\nPEND\n";

/// The same Process, with its defaults left out.
const SHORTER: &[u8] =
    b"P PROCESS SNODE=BETA S RUN TASK SYSOPTS=\"go\" IF (S = 0) THEN EXIT EIF PEND";

/// The condition is on an action that stands behind it.
const TURNED: &[u8] =
    b"P PROCESS SNODE=BETA PRTY=10 CLASS=1 HOLD=NO RETAIN=NO\nIF (S = 0) THEN\nEXIT\nEIF\nS RUN TASK PNODE SYSOPTS=\"go\" RESTART=YES\nPEND\n";

/// What is printed of the Process that a text is read as; no bytes where it is read as none.
fn again(alloc: Global, texts: &impl Texts, text: &[u8]) -> Result<Vec<u8>, Fail> {
    match texts.process(alloc, text) {
        Ok(Some(process)) => Ok(print_and_close(alloc, process)?),
        Ok(None) => Ok(Vec::new(alloc)),
        Err(fault) => Err(Fail::from(fault)),
    }
}

#[test]
fn canonical_texts_alone_are_read(rt: HostRuntime) -> Result<(), Fail> {
    let alloc = rt.alloc();
    assert!(rt; again(alloc, &Canonical, CANONICAL)?.as_slice() == CANONICAL);
    assert!(rt; again(alloc, &Canonical, SHORTER)?.is_empty());
    assert!(rt; again(alloc, &Canonical, TURNED)?.is_empty());
    assert!(rt; again(alloc, &Canonical, &CANONICAL[..CANONICAL.len() - 5])?.is_empty());
    Ok(())
}
