//! What BETA does when its partner or its files don't keep to the rules.
ghost use Rattle.std.specs.Prelude.{IfOk, OnOk};
ghost use Rattle.cd_drill.specs.AtRest.{IsAtRest};

use crate::frames::{ACK, END, HELLO, NO_FRAME, READY, STEP, TROUBLE, WELCOME};
use cd_drill::TestNode;
use cd_outside::Sid;
use cd_plain::Handled;
use cd_protocol::Phase;
use cd_types::{Moment, NodeName};
use std::alloc::Global;
use std::process::Abort;
use std::test::Fail;

/// The first session of a node.
const FIRST: Sid = Sid { number: 1 };

/// BETA, with one session that was accepted.
fn beta(alloc: Global) -> Result<TestNode, Fail>
    ensures { IfOk result (λ half. IsAtRest half) }
{
    let (Some(name), Some(partner), Some(now)) = (
        NodeName::new(b"BETA"),
        NodeName::new(b"ALPHA"),
        Moment::new(1_709_287_200),
    ) else {
        return Err("no name".into());
    };
    let Ok(mut half) = TestNode::new(alloc, name, 2, partner, now) else {
        return Err("no node".into());
    };
    match half.accept() {
        Ok(_) => Ok(half),
        Err(_) => {
            half.close();
            Err("no session".into())
        }
    }
}

/// These bytes come to it, and it has its turn.
fn hears(half: &mut TestNode, bytes: &[u8]) -> Result<Handled, Fail>
    requires { IsAtRest half.old }
    ensures { OnOk result (IsAtRest half.new) }
{
    half.offer(FIRST, bytes)?;
    match half.turn(FIRST) {
        Ok(handled) => Ok(handled),
        Err(_) => Err("the node failed".into()),
    }
}

/// Whether its session is closed.
fn is_closed(half: &TestNode) -> bool {
    match half.sessions() {
        [session] => matches!(session.phase, Phase::Gone),
        _ => false,
    }
}

/// Whether these bytes are the first and then the second.
fn is_joined(bytes: &[u8], first: &[u8], second: &[u8]) -> bool {
    bytes.len() == first.len().saturating_add(second.len())
        && bytes.starts_with(first)
        && bytes.ends_with(second)
}

// An Ack has no place where a step is awaited: the session is closed, and the journal is as it was.
#[test]
fn a_frame_that_no_rule_allows(rt: HostRuntime) -> Result<(), Fail> {
    let mut half = beta(rt.alloc())?;
    let tried = no_rule_allows(&rt, &mut half);
    half.close();
    tried
}

fn no_rule_allows(rt: &impl Abort, half: &mut TestNode) -> Result<(), Fail>
    requires { IsAtRest half.old }
{
    assert_eq!(rt; hears(half, HELLO)?, Handled::Went);
    assert!(rt; !is_closed(half));
    hears(half, ACK)?;
    assert!(rt; is_closed(half));
    assert_eq!(rt; half.book().len(), 1);
    assert!(rt; half.given(FIRST) == WELCOME);
    Ok(())
}

// End comes before the last piece: nothing lands, the session is closed, and the file stays as it was made.
#[test]
fn an_end_before_the_last_piece(rt: HostRuntime) -> Result<(), Fail> {
    let mut half = beta(rt.alloc())?;
    let tried = ends_early(&rt, &mut half);
    half.close();
    tried
}

fn ends_early(rt: &impl Abort, half: &mut TestNode) -> Result<(), Fail>
    requires { IsAtRest half.old }
{
    hears(half, HELLO)?;
    assert_eq!(rt; hears(half, STEP)?, Handled::Went);
    assert_eq!(rt; half.book().len(), 2);
    hears(half, END)?;
    assert!(rt; is_closed(half));
    assert_eq!(rt; half.book().len(), 2);
    assert_eq!(rt; half.file(b"b.txt"), Some([].as_slice()));
    assert!(rt; is_joined(half.given(FIRST), WELCOME, READY));
    Ok(())
}

// Bytes that are no frame end the session.
#[test]
fn bytes_that_are_no_frame(rt: HostRuntime) -> Result<(), Fail> {
    let mut half = beta(rt.alloc())?;
    let tried = is_no_frame(&rt, &mut half);
    half.close();
    tried
}

fn is_no_frame(rt: &impl Abort, half: &mut TestNode) -> Result<(), Fail>
    requires { IsAtRest half.old }
{
    hears(half, HELLO)?;
    assert_eq!(rt; hears(half, NO_FRAME)?, Handled::Lost(FIRST));
    assert!(rt; is_closed(half));
    assert_eq!(rt; half.book().len(), 1);
    Ok(())
}

// The files fail when they are asked for the destination: the partner is told, and nothing is recorded.
#[test]
fn files_that_fail_when_asked(rt: HostRuntime) -> Result<(), Fail> {
    let mut half = beta(rt.alloc())?;
    let tried = fail_when_asked(&rt, &mut half);
    half.close();
    tried
}

fn fail_when_asked(rt: &impl Abort, half: &mut TestNode) -> Result<(), Fail>
    requires { IsAtRest half.old }
{
    hears(half, HELLO)?;
    half.fail_files(1)?;
    assert_eq!(rt; hears(half, STEP)?, Handled::Aborted(FIRST));
    assert!(rt; is_closed(half));
    assert_eq!(rt; half.book().len(), 1);
    assert!(rt; is_joined(half.given(FIRST), WELCOME, TROUBLE));
    Ok(())
}

// The files fail when the destination is cut: the receiving is recorded and no outcome, and the partner is told.
#[test]
fn files_that_fail_when_cut(rt: HostRuntime) -> Result<(), Fail> {
    let mut half = beta(rt.alloc())?;
    let tried = fail_when_cut(&rt, &mut half);
    half.close();
    tried
}

fn fail_when_cut(rt: &impl Abort, half: &mut TestNode) -> Result<(), Fail>
    requires { IsAtRest half.old }
{
    hears(half, HELLO)?;
    half.fail_files(2)?;
    assert_eq!(rt; hears(half, STEP)?, Handled::Aborted(FIRST));
    assert!(rt; is_closed(half));
    assert_eq!(rt; half.book().len(), 2);
    assert!(rt; is_joined(half.given(FIRST), WELCOME, TROUBLE));
    Ok(())
}
