//! What becomes of a cell.

use crate::starts::rights_of;
use cap_machine::{Cell, HeldOp, OnExec, Op};
use cap_rights::RightSet;

/// Whether an op makes a cell of another.
fn makes(op: &Op, cell: Cell, made: Cell) -> bool {
    op.on(cell) == made
}

/// Ops that set a flag keep rights, with the flag and without, and leave what is closed closed; one that may narrow too
/// doesn't know it.
#[test]
fn an_op_sets_a_flag(rt: HostRuntime) {
    let named = rights_of(b"CAP_READ|CAP_WRITE");
    let set = Cell::Held(named, OnExec::Set);
    let clear = Cell::Held(named, OnExec::Clear);
    assert!(rt;
        makes(&Op::derive(OnExec::Set), clear, set)
            && makes(&Op::copy_to_itself(), set, set)
            && makes(&Op::set_flag(OnExec::Clear), set, clear)
            && makes(&Op::set_flag(OnExec::Clear), Cell::Closed, Cell::Closed)
            && makes(
                &Op::narrow_and_set_flag(OnExec::Set),
                Cell::Closed,
                Cell::Unknown
            )
    );
}

/// A limit leaves what was held of its rights, and something narrower leaves what is held.
#[test]
fn a_limit_leaves_what_was_held(rt: HostRuntime) {
    let read = rights_of(b"CAP_READ");
    let named = rights_of(b"CAP_READ|CAP_WRITE").join(&read);
    let set = Cell::Held(named, OnExec::Set);
    let limit = Op::limit(&read);
    assert!(rt;
        makes(&Op::narrow(), set, set)
            && makes(&Op::narrow(), Cell::Closed, Cell::Unknown)
            && makes(
                &limit,
                Cell::Held(named, OnExec::Clear),
                Cell::Held(read, OnExec::Clear)
            )
            && makes(&limit, Cell::Closed, Cell::Held(read, OnExec::Unsure))
    );
}

/// All rights are held by their flag.
#[test]
fn an_exec_closes_by_the_flag(rt: HostRuntime) {
    let all = RightSet::all();
    let clear = Cell::Held(all, OnExec::Clear);
    let exec = Op::exec();
    assert!(rt;
        makes(&exec, Cell::Held(all, OnExec::Set), Cell::Closed)
            && makes(&exec, Cell::Held(all, OnExec::Unsure), Cell::Unknown)
            && makes(&exec, clear, clear)
            && exec.clear == HeldOp::Keeps(None, OnExec::Clear)
    );
}

/// An op after another one does what both do in turn: a limit, and then an exec.
#[test]
fn ops_act_in_turn(rt: HostRuntime) {
    let read = rights_of(b"CAP_READ");
    let all = RightSet::all();
    let both = Op::limit(&read).then(&Op::exec());
    assert!(rt;
        makes(
            &both,
            Cell::Held(all, OnExec::Clear),
            Cell::Held(read, OnExec::Clear)
        ) && makes(&both, Cell::Held(all, OnExec::Set), Cell::Closed)
            && makes(&both, Cell::Closed, Cell::Unknown)
    );
}
