// Scripts that bring the small board from 0 to 11400 and 1650 mV.
use crate::samples::{mix, small_board};
use histories::Step;
use platform::{Inquiry, Mix};
use scripts::{Proposal, ScriptFault};
use std::test::Fail;

const RAIL_0_UP: Step = Step::Start {
    rail: 0,
    target: 11400,
};

const RAIL_1_UP: Step = Step::Start {
    rail: 1,
    target: 1650,
};

const RAIL_0_THERE: Step = Step::Wait { rail: 0 };

const RAIL_1_THERE: Step = Step::Wait { rail: 1 };

fn checked(board: &Inquiry, script: &[Step]) -> Result<Mix, ScriptFault> {
    let first = mix(0, 0);
    let proposal = Proposal {
        platform: &board.platform,
        first: &first,
        script,
    };
    proposal.check()
}

// The regulator, whose output leaves 0 before its input is up; it has two pins.
fn unsafe_at(step: usize) -> ScriptFault {
    ScriptFault::Unsafe {
        step,
        unit: 1,
        values: [0, 1, 0, 0],
    }
}

#[test]
fn rail_0_first(rt: HostRuntime) -> Result<(), Fail> {
    let board = small_board(rt.alloc())?;
    let script = [RAIL_0_UP, RAIL_0_THERE, RAIL_1_UP, RAIL_1_THERE];
    assert!(rt; checked(&board, &script) == Ok(mix(11400, 1650)));
    Ok(())
}

#[test]
fn rail_1_first(rt: HostRuntime) -> Result<(), Fail> {
    let board = small_board(rt.alloc())?;
    let script = [RAIL_1_UP, RAIL_1_THERE, RAIL_0_UP, RAIL_0_THERE];
    let bad = unsafe_at(0);
    assert!(rt; checked(&board, &script) == Err(bad));
    assert_eq!(rt; bad.number(), 19);
    Ok(())
}

// Rail 0 starts first, but nothing waits for it.
#[test]
fn both_at_once(rt: HostRuntime) -> Result<(), Fail> {
    let board = small_board(rt.alloc())?;
    let script = [RAIL_0_UP, RAIL_1_UP, RAIL_0_THERE, RAIL_1_THERE];
    assert!(rt; checked(&board, &script) == Err(unsafe_at(1)));
    Ok(())
}

// A wait for a rail that stands, and a rail that is left moving.
#[test]
fn out_of_form(rt: HostRuntime) -> Result<(), Fail> {
    let board = small_board(rt.alloc())?;
    let bad = ScriptFault::OutOfForm { step: 0 };
    assert!(rt; checked(&board, &[RAIL_0_THERE]) == Err(bad));
    assert_eq!(rt; bad.number(), 18);
    let bad = ScriptFault::OutOfForm { step: 1 };
    assert!(rt; checked(&board, &[RAIL_0_UP]) == Err(bad));
    Ok(())
}
