// Settling a demand on rail 1 of the small board, whose load rests at 1950 mV at most.
use crate::samples::small_board;
use faults::Fault;
use settling::{Draw, settle};
use sheets::Demand;
use std::test::Fail;

fn demand(low: u16) -> Demand {
    Demand {
        rail: 1,
        low,
        high: 3465,
    }
}

#[test]
fn highest_that_fits(rt: HostRuntime) -> Result<(), Fail> {
    let board = small_board(rt.alloc())?;
    let settled = settle::<Draw>(&board.platform, &[demand(1950)])?;
    assert_eq!(rt; settled.targets.values[1], 1950);
    Ok(())
}

#[test]
fn one_too_high(rt: HostRuntime) -> Result<(), Fail> {
    let board = small_board(rt.alloc())?;
    match settle::<Draw>(&board.platform, &[demand(1951)]) {
        Ok(_) => assert!(rt; false, "settled"),
        Err(fault) => assert_eq!(rt; fault.number(), 11),
    }
    Ok(())
}
