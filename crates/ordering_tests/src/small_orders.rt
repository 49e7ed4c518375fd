// Orders on boards of two rails.
use crate::samples::{mix, ordered, small_board, tied_board};
use openings::End;
use ordering::OrderFault;
use std::test::Fail;

// Rail 0 comes first: rail 1 cannot be moved alone. The bytes past the four sets stay.
#[test]
fn both_up(rt: HostRuntime) -> Result<(), Fail> {
    let board = small_board(rt.alloc())?;
    let mut table = [7; 6];
    let order = ordered(&board, mix(0, 0), mix(11400, 1650), &mut table)?;
    assert_eq!(rt; order.rails(), [0, 1].as_slice());
    assert_eq!(rt; table, [1, 1, 0, 1, 7, 7]);
    Ok(())
}

// Down again rail 1 comes first.
#[test]
fn both_down(rt: HostRuntime) -> Result<(), Fail> {
    let board = small_board(rt.alloc())?;
    let mut table = [7; 5];
    let order = ordered(&board, mix(11400, 1650), mix(0, 0), &mut table)?;
    assert_eq!(rt; order.rails(), [1, 0].as_slice());
    assert_eq!(rt; table, [1, 0, 1, 1, 7]);
    Ok(())
}

// With nothing to move the order is empty, and the empty set can be moved.
#[test]
fn nothing_to_move(rt: HostRuntime) -> Result<(), Fail> {
    let board = small_board(rt.alloc())?;
    let mut table = [7; 2];
    let order = ordered(&board, mix(0, 0), mix(0, 0), &mut table)?;
    assert!(rt; order.rails().is_empty());
    assert_eq!(rt; table, [1, 7]);
    Ok(())
}

// The supply has no rest mode at 5 mV; at 700 mV on rail 1 the load is the lowest that has none.
#[test]
fn restless_ends(rt: HostRuntime) -> Result<(), Fail> {
    let board = small_board(rt.alloc())?;
    let mut table = [7; 4];
    let first = OrderFault::Restless {
        end: End::First,
        unit: 0,
    };
    assert!(rt; ordered(&board, mix(5, 0), mix(11400, 700), &mut table) == Err(first));
    let last = OrderFault::Restless {
        end: End::Last,
        unit: 2,
    };
    assert!(rt; ordered(&board, mix(0, 0), mix(11400, 700), &mut table) == Err(last));
    assert_eq!(rt; (first.number(), last.number()), (12, 12));
    assert_eq!(rt; table, [7; 4]);
    Ok(())
}

// Two changed rails have four sets.
#[test]
fn short_table(rt: HostRuntime) -> Result<(), Fail> {
    let board = small_board(rt.alloc())?;
    let mut table = [7; 3];
    let short = OrderFault::ShortTable;
    assert!(rt; ordered(&board, mix(0, 0), mix(11400, 1650), &mut table) == Err(short));
    assert_eq!(rt; short.number(), 14);
    assert_eq!(rt; table, [7; 3]);
    Ok(())
}

// Neither rail can be moved first, so of all sets only the empty one can be.
#[test]
fn no_order(rt: HostRuntime) -> Result<(), Fail> {
    let board = tied_board(rt.alloc())?;
    let mut table = [7; 5];
    let none = OrderFault::NoOrder;
    assert!(rt; ordered(&board, mix(0, 0), mix(100, 100), &mut table) == Err(none));
    assert_eq!(rt; none.number(), 15);
    assert_eq!(rt; table, [1, 0, 0, 0, 7]);
    Ok(())
}
