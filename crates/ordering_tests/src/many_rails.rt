// Orders where many rails change, whichever of them comes first.
use crate::samples::{ordered, wide_board};
use ordering::OrderFault;
use platform::Mix;
use std::test::Fail;

// The same value on every rail.
fn level(mv: u16) -> Mix {
    Mix { values: [mv; 24] }
}

// 16 changed rails have 65,536 sets, and each of them can be moved first.
#[test]
fn sixteen_rails(rt: HostRuntime) -> Result<(), Fail> {
    let board = wide_board(rt.alloc(), 16)?;
    let mut table = vec![in rt.alloc(); 0; 65536]?;
    let short = Err(OrderFault::ShortTable);
    assert!(rt; ordered(&board, level(0), level(1), &mut table[..65535]) == short);
    let order = ordered(&board, level(0), level(1), &mut table)?;
    assert_eq!(rt; order.rails().len(), 16);
    assert!(rt; table.iter().all(|byte| *byte == 1));
    Ok(())
}

#[test]
fn seventeen_rails(rt: HostRuntime) -> Result<(), Fail> {
    let board = wide_board(rt.alloc(), 17)?;
    let many = OrderFault::TooMany;
    assert!(rt; ordered(&board, level(0), level(1), &mut []) == Err(many));
    assert_eq!(rt; many.number(), 13);
    Ok(())
}
