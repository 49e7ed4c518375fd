// Tests of safe spans on a small board: a supply on rail 0, a regulator from rail 0 to rail 1, a load on rail 1.
#![tactic(auto)]

#[cfg(test)]
mod tests {
    use platform::{Bounds, Inquiry, read_inquiry};
    use sheets::FourSheets;
    use spans::{BadUnit, NoUnit, first_bad, lowest_bad, lowest_bad_on};
    use std::alloc::Global;
    use std::test::Fail;

    fn small_board(heap: Global) -> Option<Inquiry> {
        read_inquiry(
            heap,
            FourSheets {
                pins: b"unit,pin,rail,way\n0,0,0,D\n1,0,0,L\n1,1,1,D\n2,0,1,L\n",
                modes: b"unit,mode,kind,draw,heat\n0,0,R,200,0\n0,1,R,3000,2\n0,2,P,0,0\n1,0,R,10,0\n1,1,R,400,1\n1,2,P,0,0\n2,0,R,0,0\n2,1,R,2500,3\n2,2,P,0,0\n",
                bounds: b"unit,mode,pin,low,high\n0,0,0,0,0\n0,1,0,11400,12600\n0,2,0,0,12600\n1,0,0,0,14000\n1,0,1,0,0\n1,1,0,5500,14000\n1,1,1,500,5250\n1,2,0,5500,14000\n1,2,1,0,5250\n2,0,0,0,0\n2,1,0,1650,1950\n2,2,0,0,1950\n",
                demands: b"rail,low,high\n",
            },
        )
        .ok()
    }

    // Rail 0 from one value to another, and rail 1.
    fn spans(rail_0: (u16, u16), rail_1: (u16, u16)) -> [Bounds; 24] {
        let (low, high) = rail_0;
        let mut spans = [Bounds { low, high }; 24];
        let (low, high) = rail_1;
        spans[1] = Bounds { low, high };
        spans
    }

    // The regulator needs rail 0 up before rail 1 leaves 0.
    #[test]
    fn rail_1_moved_first(rt: HostRuntime) -> Result<(), Fail> {
        let board = small_board(rt.alloc()).ok_or("refused")?;
        let moving = spans((0, 0), (0, 1650));
        assert!(rt; first_bad(&board.platform, 1, &moving) == Ok(Some([0, 1, 0, 0])));
        assert!(rt; first_bad(&board.platform, 2, &moving) == Ok(None));
        assert!(rt; first_bad(&board.platform, 3, &moving) == Err(NoUnit));
        let bad = BadUnit {
            unit: 1,
            values: [0, 1, 0, 0],
        };
        assert!(rt; lowest_bad(&board.platform, &moving) == Some(bad));
        Ok(())
    }

    // Rail 0 far up with rail 1 at 0: past the supply's bounds first, and past the regulator's.
    #[test]
    fn rail_0_too_high(rt: HostRuntime) -> Result<(), Fail> {
        let board = small_board(rt.alloc()).ok_or("refused")?;
        let moving = spans((0, 20000), (0, 0));
        let bad = BadUnit {
            unit: 0,
            values: [12601, 0, 0, 0],
        };
        assert!(rt; lowest_bad(&board.platform, &moving) == Some(bad));
        let bad = BadUnit {
            unit: 1,
            values: [14001, 0, 0, 0],
        };
        assert!(rt; lowest_bad_on(&board.platform, 1, &moving) == Some(bad));
        assert!(rt; lowest_bad_on(&board.platform, 2, &moving).is_none());
        assert!(rt; lowest_bad(&board.platform, &spans((0, 20000), (1, 0))).is_none());
        Ok(())
    }
}
