// Tests of the boards: starts and polls, up and down, layers over layers, refusals.
#![tactic(auto)]

#[cfg(test)]
mod tests {
    use boards::{Board, BoardFault, RampBench, RelayBoard};
    use layers::Steady;
    use platform::Mix;
    use std::test::Fail;

    // The ceilings as plain constants, which stand in constants, patterns and lengths.
    const RELAY_TOP: u16 = RelayBoard::CEILING;

    fn is_top(goal: u16) -> bool {
        matches!(goal, RampBench::CEILING)
    }

    // The same value on every rail.
    fn level(mv: u16) -> Mix {
        Mix { values: [mv; 24] }
    }

    fn steady<B: Board + Drop>(below: B, need: u8) -> Result<Steady<B>, BoardFault> {
        Steady::new(below, need).map_err(|(_, fault)| fault)
    }

    // Polls a rail; the answer, and what a look shows then.
    fn seen<B: Board>(board: &mut B, rail: u8) -> Result<(bool, u16, bool), BoardFault> {
        let answer = board.poll(rail)?;
        let (value, pending) = board.look(rail)?;
        Ok((answer, value, pending))
    }

    #[test]
    fn ramp_up_and_down(rt: HostRuntime) -> Result<(), Fail> {
        let mut bench = RampBench::new(2, &[500; 24], &level(0))?;
        bench.start(0, 1650)?;
        assert!(rt; bench.look(0) == Ok((0, true)));
        assert!(rt; seen(&mut bench, 0) == Ok((false, 500, true)));
        assert!(rt; seen(&mut bench, 0) == Ok((false, 1000, true)));
        assert!(rt; seen(&mut bench, 0) == Ok((false, 1500, true)));
        assert!(rt; seen(&mut bench, 0) == Ok((true, 1650, false)));
        bench.start(0, 900)?;
        assert!(rt; seen(&mut bench, 0) == Ok((false, 1150, true)));
        assert!(rt; seen(&mut bench, 0) == Ok((true, 900, false)));
        Ok(())
    }

    // A poll moves the other rail too, which stays pending until it is polled itself.
    #[test]
    fn ramp_moves_every_rail(rt: HostRuntime) -> Result<(), Fail> {
        let mut bench = RampBench::new(2, &[500; 24], &level(2000))?;
        bench.start(0, 0)?;
        bench.start(1, 1600)?;
        assert!(rt; seen(&mut bench, 0) == Ok((false, 1500, true)));
        assert!(rt; bench.look(1) == Ok((1600, true)));
        assert!(rt; seen(&mut bench, 1) == Ok((true, 1600, false)));
        assert!(rt; bench.look(0) == Ok((1000, true)));
        Ok(())
    }

    #[test]
    fn relay_up_and_down(rt: HostRuntime) -> Result<(), Fail> {
        let mut board = RelayBoard::new(2, &[2; 24], &level(0))?;
        board.start(0, 57000)?;
        assert!(rt; seen(&mut board, 0) == Ok((false, 0, true)));
        assert!(rt; seen(&mut board, 1) == Ok((true, 0, false)));
        assert!(rt; seen(&mut board, 0) == Ok((false, 0, true)));
        assert!(rt; seen(&mut board, 0) == Ok((true, 57000, false)));
        board.start(0, 12)?;
        assert!(rt; board.poll(0) == Ok(false) && board.poll(0) == Ok(false));
        assert!(rt; seen(&mut board, 0) == Ok((true, 12, false)));
        Ok(())
    }

    // Three yes answers over a delay of 0; then two of such a layer over a delay of 1.
    #[test]
    fn layers_of_layers(rt: HostRuntime) -> Result<(), Fail> {
        let mut one = steady(RelayBoard::new(1, &[0; 24], &level(0))?, 3)?;
        one.start(0, 900)?;
        assert!(rt; seen(&mut one, 0) == Ok((false, 900, true)));
        assert!(rt; seen(&mut one, 0) == Ok((false, 900, true)));
        assert!(rt; seen(&mut one, 0) == Ok((true, 900, false)));
        let mut two = steady(steady(RelayBoard::new(1, &[1; 24], &level(0))?, 3)?, 2)?;
        two.start(0, 700)?;
        for _ in 0..4 {
            assert!(rt; two.poll(0) == Ok(false));
        }
        assert!(rt; seen(&mut two, 0) == Ok((true, 700, false)));
        Ok(())
    }

    // A ramp under a layer, and a layer that is built over a pending rail.
    #[test]
    fn layer_over_a_moving_ramp(rt: HostRuntime) -> Result<(), Fail> {
        let mut bench = RampBench::new(2, &[500; 24], &level(1000))?;
        bench.start(0, 100)?;
        let mut layer = steady(bench, 2)?;
        assert!(rt; layer.look(1) == Ok((1000, false)));
        assert!(rt; seen(&mut layer, 0) == Ok((false, 500, true)));
        assert!(rt; seen(&mut layer, 0) == Ok((false, 100, true)));
        assert!(rt; seen(&mut layer, 0) == Ok((true, 100, false)));
        assert!(rt; layer.poll(1) == Ok(true));
        Ok(())
    }

    #[test]
    fn refusals(rt: HostRuntime) -> Result<(), Fail> {
        let fault = BoardFault::OutOfRange;
        assert!(rt; fault.number() == 16);
        assert!(rt; RampBench::new(0, &[1; 24], &level(0)).err() == Some(fault));
        assert!(rt; RampBench::new(25, &[1; 24], &level(0)).err() == Some(fault));
        assert!(rt; RampBench::new(24, &[0; 24], &level(0)).err() == Some(fault));
        assert!(rt; RelayBoard::new(1, &[0; 24], &level(57001)).err() == Some(fault));
        let mut board = RelayBoard::new(1, &[0; 24], &level(57000))?;
        assert!(rt; board.start(0, 57001) == Err(fault) && board.start(1, 0) == Err(fault));
        assert!(rt; board.poll(1) == Err(fault) && board.look(1) == Err(fault));
        assert!(rt; steady(board, 17).err() == Some(fault));
        assert!(rt; <Steady<RelayBoard> as Board>::CEILING == 57000 && RELAY_TOP == 57000);
        assert!(rt; is_top(65535) && !is_top(57000));
        Ok(())
    }
}
