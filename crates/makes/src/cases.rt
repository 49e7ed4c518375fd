// The worked cases, as theorems and on the boards themselves.
ghost use Rattle.std.specs.Prelude.{◌≡◌, true, false, [], ◌∷◌, Ok};
ghost use Rattle.makes.specs.Cases.{FourPolls, ThirdYes};

use boards::{Board, BoardFault, RampBench, RelayBoard};
use layers::Steady;
use platform::Mix;

// Both cases, by the definitions.
pub fn cases_stand()
    ensures ramp { FourPolls }
    ensures steady { ThirdYes }
{}

// The first polls of a ramp of 500 mV from 0 to 1650 mV.
pub fn ramp_case() -> Result<[bool; 4], BoardFault>
    ensures { result ≡ Ok (false ∷ false ∷ false ∷ true ∷ []) }
{
    let mut bench = RampBench::new(1, &[500; 24], &Mix { values: [0; 24] })?;
    bench.start(0, 1650)?;
    Ok([
        bench.poll(0)?,
        bench.poll(0)?,
        bench.poll(0)?,
        bench.poll(0)?,
    ])
}

// The first polls of a steady layer of three over a relay with no delay.
pub fn steady_case() -> Result<[bool; 3], BoardFault>
    ensures { result ≡ Ok (false ∷ false ∷ true ∷ []) }
{
    let relay = RelayBoard::new(1, &[0; 24], &Mix { values: [0; 24] })?;
    let mut layer = Steady::new(relay, 3).map_err(|(_, fault)| fault)?;
    layer.start(0, 900)?;
    Ok([layer.poll(0)?, layer.poll(0)?, layer.poll(0)?])
}
