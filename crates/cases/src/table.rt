// The table of worked cases.
ghost use Rattle.std.specs.Prelude.{[], ◌∷◌, Ok, Err};
ghost use Rattle.platform.specs.Units.{value_of};
ghost use Rattle.platform.specs.Making.{Makes};
ghost use Rattle.spans.specs.Safety.{SafeFor, BadValues};
ghost use Rattle.spans.specs.Cases.{from_to, two_modes};
ghost use Rattle.makes.specs.Cases.{FourPolls, ThirdYes};
ghost use Rattle.scripts.specs.Checking.{Checked};
ghost use Rattle.scripts.specs.declared.fault.ScriptFault.TheVariants.{OutOfForm, Unsafe};
ghost use Rattle.openings.specs.declared.end.End.TheVariants.{First, Last};
ghost use Rattle.ordering.specs.declared.fault.OrderFault.TheVariants.{Restless, ShortTable};
ghost use Rattle.ordering.specs.Answers.{Ordered};
ghost use Rattle.ordering.specs.Sets.{Finished, SafeOrder};
ghost use Rattle.faults.specs.declared.settle.SettleFault.TheVariants.{NoChoice};
ghost use Rattle.settling.specs.Settling.{Settles};
ghost use Rattle.settling.specs.Sums.{draw_toll};
ghost use Rattle.cases.specs.Board.{small_board};
ghost use Rattle.cases.specs.Demands.{wanted, all_on};
ghost use Rattle.cases.specs.Sheets.{small_rows};
ghost use Rattle.cases.specs.Moves.{off, on, supply_between, load_between, switching_on, staying_off, rail_0_first, rail_1_first, both_at_once, idle_wait, mix_on, rail_1_ahead};

use makes::cases_stand;
use spans::worked_cases;

// Spans across two modes and over a gap; the answers of a ramp and of a steady layer; and the small board as its sheets have it,
// with orders and their tables, the refusals of an order, scripts that pass or do not, and what settling answers.
pub fn cases_hold()
    ensures joined { SafeFor 1 (from_to 0 1650 ∷ []) (two_modes (from_to 0 900) (from_to 901 1950)) }
    ensures gap { BadValues 1 (from_to 0 1650 ∷ []) (two_modes (from_to 0 500) (from_to 900 1950)) (501 ∷ []) }
    ensures ramp { FourPolls }
    ensures steady { ThirdYes }
    ensures board { Makes small_rows (Ok small_board) }
    ensures order { SafeOrder small_board.units switching_on (0 ∷ 1 ∷ []) }
    ensures table { Finished small_board.units switching_on (0 ∷ 0 ∷ 0 ∷ 0 ∷ []) (1 ∷ 1 ∷ 0 ∷ 1 ∷ []) }
    ensures still_order { SafeOrder small_board.units staying_off [] }
    ensures still_table { Finished small_board.units staying_off (0 ∷ []) (1 ∷ []) }
    ensures restless_first { Ordered small_board supply_between on (7 ∷ []) (7 ∷ []) (Err (Restless First 0)) }
    ensures restless_last { Ordered small_board off load_between (7 ∷ []) (7 ∷ []) (Err (Restless Last 2)) }
    ensures short_table { Ordered small_board off on (7 ∷ 7 ∷ 7 ∷ []) (7 ∷ 7 ∷ 7 ∷ []) (Err ShortTable) }
    ensures opened { Checked small_board (value_of off) rail_0_first (Ok mix_on) }
    ensures first_step { Checked small_board (value_of off) rail_1_first (Err (Unsafe 0 1 rail_1_ahead)) }
    ensures second_step { Checked small_board (value_of off) both_at_once (Err (Unsafe 1 1 rail_1_ahead)) }
    ensures idle_wait { Checked small_board (value_of off) idle_wait (Err (OutOfForm 0)) }
    ensures highest_that_fits { Settles draw_toll small_board.rails small_board.units (wanted 1950 3465) (Ok all_on) }
    ensures one_too_high { Settles draw_toll small_board.rails small_board.units (wanted 1951 3465) (Err NoChoice) }
{
    worked_cases();
    cases_stand();
}
