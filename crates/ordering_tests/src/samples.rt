// The boards that are tried, and their mixes.
use faults::PlatformFault;
use ordering::{Change, Order, OrderFault};
use platform::{Inquiry, Mix, read_inquiry};
use sheets::FourSheets;
use std::alloc::Global;

// A supply on rail 0, a regulator from rail 0 to rail 1, a load on rail 1.
pub(crate) fn small_board(heap: Global) -> Result<Inquiry, PlatformFault> {
    read_inquiry(
        heap,
        FourSheets {
            pins: b"unit,pin,rail,way\n0,0,0,D\n1,0,0,L\n1,1,1,D\n2,0,1,L\n",
            modes: b"unit,mode,kind,draw,heat\n0,0,R,200,0\n0,1,R,3000,2\n0,2,P,0,0\n1,0,R,10,0\n1,1,R,400,1\n1,2,P,0,0\n2,0,R,0,0\n2,1,R,2500,3\n2,2,P,0,0\n",
            bounds: b"unit,mode,pin,low,high\n0,0,0,0,0\n0,1,0,11400,12600\n0,2,0,0,12600\n1,0,0,0,14000\n1,0,1,0,0\n1,1,0,5500,14000\n1,1,1,500,5250\n1,2,0,5500,14000\n1,2,1,0,5250\n2,0,0,0,0\n2,1,0,1650,1950\n2,2,0,0,1950\n",
            demands: b"rail,low,high\n",
        },
    )
}

// A supply on each of two rails, and a load that takes both only at once: both at 0 mV, or both at 100 mV.
pub(crate) fn tied_board(heap: Global) -> Result<Inquiry, PlatformFault> {
    read_inquiry(
        heap,
        FourSheets {
            pins: b"unit,pin,rail,way\n0,0,0,D\n1,0,1,D\n2,0,0,L\n2,1,1,L\n",
            modes: b"unit,mode,kind,draw,heat\n0,0,R,0,0\n1,0,R,0,0\n2,0,R,0,0\n2,1,R,0,0\n",
            bounds: b"unit,mode,pin,low,high\n0,0,0,0,100\n1,0,0,0,100\n2,0,0,0,0\n2,0,1,0,0\n2,1,0,100,100\n2,1,1,100,100\n",
            demands: b"rail,low,high\n",
        },
    )
}

// One unit for each of so many rails, which drives it and rests at any value.
pub(crate) fn wide_board(heap: Global, rails: u8) -> Result<Inquiry, PlatformFault> {
    let mut pins = String::new(heap);
    let mut modes = String::new(heap);
    let mut bounds = String::new(heap);
    writeln!(pins, "unit,pin,rail,way")?;
    writeln!(modes, "unit,mode,kind,draw,heat")?;
    writeln!(bounds, "unit,mode,pin,low,high")?;
    for rail in 0..rails {
        writeln!(pins, "{rail},0,{rail},D")?;
        writeln!(modes, "{rail},0,R,0,0")?;
        writeln!(bounds, "{rail},0,0,0,65535")?;
    }
    read_inquiry(
        heap,
        FourSheets {
            pins: pins.as_bytes(),
            modes: modes.as_bytes(),
            bounds: bounds.as_bytes(),
            demands: b"rail,low,high\n",
        },
    )
}

// Rail 0 at one value, rail 1 at another.
pub(crate) fn mix(rail_0: u16, rail_1: u16) -> Mix {
    let mut values = [0; 24];
    values[0] = rail_0;
    values[1] = rail_1;
    Mix { values }
}

// An order from one mix to another.
pub(crate) fn ordered(
    board: &Inquiry,
    first: Mix,
    last: Mix,
    table: &mut [u8],
) -> Result<Order, OrderFault> {
    let change = Change {
        platform: &board.platform,
        first: &first,
        last: &last,
    };
    change.order(table)
}
