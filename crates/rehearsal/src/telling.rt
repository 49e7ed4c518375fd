// What a refusal says, in words.
use faults::{Fault, PlatformFault};
use openings::End;
use ordering::OrderFault;
use platform::Platform;
use runs::OpenFault;
use scripts::{Proposal, ScriptFault};
use std::fmt;

// A refusal of the sheets or of their platform.
#[derive(Clone, Copy)]
pub(crate) struct ToldPlatform(pub PlatformFault);

impl fmt::Display for ToldPlatform {
    fn fmt<W: fmt::Write>(&self, f: &mut fmt::Formatter<W>) -> fmt::Result {
        let refusal = self.0.refusal();
        let (number, sheet, line) = (refusal.number, refusal.sheet, refusal.line);
        write!(f, "refused with {number}: ")?;
        match self.0 {
            PlatformFault::Sheet(_) => write!(f, "sheet {sheet}, line {line}"),
            PlatformFault::Twice { unit } => write!(f, "unit {unit} has two pins on one rail"),
            PlatformFault::Driver { rail } => write!(
                f,
                "rail {rail} has no driving pin, or more than one"
            ),
            PlatformFault::Memory => write!(f, "out of memory"),
        }
    }
}

// A unit that does not rest at one end of the way.
#[derive(Clone, Copy)]
struct Restless {
    end: End,
    unit: usize,
}

impl fmt::Display for Restless {
    fn fmt<W: fmt::Write>(&self, f: &mut fmt::Formatter<W>) -> fmt::Result {
        let unit = self.unit;
        let end = match self.end {
            End::First => "first",
            End::Last => "last",
        };
        write!(f, "at the {end} mix unit {unit} does not rest")
    }
}

// A refusal of an order.
#[derive(Clone, Copy)]
pub(crate) struct ToldOrder(pub OrderFault);

impl fmt::Display for ToldOrder {
    fn fmt<W: fmt::Write>(&self, f: &mut fmt::Formatter<W>) -> fmt::Result {
        let number = self.0.number();
        write!(f, "no order, refused with {number}: ")?;
        match self.0 {
            OrderFault::Restless { end, unit } => {
                let restless = Restless { end, unit };
                write!(f, "{restless}")
            }
            OrderFault::TooMany => write!(f, "more than 16 rails change"),
            OrderFault::ShortTable => write!(f, "the table of sets is too short"),
            OrderFault::NoOrder => write!(
                f,
                "every order of the changed rails is unsafe at some step"
            ),
        }
    }
}

// A refusal of an opening.
#[derive(Clone, Copy)]
pub(crate) struct ToldOpening<'a> {
    pub fault: OpenFault,
    pub proposal: &'a Proposal<'a>,
}

impl fmt::Display for ToldOpening<'_> {
    fn fmt<W: fmt::Write>(&self, f: &mut fmt::Formatter<W>) -> fmt::Result {
        let number = self.fault.number();
        write!(f, "refused with {number}: ")?;
        match self.fault {
            OpenFault::NotEmpty => write!(f, "the run is open already"),
            OpenFault::Script(fault) => self.tell_script(f, fault),
            OpenFault::Board => write!(f, "a value of the script is above what the board takes"),
        }
    }
}

impl ToldOpening<'_> {
    fn tell_script<W: fmt::Write>(
        &self,
        f: &mut fmt::Formatter<W>,
        fault: ScriptFault,
    ) -> fmt::Result {
        match fault {
            ScriptFault::OutOfForm { step } => self.tell_form(f, step),
            ScriptFault::Restless { end, unit } => {
                let restless = Restless { end, unit };
                write!(f, "{restless}")
            }
            ScriptFault::Unsafe { step, unit, values } => {
                write!(
                    f,
                    "step {step} is not safe for unit {unit}, first with its pins at "
                )?;
                tell_values(f, self.proposal.platform, unit, &values)
            }
        }
    }

    // A step past the last stands for the script's end.
    fn tell_form<W: fmt::Write>(&self, f: &mut fmt::Formatter<W>, step: usize) -> fmt::Result {
        if step == self.proposal.script.len() {
            write!(f, "the script ends while a rail is moving")
        } else if step >= 64 {
            write!(f, "the script has more than 64 steps")
        } else {
            write!(
                f,
                "step {step} starts a rail that moves, waits for one that stands, or is of no rail"
            )
        }
    }
}

// The values of a unit's pins, in order.
fn tell_values<W: fmt::Write>(
    f: &mut fmt::Formatter<W>,
    platform: &Platform,
    unit: usize,
    values: &[u16; 4],
) -> fmt::Result {
    let pins = platform.units().get(unit).map_or(0, |unit| unit.pins.len());
    for (pin, value) in values.iter().take(pins).enumerate() {
        let between = if pin == 0 { "" } else { "," };
        write!(f, "{between}{value}")?;
    }
    Ok(())
}
