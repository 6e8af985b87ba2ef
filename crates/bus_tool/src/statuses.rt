//! The statuses that the program ends with.

ghost use Rattle.std.specs.Prelude.{◌≡◌};
ghost use Rattle.bus_tool.specs.Executes.{IsCheckStatus, IsStatus};

use bus_text::{Summary, ToolFault};
use std::io::Write;

/// The status of a call without fault.
const FINE: u8 = 0;

/// The status of a check that found something amiss on the line.
const AMISS: u8 = 1;

/// The status of any fault.
pub(crate) const FAULT: u8 = 2;

/// The status of a check, whose fault is told.
pub(crate) fn verdict<E: Write>(ending: Result<Summary, ToolFault>, e: &mut E) -> u8
    ensures { IsCheckStatus ending result }
{
    match ending {
        Ok(summary) if summary.is_clean() => FINE,
        Ok(_) => AMISS,
        Err(fault) => fail(&fault, e),
    }
}

/// Reports a fault, and returns its status. That this fails is ignored.
pub(crate) fn fail<E: Write>(fault: &ToolFault, e: &mut E) -> u8
    ensures status { result ≡ 2 }
{
    let _ = writeln!(e, "port1: {fault}");
    FAULT
}

/// The status of a call, whose fault is told.
pub(crate) fn status<T: Drop, E: Write>(ending: Result<T, ToolFault>, e: &mut E) -> u8
    ensures { IsStatus ending result }
{
    match ending {
        Ok(_) => FINE,
        Err(fault) => fail(&fault, e),
    }
}
