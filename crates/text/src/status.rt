ghost use Rattle.std.specs.Prelude.{◌≡◌, ◌++◌, string_bytes, OnOk};
ghost use Rattle.text.specs.Status.{status_line};

use std::alloc::AllocError;
use std::fmt::Write;
use wire::{Census, House, RoundNumber, Tally};

/// Where a house stands: its census, how far that has come, and how full its tables are.
#[derive(Clone, Copy)]
pub struct Status {
    pub house: House,
    pub census: Census,
    pub tally: Tally,
    // of the round that was asked last in this census, at the house that asks them; else 0
    pub round: RoundNumber,
    pub objects: usize,
    pub roots: usize,
    pub lines: usize,
}

/// The line that says where a house stands.
pub fn write_status(status: Status, out: &mut String) -> Result<(), AllocError>
    ensures { OnOk result (string_bytes out.new ≡ string_bytes out.old ++ status_line status) }
{
    let Status {
        house,
        census,
        tally: Tally(tally),
        round: RoundNumber(round),
        objects,
        roots,
        lines,
    } = status;
    write!(
        out,
        "house {house} census {census} tally {tally} round {round}"
    )?;
    writeln!(out, " objects {objects} roots {roots} lines {lines}")
}
