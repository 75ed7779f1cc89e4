//! Whether a text that is read back says what was gathered.
ghost use Rattle.std.specs.Prelude.{IfOk, IsTrue};
ghost use Rattle.std.specs.List.{AllZip};
ghost use Rattle.cs_gather.specs.Gather.{Gathers, IsGathered};

use crate::line::Gathered;
use cs_crontab::{Line, TableFault, read_crontab};
use cs_decl::is_same_when;
use cs_place::{Place, are_mark, place_of, read_places};
use std::alloc::{AllocError, Global};

fn is_gathered(places: &[Place], line: &Line, gathered: &Gathered) -> bool
    ensures { IsTrue result → IsGathered places.now line.now gathered.now }
{
    match place_of(places, line.number()) {
        Some(place) => {
            place.origin.as_slice() == gathered.origin.as_slice()
                && place.user.as_slice() == gathered.user.as_slice()
                && line.command() == gathered.command.as_slice()
                && is_same_when(line.when(), &gathered.when)
        }
        None => false,
    }
}

fn are_gathered(places: &[Place], found: &[Line], gathered: &[Gathered]) -> bool
    ensures { IsTrue result → AllZip (IsGathered places.now) found.now gathered.now }
{
    let mut found = found;
    let mut gathered = gathered;
    while let [line, later_lines @ ..] = found {
        let [command, later_commands @ ..] = gathered else {
            return false;
        };
        if !is_gathered(places, line, command) {
            return false;
        }
        found = later_lines;
        gathered = later_commands;
    }
    gathered.is_empty()
}

pub(crate) fn says(alloc: Global, text: &[u8], gathered: &[Gathered]) -> Result<bool, AllocError>
    ensures { IfOk result (λ b. IsTrue b → Gathers text.now gathered.now) }
{
    let table = match read_crontab(alloc, text) {
        Ok(table) => table,
        Err(TableFault::OutOfMemory) => return Err(AllocError),
        Err(TableFault::At { .. }) => return Ok(false),
    };
    let places = read_places(alloc, text, &table)?;
    Ok(are_mark(table.settings()) && are_gathered(places.as_slice(), table.lines(), gathered))
}
