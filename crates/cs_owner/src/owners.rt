ghost use Rattle.std.specs.Prelude.{◌≡◌, ◌⊎◌, ℕ, List, IfErr, IfOk, MatchOption};
ghost use Rattle.std.specs.List.{AllZip};
ghost use Rattle.cs_owner.specs.Owners.{AreOwnersOf, IsIn, IsNoteOf, IsOwner, IsUnfitAbove};
ghost use Rattle.cs_owner.specs.Owners.{IsUnowned, LacksOwner, notes_above};
ghost use Rattle.cs_owner.specs.declared.owners.Unowned.TheVariants.{NoMemory, Unfit};

use crate::note::{noted, setting_in};
use cs_civil::{Bytes, Sequence};
use cs_crontab::{Crontab, Line};
use cs_place::{Place, is_gathered, place_of};
use cs_table::Setting;
use cs_table::text::first_line;
use memchr::memrchr;
use std::alloc::{AllocError, Global};

/// As whom a command is run, and with which settings.
#[derive(Drop)]
pub struct Owner {
    /// The name of the user.
    pub user: Bytes,
    /// The settings above the command in its own table, by the lines of the gathered table that
    /// note them.
    pub settings: Sequence<Setting>,
}

/// Why a command has no owner.
#[derive(Clone, Copy)]
pub enum Unowned {
    /// The command on this line has no place.
    NoPlace(u32),
    /// The comment on this line notes a setting that doesn't fit.
    Unfit(u32),
    /// Memory ran out.
    NoMemory,
}

impl From<AllocError> for Unowned {
    ghost from_gives = { λ _ fault. fault ≡ NoMemory };

    fn from(_error: AllocError) -> Unowned {
        Unowned::NoMemory
    }
}

fn table_in(place: &Place) -> Option<&[u8]>
    ensures { MatchOption result ((table : List ℕ) → ¬ (IsIn table place.now))
        (λ table. IsIn table.now place.now) }
{
    let origin = place.origin.as_slice();
    let at = memrchr(b':', origin)?;
    Some(&origin[..at])
}

#[tactic(auto, unfolding(crate::specs::Owners::notes_from))]
fn settings_above(
    alloc: Global,
    line: u32,
    table: &[u8],
    text: &[u8],
) -> Result<Sequence<Setting>, Unowned>
    ensures settings { IfOk result (AllZip IsNoteOf (notes_above line table.now text.now)) }
    ensures unfit { IfErr result (λ fault. (fault ≡ NoMemory)
        ⊎ ((number : ℕ) × (fault ≡ Unfit number)
        × IsUnfitAbove line table.now text.now number)) }
{
    let mut settings = Sequence::new(alloc);
    let mut number = 1u32;
    let mut rest = text;
    while !rest.is_empty() && number < line {
        let (comment, behind) = first_line(rest);
        if let Some(note) = noted(table, comment) {
            let Some(setting) = setting_in(alloc, number, note)? else {
                return Err(Unowned::Unfit(number));
            };
            settings.push(setting)?;
        }
        number += 1;
        rest = behind;
    }
    Ok(settings)
}

fn owner_of(alloc: Global, text: &[u8], places: &[Place], line: &Line) -> Result<Owner, Unowned>
    ensures owner { IfOk result (IsOwner text.now places.now line.now) }
    ensures lacks { IfErr result (LacksOwner text.now places.now line.now.number) }
{
    let number = line.number();
    let Some(place) = place_of(places, number) else {
        return Err(Unowned::NoPlace(number));
    };
    let Some(table) = table_in(place) else {
        return Err(Unowned::NoPlace(number));
    };
    let settings = settings_above(alloc, number, table, text)?;
    Ok(Owner {
        user: Bytes::from_slice(alloc, place.user.as_slice())?,
        settings,
    })
}

/// Returns the owners of a gathered table's commands, in their order; another table has none. An
/// error if a command has no place, a setting that is noted above it doesn't fit, or memory runs
/// out.
pub fn read_owners(
    alloc: Global,
    bytes: &[u8],
    table: &Crontab,
    places: &[Place],
) -> Result<Sequence<Owner>, Unowned>
    ensures owners { IfOk result (AreOwnersOf bytes.now places.now table.now) }
    ensures unowned { IfErr result (IsUnowned bytes.now places.now table.now) }
{
    let mut owners = Sequence::new(alloc);
    if !is_gathered(table.settings()) {
        return Ok(owners);
    }
    for line in table.lines() {
        owners.push(owner_of(alloc, bytes, places, line)?)?;
    }
    Ok(owners)
}
