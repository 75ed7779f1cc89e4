ghost use Rattle.std.specs.Prelude.{◌≡◌, ◌++◌, OnOk};
ghost use Rattle.cs_wall.specs.WallText.{bracket, is_other, wall_at, wall_text};

use cs_civil::{FIRST_MINUTE, LAST_MINUTE, Minute, date_text, kind_of};
use cs_zone::{Zone, march_day, wall_on};
use std::alloc::AllocError;

/// The minute that the wall shows, which may have no date.
#[tactic(auto, unfolding(crate::specs::WallText::wall_at))]
fn wall_at(zone: &Zone, minute: Minute) -> u64
    ensures { result ≡ wall_at zone.now minute }
{
    let (kind, minute_of_day) = (kind_of(minute.day()), minute.minute_of_day());
    let march_minute = 1_440 * march_day(kind) + u32::from(minute_of_day);
    let shown = wall_on(*zone, kind, minute_of_day);
    (minute.number() + u64::from(shown)).saturating_sub(u64::from(march_minute))
}

fn is_other(minute: Minute, shown: u64) -> bool
    ensures { result ≡ is_other minute shown }
{
    shown != minute.number() && FIRST_MINUTE <= shown && shown <= LAST_MINUTE
}

fn push_bracket(text: &mut Vec<u8>, name: &[u8], shown: &[u8]) -> Result<(), AllocError>
    ensures { OnOk result (text.new.items ≡ text.old.items ++ bracket name.now shown.now) }
{
    text.extend_from_slice(b" (")?;
    text.extend_from_slice(shown)?;
    text.extend_from_slice(b" ")?;
    text.extend_from_slice(name)?;
    text.extend_from_slice(b")")
}

/// Adds to a minute of the plan's clock what the zone's clock shows then, ` (2024-07-01 02:30
/// CEST)`, under the name of the zone's other clock. It adds nothing where both show the same
/// minute, nor where the zone's clock shows one before [`FIRST_MINUTE`] or after [`LAST_MINUTE`].
/// The only error is out of memory.
#[tactic(auto, unfolding(crate::specs::WallText::wall_text))]
pub fn push_wall(
    text: &mut Vec<u8>,
    zone: &Zone,
    other: &[u8],
    minute: Minute,
) -> Result<(), AllocError>
    ensures { OnOk result (text.new.items
        ≡ text.old.items ++ wall_text zone.now other.now minute) }
{
    let shown = wall_at(zone, minute);
    if !is_other(minute, shown) {
        return Ok(());
    }
    push_bracket(text, other, &date_text(Minute::new(shown).unwrap()))
}
