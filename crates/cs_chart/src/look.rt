//! The look of bars.
ghost use Rattle.std.specs.Prelude.{◌≡◌, length};

use std::alloc::AllocError;
use std::fmt::Write;

/// How many colours groups have; further groups repeat them with white lines.
const COLOURS: u8 = 6;

/// The colour of a group by its index, or of jobs without a group: those of Okabe and Ito for all
/// kinds of colour vision ("Color Universal Design", 2008), except black, the colour of due
/// minutes, and vermilion, that of load above the capacity.
pub(crate) fn colour_of(group: Option<u8>) -> &'static str
    ensures { length result.now ≡ 7 }
{
    let Some(place) = group else {
        return "#999999";
    };
    match place % COLOURS {
        0 => "#E69F00",
        1 => "#56B4E9",
        2 => "#009E73",
        3 => "#0072B2",
        4 => "#CC79A7",
        _ => "#F0E442",
    }
}

/// Adds white lines through the bars of a group, of this length from this place on, so that more
/// groups than colours look different. The nineteenth group looks like the first.
pub(crate) fn push_lines(
    text: &mut String,
    group: Option<u8>,
    x: u32,
    y: u32,
    length: u32,
) -> Result<(), AllocError> {
    let (upper, lower) = match group.unwrap_or(0) / COLOURS % 3 {
        0 => return Ok(()),
        1 => (y, y),
        _ => (y.saturating_sub(2), y.saturating_add(2)),
    };
    write!(
        text,
        "<path stroke=\"#FFF\" stroke-width=\"2\" d=\"M{x} {upper}h{length}M{x} {lower}h{length}\"/>"
    )
}

pub(crate) fn push_swatch(
    text: &mut String,
    group: Option<u8>,
    x: u32,
    y: u32,
) -> Result<(), AllocError> {
    let colour = colour_of(group);
    write!(
        text,
        "<path stroke=\"{colour}\" stroke-width=\"10\" d=\"M{x} {y}h24\"/>"
    )?;
    push_lines(text, group, x, y, 24)
}
