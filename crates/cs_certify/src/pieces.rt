use crate::gains::{Arrival, MINUTES_OF_DAY};
use cs_wait::Piece;
use std::alloc::{AllocError, Global};

/// Adds a piece from this minute of the day on, if the minute is one and something is left.
fn add_piece(pieces: &mut Vec<Piece>, minute: u32, value: u32) -> Result<(), AllocError> {
    if minute < MINUTES_OF_DAY && value > 0 {
        pieces.push(Piece {
            minute: u16::try_from(minute).unwrap_or(0),
            value,
        })?;
    }
    Ok(())
}

/// The bound on what waits or runs on a day at whose start `carry` was left: a piece wherever it
/// rises.
pub(crate) fn pieces(
    alloc: Global,
    arrivals: &[Arrival],
    carry: u32,
) -> Result<Vec<Piece>, AllocError> {
    let mut pieces = Vec::new(alloc);
    add_piece(&mut pieces, 0, carry)?;
    let mut free = carry;
    for arrival in arrivals {
        free = arrival.free_after(free);
        let next = arrival.minute.saturating_add(1);
        add_piece(&mut pieces, next, free.saturating_sub(next))?;
    }
    Ok(pieces)
}
