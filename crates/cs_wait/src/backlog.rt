ghost use Rattle.std.specs.Prelude.{◌≡◌, ◌≤◌, ◌<◌, ◌+◌, ◌-◌, ◌↔◌, ℕ, All, List, [], IsTrue, IsOk, IfOk, drop, fold, length, slice_index, take};
ghost use Rattle.cs_wait.specs.Bounds.{IsBacklog, IsBacklogFrom, at, decided};
ghost use Rattle.cs_wait.specs.declared.backlog.Piece.{Piece};

use cs_civil::MINUTES_OF_DAY;
use std::alloc::Global;
use std::marker::Model;

/// The greatest value of a piece, in minutes of runs.
pub const MAX_BACKLOG: u32 = 1_000_000;

/// A part of a backlog: from `minute` on, the bound is `value`, less one for each minute since.
#[derive(Clone, Copy, PartialEq, Eq)]
pub struct Piece {
    /// The minute of the day, below 1,440.
    pub minute: u16,
    /// In minutes of runs, from 1 to [`MAX_BACKLOG`].
    pub value: u32,
}

/// A bound for each minute of a day on the minutes of runs that wait for a group's lock or hold it.
#[derive(Drop)]
pub struct Backlog {
    list: Vec<Piece>,
}

impl Model for Backlog {
    ghost Value = { List Piece };

    ghost view = { λ b. b.list.items };

    ghost invariant = { λ b. IsBacklog b.list.items };
}

/// The pieces make no backlog: their minutes don't rise strictly below 1,440, or a value isn't from
/// 1 to 1,000,000.
#[derive(Clone, Copy, PartialEq, Eq)]
pub struct BadPiece;

impl Backlog {
    /// Returns the backlog of these pieces, without allocating. Without pieces the bound is 0
    /// everywhere.
    ///
    /// The error comes if and only if the minutes don't rise strictly below 1,440, or a value isn't
    /// from 1 to 1,000,000 (this profile).
    pub fn new(list: Vec<Piece>) -> Result<Backlog, BadPiece>
        ensures value { IfOk result (λ b. b ≡ list.items) }
        ensures ok { IsOk result ↔ IsBacklog list.items }
    {
        if is_backlog(list.as_slice()) {
            Ok(Backlog { list })
        } else {
            Err(BadPiece)
        }
    }

    /// Returns the backlog without pieces, whose bound is 0 everywhere, without allocating.
    pub fn none(alloc: Global) -> Backlog
        ensures { result ≡ [] }
    {
        Backlog {
            list: Vec::new(alloc),
        }
    }

    pub(crate) fn of_pieces(list: Vec<Piece>) -> Backlog
        requires { IsBacklog list.items }
        ensures { result ≡ list.items }
    {
        Backlog { list }
    }

    /// Returns the pieces, in order.
    pub fn pieces(&self) -> &[Piece]
        ensures value { result.now ≡ self.now }
        ensures backlog { IsBacklog result.now }
    {
        self.list.as_slice()
    }

    /// Returns the bound at a minute of the day: 0 before the first piece, then the value of the
    /// latest piece, less one for each minute since, at least 0. A minute past the day counts on
    /// from the last piece.
    pub fn at(&self, minute: u16) -> u32
        ensures { result ≡ at self.now minute }
    {
        at_minute(self.list.as_slice(), minute)
    }
}

/// A walk over a day's pieces: the next one's index, and the bound if none begins at the minute.
#[derive(Clone, Copy)]
pub(crate) struct Walk {
    pub(crate) place: usize,
    pub(crate) bound: u32,
}

/// The walk past the piece that begins at the minute, if one does. Its bound is the minute's.
pub(crate) fn turn(list: &[Piece], walk: Walk, minute: u16) -> Walk
    requires { IsBacklogFrom minute (drop walk.place list.now) }
    ensures left { IsBacklogFrom (minute + 1) (drop result.place list.now) }
    ensures same { (t : ℕ) → minute ≤ t
        → fold (decided t) (result.bound - (t - minute)) (drop result.place list.now)
        ≡ fold (decided t) (walk.bound - (t - minute)) (drop walk.place list.now) }
{
    if walk.place < list.len() && list[walk.place].minute == minute {
        return Walk {
            place: walk.place + 1,
            bound: list[walk.place].value,
        };
    }
    walk
}

/// The minute before the next piece, or without one the last but one of the day.
pub(crate) fn last_fall(list: &[Piece], walk: Walk, minute: u16) -> u16
    requires early { minute + 1 < MINUTES_OF_DAY }
    requires left { IsBacklogFrom (minute + 1) (drop walk.place list.now) }
    ensures within { (minute ≤ result) × (result + 1 < MINUTES_OF_DAY) }
    ensures left { IsBacklogFrom (result + 1) (drop walk.place list.now) }
{
    match list.get(walk.place) {
        Some(piece) => piece.minute - 1,
        None => MINUTES_OF_DAY - 2,
    }
}

fn is_backlog(list: &[Piece]) -> bool
    ensures { IsTrue result ↔ IsBacklog list.now }
{
    let mut least = 0;
    for piece in list {
        if piece.minute < least
            || piece.minute >= MINUTES_OF_DAY
            || piece.value == 0
            || piece.value > MAX_BACKLOG
        {
            return false;
        }
        least = piece.minute + 1;
    }
    true
}

fn begun_by(list: &[Piece], minute: u16) -> usize
    requires { IsBacklog list.now }
    ensures begun { All (λ piece. piece.minute ≤ minute) (take result list.now) }
    ensures within { result ≤ length list.now }
    ensures same { at (take result list.now) minute ≡ at list.now minute }
{
    list.partition_point(|piece| piece.minute <= minute)
}

fn at_minute(list: &[Piece], minute: u16) -> u32
    requires { IsBacklog list.now }
    ensures { result ≡ at list.now minute }
{
    match list[..begun_by(list, minute)].last() {
        Some(piece) => piece.value.saturating_sub(u32::from(minute - piece.minute)),
        None => 0,
    }
}
