ghost use Rattle.std.specs.Prelude.{◌≡◌, ◌<◌, ◌≤◌, ◌↔◌, IsTrue, Contains};
ghost use Rattle.std.specs.List.{list_all};
ghost use Rattle.cs_windows.specs.Entries.{lists};

use crate::window::{Window, touches};
use cs_civil::{MINUTES_OF_DAY, Sequence};

/// The name of a window in a leaf.
#[derive(Clone, Copy, PartialEq, Eq, Hash)]
pub struct Entry {
    /// The window's job.
    pub job: u16,
    /// How many days before the day looked at the window begins.
    pub day_back: u8,
    /// The minute of that day at which it begins.
    pub from: u16,
}

/// A tree over a range of minutes of a day; the whole tree is over `[0, 1440)`.
///
/// A split over `[lo, hi)` has halves over `[lo, at)` and `[at, hi)`. It is inside its range if `lo
/// < at < hi`. Other splits are possible; each method says what they mean.
#[derive(Drop)]
pub enum MinuteTree {
    /// The windows listed for each minute of the range.
    Leaf(Sequence<Entry>),

    /// Two halves.
    Split {
        at: u16,
        before: Box<MinuteTree>,
        after: Box<MinuteTree>,
    },
}

/// A leaf, borrowed, with its range `[lo, hi)` in minutes of the day.
#[derive(Clone, Copy)]
pub struct LeafAt<'a> {
    /// The first minute of the range.
    pub lo: u16,
    /// The end of the range.
    pub hi: u16,
    /// The windows listed.
    pub entries: &'a [Entry],
}

impl Entry {
    ghost use Rattle.cs_windows.specs.Entries.{names};

    fn names(&self, window: &Window) -> bool
        ensures { result ≡ names self.now window.now }
    {
        self.job == window.job && self.day_back == window.day_back && self.from == window.from
    }
}

/// Checks whether an entry names the window.
pub fn lists(entries: &[Entry], window: &Window) -> bool
    ensures { result ≡ lists entries.now window.now }
{
    entries.iter().any(|entry| entry.names(window))
}

/// The entry at this place is looked at first.
fn lists_at(entries: &[Entry], window: &Window, place: usize) -> bool
    ensures { result ≡ lists entries.now window.now }
{
    if let Some(entry) = entries.get(place) {
        if entry.names(window) {
            return true;
        }
    }
    lists(entries, window)
}

impl MinuteTree {
    ghost use Rattle.cs_windows.specs.Tree.{IsComplete, SplitsInside, covers, entries_at, leaf_over, leaves, keeps_to, tree_of};

    /// Checks whether each split is inside its range.
    pub fn splits_inside(&self) -> bool
        ensures { IsTrue result ↔ SplitsInside (tree_of self.now) 0 MINUTES_OF_DAY }
    {
        self.is_inside(0, MINUTES_OF_DAY)
    }

    fn is_inside(&self, lo: u16, hi: u16) -> bool
        ensures { IsTrue result ↔ SplitsInside (tree_of self.now) lo hi }
    {
        match self {
            MinuteTree::Leaf(_) => true,
            MinuteTree::Split { at, before, after } => {
                lo < *at && *at < hi && before.is_inside(lo, *at) && after.is_inside(*at, hi)
            }
        }
    }

    /// Returns the one leaf whose range holds the minute. Each split has to be inside its range.
    pub fn leaf_at(&self, minute: u16) -> LeafAt<'_>
        requires day { minute < MINUTES_OF_DAY }
        requires splits { SplitsInside (tree_of self.now) 0 MINUTES_OF_DAY }
        ensures from { result.lo ≤ minute }
        ensures to { minute < result.hi }
        ensures leaf { Contains (leaves (tree_of self.now) 0 MINUTES_OF_DAY)
            (leaf_over result.lo result.hi result.entries.now) }
        ensures entries { result.entries.now ≡ entries_at (tree_of self.now) minute }
    {
        let mut lo = 0;
        let mut hi = MINUTES_OF_DAY;
        let mut tree = self;
        loop {
            match tree {
                MinuteTree::Leaf(entries) => {
                    return LeafAt {
                        lo,
                        hi,
                        entries: entries.as_slice(),
                    };
                }
                MinuteTree::Split { at, before, after } => {
                    if minute < *at {
                        hi = *at;
                        tree = before;
                    } else {
                        lo = *at;
                        tree = after;
                    }
                }
            }
        }
    }

    /// Whether each leaf of a tree over `[lo, hi)` lists the window if it touches the leaf's range.
    /// `inside` says that each split is inside its range, so that a window touches no leaf unless
    /// it touches the whole range. A leaf looks at its entry at `place` first.
    fn keeps(&self, window: &Window, place: usize, lo: u16, hi: u16, inside: bool) -> bool
        requires { IsTrue inside → SplitsInside (tree_of self.now) lo hi }
        ensures { result
            ≡ list_all (λ leaf. keeps_to leaf window.now) (leaves (tree_of self.now) lo hi) }
    {
        if inside && !touches(window, lo, hi) {
            return true;
        }
        match self {
            MinuteTree::Leaf(entries) => {
                !touches(window, lo, hi) || lists_at(entries.as_slice(), window, place)
            }
            MinuteTree::Split { at, before, after } => {
                before.keeps(window, place, lo, *at, inside)
                    && after.keeps(window, place, *at, hi, inside)
            }
        }
    }

    /// `inside` is as in `keeps`. A leaf of the whole day whose entries are in the order of the
    /// windows is gone through once.
    fn keeps_all(&self, windows: &[Window], inside: bool) -> bool
        requires { IsTrue inside → SplitsInside (tree_of self.now) 0 MINUTES_OF_DAY }
        ensures { result ≡ covers (tree_of self.now) windows.now }
    {
        for (place, window) in windows.iter().enumerate() {
            if !self.keeps(window, place, 0, MINUTES_OF_DAY, inside) {
                return false;
            }
        }
        true
    }

    /// Checks whether each leaf lists every given window that touches its range.
    ///
    /// If each split is inside its range, this is whether the leaf of each minute lists every given
    /// window that holds the minute. The halves of any other split are over `[lo, at)` and `[at,
    /// hi)` too, and no window touches an empty range.
    pub fn covers(&self, windows: &[Window]) -> bool
        ensures value { result ≡ covers (tree_of self.now) windows.now }

        ensures complete { SplitsInside (tree_of self.now) 0 MINUTES_OF_DAY
            → (IsTrue result ↔ IsComplete (tree_of self.now) windows.now) }
    {
        self.keeps_all(windows, self.splits_inside())
    }
}
