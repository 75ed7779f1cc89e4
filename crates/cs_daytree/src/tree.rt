ghost use Rattle.std.specs.Prelude.{◌≡◌, ◌≤◌, nat_le};
ghost use Rattle.cs_daytree.specs.Tree.{class_in, depth, greatest_class, has, number_of, tree_of};

use cs_civil::{DayKind, Sequence};

/// The part of a day's kind that a split looks at.
#[derive(Clone, Copy, PartialEq, Eq, Hash)]
pub enum KindPart {
    /// The month, from 1 to 12.
    Month,
    /// The day of the month, from 1 to 31.
    Day,
    /// The weekday, from 0 for Sunday to 6.
    Weekday,
}

/// A class for each kind of day.
///
/// A split looks at one part of the kind: `inside` decides the kinds whose number is among its
/// values, `outside` the others. Splits other than [`splits_fit`](DayTree::splits_fit) accepts can
/// be made; each method says what they mean.
#[derive(Drop)]
pub enum DayTree {
    /// The class of all kinds.
    Leaf(u32),

    /// Two halves.
    Split {
        part: KindPart,
        values: Sequence<u8>,
        inside: Box<DayTree>,
        outside: Box<DayTree>,
    },
}

impl KindPart {
    fn number_of(self, kind: DayKind) -> u8
        ensures { result ≡ number_of self kind }
    {
        match self {
            KindPart::Month => kind.month(),
            KindPart::Day => kind.dom(),
            KindPart::Weekday => kind.dow(),
        }
    }
}

pub(crate) fn has(values: &[u8], number: u8) -> bool
    ensures { result ≡ has values.now number }
{
    values.iter().any(|value| *value == number)
}

impl DayTree {
    /// Returns the class of a kind, by its half at each split, impossible splits included.
    pub fn class_of(&self, kind: DayKind) -> u32
        ensures value { result ≡ class_in (tree_of self.now) kind }
        ensures within { result ≤ greatest_class (tree_of self.now) }
    {
        match self {
            DayTree::Leaf(class) => *class,
            DayTree::Split {
                part,
                values,
                inside,
                outside,
            } => {
                if has(values.as_slice(), part.number_of(kind)) {
                    inside.class_of(kind)
                } else {
                    outside.class_of(kind)
                }
            }
        }
    }

    /// Returns the greatest class of a leaf.
    pub fn greatest_class(&self) -> u32
        ensures { result ≡ greatest_class (tree_of self.now) }
    {
        match self {
            DayTree::Leaf(class) => *class,
            DayTree::Split {
                part: _,
                values: _,
                inside,
                outside,
            } => inside.greatest_class().max(outside.greatest_class()),
        }
    }

    /// Checks whether the depth is at most the limit. It is 0 for a leaf, else one more than that
    /// of the deeper half.
    pub fn is_no_deeper_than(&self, limit: u8) -> bool
        ensures { result ≡ nat_le (depth (tree_of self.now)) limit }
    {
        match self {
            DayTree::Leaf(_) => true,
            DayTree::Split {
                part: _,
                values: _,
                inside,
                outside,
            } => {
                limit > 0
                    && inside.is_no_deeper_than(limit - 1)
                    && outside.is_no_deeper_than(limit - 1)
            }
        }
    }
}
