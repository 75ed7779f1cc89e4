//! The length of a certificate's text, without making it.
use crate::certificate::Certificate;
use crate::class::{Class, DueList, GroupBacklog};
use crate::stretch::Stretch;
use cs_daytree::{DayTree, KindPart};
use cs_wait::Piece;
use cs_windows::{Entry, JobReach, MinuteTree};

/// Something that a certificate's text lists.
trait Listed {
    /// The bytes of its text.
    fn text(&self) -> u64;
}

fn total(lengths: &[u64]) -> u64 {
    let mut total: u64 = 0;
    for length in lengths {
        total = total.saturating_add(*length);
    }
    total
}

/// The brackets around a list of this length, and the commas between its items.
fn brackets(items: usize) -> u64 {
    (items.max(1) as u64).saturating_add(1)
}

fn list<T: Listed>(items: &[T]) -> u64 {
    let mut text = brackets(items.len());
    for item in items {
        text = text.saturating_add(item.text());
    }
    text
}

/// The digits of a number, of which a certificate's have at most 7.
fn digits(number: u32) -> u64 {
    match number {
        0..=9 => 1,
        10..=99 => 2,
        100..=999 => 3,
        1_000..=9_999 => 4,
        10_000..=99_999 => 5,
        100_000..=999_999 => 6,
        _ => 7,
    }
}

impl Listed for u8 {
    fn text(&self) -> u64 {
        digits(u32::from(*self))
    }
}

impl Listed for u16 {
    fn text(&self) -> u64 {
        digits(u32::from(*self))
    }
}

impl Listed for u32 {
    fn text(&self) -> u64 {
        digits(*self)
    }
}

/// `[job,day_back,from]`.
impl Listed for Entry {
    fn text(&self) -> u64 {
        total(&[4, self.job.text(), self.day_back.text(), self.from.text()])
    }
}

/// `[job,reach]`.
impl Listed for JobReach {
    fn text(&self) -> u64 {
        total(&[3, self.job.text(), self.reach.text()])
    }
}

/// `[minute,value]`.
impl Listed for Piece {
    fn text(&self) -> u64 {
        total(&[3, self.minute.text(), self.value.text()])
    }
}

/// `[job,[minutes]]`.
impl Listed for DueList {
    fn text(&self) -> u64 {
        total(&[3, self.job.text(), list(self.minutes.as_slice())])
    }
}

/// `[group,[pieces]]`.
impl Listed for GroupBacklog {
    fn text(&self) -> u64 {
        total(&[3, self.group.text(), list(self.backlog.pieces())])
    }
}

/// `{"backlog":[..],"due":[..]}`.
impl Listed for Class {
    fn text(&self) -> u64 {
        total(&[19, list(self.backlog.as_slice()), list(self.due.as_slice())])
    }
}

/// `{"of":[classes],"tree":..}`.
impl Listed for Stretch {
    fn text(&self) -> u64 {
        total(&[15, list(self.of.as_slice()), minute_tree(&self.tree)])
    }
}

/// `{"list":[entries]}`, or `{"after":..,"at":minute,"before":..}`.
fn minute_tree(tree: &MinuteTree) -> u64 {
    match tree {
        MinuteTree::Leaf(entries) => total(&[9, list(entries.as_slice())]),
        MinuteTree::Split { at, before, after } => {
            total(&[26, at.text(), minute_tree(before), minute_tree(after)])
        }
    }
}

/// The list of classes of version 3: of each `{"carry":[..]}`, with `[group,minutes]` for each
/// group.
fn compact_classes(classes: &[Class]) -> u64 {
    let mut text = brackets(classes.len());
    for class in classes {
        let carries = class.backlog.as_slice();
        text = total(&[text, 10, brackets(carries.len())]);
        for of in carries {
            if let Some(piece) = of.backlog.pieces().first() {
                text = total(&[text, 3, of.group.text(), piece.value.text()]);
            }
        }
    }
    text
}

fn part(part: KindPart) -> u64 {
    match part {
        KindPart::Month => 5,
        KindPart::Day => 3,
        KindPart::Weekday => 7,
    }
}

/// `{"class":number}`, or `{"in":[numbers],"no":..,"split":"part","yes":..}`.
fn day_tree(tree: &DayTree) -> u64 {
    match tree {
        DayTree::Leaf(class) => total(&[10, class.text()]),
        DayTree::Split {
            part: of,
            values,
            inside,
            outside,
        } => total(&[
            31,
            part(*of),
            list(values.as_slice()),
            day_tree(inside),
            day_tree(outside),
        ]),
    }
}

/// Returns the length of a certificate's text in bytes, or less. Whoever makes the text compares
/// its length with [`MAX_CERTIFICATE`](crate::MAX_CERTIFICATE).
pub fn least_text(certificate: &Certificate) -> u64 {
    let (names, classes, stretches) = match certificate.version() {
        1 => (
            51,
            list(certificate.classes()),
            list(certificate.stretches()),
        ),
        2 => (
            55,
            list(certificate.classes()),
            list(certificate.stretches()),
        ),
        _ => (42, compact_classes(certificate.classes()), 0),
    };
    total(&[
        names,
        classes,
        day_tree(certificate.kinds()),
        stretches,
        list(certificate.reach()),
    ])
}
