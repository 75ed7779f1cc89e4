//! Kinds of days with their classes, and the numbers that the splits above a tree leave for each
//! part of a kind.
use cs_civil::{DayKind, Sequence, all_kinds};
use cs_daytree::KindPart;
use std::alloc::{AllocError, Global};

/// No part of a kind has a number from this one on.
pub(crate) const NUMBERS: u8 = 32;

#[derive(Clone, Copy)]
pub(crate) struct Classed {
    pub(crate) kind: DayKind,
    pub(crate) class: u16,
}

pub(crate) fn all_classed(alloc: Global, class_of: &[u16]) -> Result<Vec<Classed>, AllocError> {
    let mut classed = Vec::with_capacity(alloc, class_of.len())?;
    for (kind, class) in all_kinds().zip(class_of) {
        classed.push(Classed {
            kind,
            class: *class,
        })?;
    }
    Ok(classed)
}

pub(crate) fn number_in(kind: DayKind, part: KindPart) -> u8 {
    match part {
        KindPart::Month => kind.month(),
        KindPart::Day => kind.dom(),
        KindPart::Weekday => kind.dow(),
    }
}

/// Numbers of one part, below 32, each as a bit.
#[derive(Clone, Copy)]
pub(crate) struct Numbers {
    bits: u32,
}

fn bit(number: u8) -> u32 {
    1u32.checked_shl(u32::from(number)).unwrap_or(0)
}

impl Numbers {
    pub(crate) fn none() -> Numbers {
        Numbers { bits: 0 }
    }

    pub(crate) fn count(self) -> u32 {
        self.bits.count_ones()
    }

    pub(crate) fn has(self, number: u8) -> bool {
        self.bits & bit(number) != 0
    }

    pub(crate) fn meets(self, others: Numbers) -> bool {
        self.bits & others.bits != 0
    }

    pub(crate) fn with(self, number: u8) -> Numbers {
        Numbers {
            bits: self.bits | bit(number),
        }
    }

    pub(crate) fn with_all(self, others: Numbers) -> Numbers {
        Numbers {
            bits: self.bits | others.bits,
        }
    }

    pub(crate) fn without(self, others: Numbers) -> Numbers {
        Numbers {
            bits: self.bits & !others.bits,
        }
    }

    pub(crate) fn rising(self, alloc: Global) -> Result<Sequence<u8>, AllocError> {
        let mut rising = Vec::new(alloc);
        for number in 0..NUMBERS {
            if self.has(number) {
                rising.push(number)?;
            }
        }
        Ok(Sequence::from_vec(rising))
    }
}

fn from_to(first: u8, last: u8) -> Numbers {
    let mut numbers = Numbers::none();
    for number in first..=last {
        numbers = numbers.with(number);
    }
    numbers
}

/// The numbers that the splits above leave for each part.
#[derive(Clone, Copy)]
pub(crate) struct Possible {
    months: Numbers,
    days: Numbers,
    weekdays: Numbers,
}

impl Possible {
    pub(crate) fn all() -> Possible {
        Possible {
            months: from_to(1, 12),
            days: from_to(1, 31),
            weekdays: from_to(0, 6),
        }
    }

    pub(crate) fn of(self, part: KindPart) -> Numbers {
        match part {
            KindPart::Month => self.months,
            KindPart::Day => self.days,
            KindPart::Weekday => self.weekdays,
        }
    }

    pub(crate) fn only(self, part: KindPart, numbers: Numbers) -> Possible {
        match part {
            KindPart::Month => Possible {
                months: numbers,
                ..self
            },
            KindPart::Day => Possible {
                days: numbers,
                ..self
            },
            KindPart::Weekday => Possible {
                weekdays: numbers,
                ..self
            },
        }
    }
}
