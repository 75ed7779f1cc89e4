use crate::kinds::{Classed, NUMBERS, Numbers, number_in};
use cs_civil::DayKind;
use cs_daytree::KindPart;
use std::alloc::{AllocError, Global};

/// The places of kinds among those that are alike in one part are below this.
const PLACES: usize = 404;

/// Numbers of a part whose kinds have the same classes where the other two parts are the same. A
/// number agrees with any if no day has its kind.
#[derive(Drop)]
struct Group {
    numbers: Numbers,
    classes: Vec<Option<u16>>,
}

/// The place of a kind among those that have the same number in the part.
fn place_in(kind: DayKind, part: KindPart) -> usize {
    let month = usize::from(kind.month());
    let day = usize::from(kind.dom());
    let weekday = usize::from(kind.dow());
    match part {
        KindPart::Month => 7 * day + weekday,
        KindPart::Day => 7 * month + weekday,
        KindPart::Weekday => 31 * month + day,
    }
}

impl Group {
    /// Whether each of these kinds has the class that the group has at its place, if it has one
    /// there.
    fn agrees(&self, part: KindPart, kinds: &[Classed]) -> bool {
        for classed in kinds {
            if let Some(Some(class)) = self.classes.get(place_in(classed.kind, part)) {
                if *class != classed.class {
                    return false;
                }
            }
        }
        true
    }

    fn take(&mut self, number: u8, part: KindPart, kinds: &[Classed]) {
        self.numbers = self.numbers.with(number);
        for classed in kinds {
            if let Some(class) = self.classes.get_mut(place_in(classed.kind, part)) {
                *class = Some(classed.class);
            }
        }
    }
}

/// Takes a number into the first group that agrees, or into one of its own.
fn take_in(
    alloc: Global,
    groups: &mut Vec<Group>,
    number: u8,
    part: KindPart,
    kinds: &[Classed],
) -> Result<(), AllocError> {
    for group in groups.iter_mut() {
        if group.agrees(part, kinds) {
            group.take(number, part, kinds);
            return Ok(());
        }
    }
    let mut group = Group {
        numbers: Numbers::none(),
        classes: Vec::from_elem(alloc, None, PLACES)?,
    };
    group.take(number, part, kinds);
    groups.push(group)?;
    Ok(())
}

fn by_number(
    alloc: Global,
    kinds: &[Classed],
    part: KindPart,
) -> Result<Vec<Vec<Classed>>, AllocError> {
    let mut by_number: Vec<Vec<Classed>> = Vec::new(alloc);
    for _ in 0..NUMBERS {
        by_number.push(Vec::new(alloc))?;
    }
    for classed in kinds {
        if let Some(having) = by_number.get_mut(usize::from(number_in(classed.kind, part))) {
            having.push(*classed)?;
        }
    }
    Ok(by_number)
}

/// The possible numbers of a part of these kinds, in groups that needn't be told apart. If each
/// part has only one group, all kinds have one class.
pub(crate) fn groups_of(
    alloc: Global,
    kinds: &[Classed],
    part: KindPart,
    possible: Numbers,
) -> Result<Vec<Numbers>, AllocError> {
    let mut groups: Vec<Group> = Vec::new(alloc);
    let by_number = by_number(alloc, kinds, part)?;
    for (number, having) in (0..NUMBERS).zip(by_number.as_slice()) {
        if possible.has(number) {
            take_in(alloc, &mut groups, number, part, having)?;
        }
    }
    let mut numbers = Vec::with_capacity(alloc, groups.len())?;
    for group in groups.as_slice() {
        numbers.push(group.numbers)?;
    }
    Ok(numbers)
}
