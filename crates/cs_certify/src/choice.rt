use crate::grouping::groups_of;
use crate::kinds::{Classed, NUMBERS, Numbers, Possible, number_in};
use cs_daytree::KindPart;
use std::alloc::{AllocError, Global};

/// With at most this many splits left, the numbers of a part are halved. Then 4 splits on months, 5
/// on days and 3 on weekdays leave one kind, so that a tree is never too deep.
const HALVING_SPLITS: u8 = 12;

/// If there are more groups than this, none is tried alone.
const MOST_GROUPS: usize = 16;

/// How good a split is; the lesser rank is better. First the number of classes inside and outside
/// together, since the fewer there are, the fewer stand on both sides. Then the number of classes
/// on the side that has more of them, and then how many numbers the split lists.
type Rank = (u32, u32, u32);

/// A split: the kinds that have one of these numbers in the part go inside.
#[derive(Clone, Copy)]
pub(crate) struct Choice {
    pub(crate) part: KindPart,
    pub(crate) numbers: Numbers,
    rank: Rank,
}

/// Finds out which numbers of a part kinds of each class have.
#[derive(Drop)]
pub(crate) struct Tally {
    /// By class; none in between.
    numbers_of: Vec<Numbers>,
}

impl Tally {
    pub(crate) fn new(alloc: Global, class_of: &[u16]) -> Result<Tally, AllocError> {
        let mut greatest: u16 = 0;
        for class in class_of {
            greatest = greatest.max(*class);
        }
        let count = usize::from(greatest).saturating_add(1);
        Ok(Tally {
            numbers_of: Vec::from_elem(alloc, Numbers::none(), count)?,
        })
    }

    /// For each class of these kinds, the numbers of the part that its kinds have.
    fn by_class(
        &mut self,
        alloc: Global,
        kinds: &[Classed],
        part: KindPart,
    ) -> Result<Vec<Numbers>, AllocError> {
        for classed in kinds {
            if let Some(numbers) = self.numbers_of.get_mut(usize::from(classed.class)) {
                *numbers = numbers.with(number_in(classed.kind, part));
            }
        }
        let mut by_class = Vec::new(alloc);
        for classed in kinds {
            if let Some(numbers) = self.numbers_of.get_mut(usize::from(classed.class)) {
                if numbers.meets(*numbers) {
                    by_class.push(*numbers)?;
                    *numbers = Numbers::none();
                }
            }
        }
        Ok(by_class)
    }
}

impl Choice {
    fn of(by_class: &[Numbers], part: KindPart, numbers: Numbers) -> Choice {
        let mut within: u32 = 0;
        let mut without: u32 = 0;
        for own in by_class {
            within = within.saturating_add(u32::from(own.meets(numbers)));
            without = without.saturating_add(u32::from(own.without(numbers).meets(*own)));
        }
        let classes = within.saturating_add(without);
        Choice {
            part,
            numbers,
            rank: (classes, within.max(without), numbers.count()),
        }
    }
}

fn half_of(numbers: Numbers) -> Numbers {
    let mut half = Numbers::none();
    for number in 0..NUMBERS {
        if numbers.has(number) && half.count() < numbers.count() / 2 {
            half = half.with(number);
        }
    }
    half
}

/// The numbers, or the other possible ones if those are fewer.
fn fewer(numbers: Numbers, possible: Numbers) -> Numbers {
    let others = possible.without(numbers);
    if others.count() < numbers.count() {
        others
    } else {
        numbers
    }
}

/// The sets of numbers of a part that a split of these kinds may list, with this many splits left.
/// There is none if the numbers needn't be told apart.
fn candidates(
    alloc: Global,
    kinds: &[Classed],
    part: KindPart,
    possible: Numbers,
    splits: u8,
) -> Result<Vec<Numbers>, AllocError> {
    let mut found = groups_of(alloc, kinds, part, possible)?;
    if found.len() < 2 {
        found.clear();
        return Ok(found);
    }
    if splits <= HALVING_SPLITS {
        found.clear();
        found.push(half_of(possible))?;
        return Ok(found);
    }
    let mut half = Numbers::none();
    for group in found.iter().take(found.len() / 2) {
        half = half.with_all(*group);
    }
    if found.len() > MOST_GROUPS {
        found.clear();
    }
    found.push(half)?;
    Ok(found)
}

/// The best split of these kinds among the possible numbers, with this many splits left. `None` if
/// they have one class.
pub(crate) fn best_choice(
    alloc: Global,
    tally: &mut Tally,
    kinds: &[Classed],
    possible: Possible,
    splits: u8,
) -> Result<Option<Choice>, AllocError> {
    let mut best: Option<Choice> = None;
    for part in [KindPart::Month, KindPart::Day, KindPart::Weekday] {
        let all = possible.of(part);
        let candidates = candidates(alloc, kinds, part, all, splits)?;
        let by_class = tally.by_class(alloc, kinds, part)?;
        for numbers in candidates.as_slice() {
            let choice = Choice::of(&by_class, part, fewer(*numbers, all));
            let is_better = match best {
                Some(known) => choice.rank < known.rank,
                None => true,
            };
            if is_better {
                best = Some(choice);
            }
        }
    }
    Ok(best)
}
