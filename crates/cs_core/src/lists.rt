ghost use Rattle.std.specs.Prelude.{◌≡◌, ◌==◌, not, filter, get_or, None};
ghost use Rattle.std.specs.List.{list_any};

use arrayvec::ArrayVec;
use cs_civil::Day;

pub(crate) fn has_job(jobs: &[u16], job: u16) -> bool
    ensures { result ≡ list_any (λ i. job == i) jobs.now }
{
    jobs.iter().any(|other| job == *other)
}

pub(crate) fn take_job(pending: &mut ArrayVec<u16, 256>, job: u16)
    ensures { pending.new.items ≡ filter (λ i. not (job == i)) pending.old.items }
{
    pending.retain(|other| !(job == *other));
}

pub(crate) fn stamp_at(stamps: &[Option<Day>], place: usize) -> Option<Day>
    ensures { result ≡ get_or stamps.now place None }
{
    match stamps.get(place) {
        Some(stamp) => *stamp,
        None => None,
    }
}
