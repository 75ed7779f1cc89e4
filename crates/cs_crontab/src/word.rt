ghost use Rattle.std.specs.Prelude.{◌≡◌, ◌≤◌};
ghost use Rattle.cs_schedule.specs.declared.part.Part.TheVariants as part;
ghost use Rattle.cs_schedule.specs.Part.{first_of};
ghost use Rattle.cs_schedule.specs.Times.{IsWithin, last_held};
ghost use Rattle.cs_crontab.specs.Format.{only, all, yearly, monthly, weekly, daily, hourly, times_of_word};

use cs_schedule::{Field, Numbers, Part, Schedule};

fn only(part: Part, number: u8) -> Field
    requires low { first_of part ≤ number }
    requires high { number ≤ last_held part }
    ensures value { result ≡ only number }
    ensures within { IsWithin part result.numbers }
{
    Field::new(false, Numbers::every(number, number, 1))
}

fn all(part: Part) -> Field
    ensures value { result ≡ all part }
    ensures within { IsWithin part result.numbers }
{
    let numbers = Numbers::every(part.first(), part.last(), 1);
    let numbers = match part {
        Part::Dow => numbers.in_week(),
        Part::Minute | Part::Hour | Part::Dom | Part::Month => numbers,
    };
    Field::new(true, numbers)
}

fn at_midnight(dom: Field, month: Field, dow: Field) -> Schedule
    requires dom { IsWithin part.Dom dom.numbers }
    requires month { IsWithin part.Month month.numbers }
    requires dow { IsWithin part.Dow dow.numbers }
    ensures { result
        ≡ record { minute = only 0; hour = only 0; dom = dom; month = month; dow = dow } }
{
    Schedule::new(only(Part::Minute, 0), only(Part::Hour, 0), dom, month, dow)
}

fn hourly() -> Schedule
    ensures { result ≡ hourly }
{
    Schedule::new(
        only(Part::Minute, 0),
        all(Part::Hour),
        all(Part::Dom),
        all(Part::Month),
        all(Part::Dow),
    )
}

/// `None` for `@reboot`, which has no schedule (crontab(5)).
pub(crate) fn word_schedule(word: &[u8]) -> Option<Schedule>
    ensures { result ≡ times_of_word word.now }
{
    let schedule = if word == b"yearly".as_slice() || word == b"annually".as_slice() {
        at_midnight(only(Part::Dom, 1), only(Part::Month, 1), all(Part::Dow))
    } else if word == b"monthly".as_slice() {
        at_midnight(only(Part::Dom, 1), all(Part::Month), all(Part::Dow))
    } else if word == b"weekly".as_slice() {
        at_midnight(all(Part::Dom), all(Part::Month), only(Part::Dow, 0))
    } else if word == b"daily".as_slice() || word == b"midnight".as_slice() {
        at_midnight(all(Part::Dom), all(Part::Month), all(Part::Dow))
    } else if word == b"hourly".as_slice() {
        hourly()
    } else {
        return None;
    };
    Some(schedule)
}
