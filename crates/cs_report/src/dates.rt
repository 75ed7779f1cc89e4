ghost use Rattle.std.specs.Prelude.{◌≡◌};
ghost use Rattle.cs_report.specs.Dates.{minute_of, day_of};

use cs_civil::{Day, Minute, read_day, read_minute};

pub(crate) fn minute_of(text: &[u8]) -> Option<Minute>
    ensures { result ≡ minute_of text.now }
{
    read_minute(text).ok()
}

pub(crate) fn day_of(text: &[u8]) -> Option<Day>
    ensures { result ≡ day_of text.now }
{
    read_day(text).ok()
}
