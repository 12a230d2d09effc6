// A moment by the calendar, in universal time.
#![tactic(auto)]

ghost use Rattle.std.specs.Prelude.{ℕ, ◌+◌, ◌^◌, ◌<◌, ◌≤◌};

use std::fmt;

const DAY: u128 = 86_400;

// The days of 400 years, after which the calendar repeats, and the years that are added to count from zero up.
const CYCLE_DAYS: u64 = 146_097;

const CYCLE: u64 = 400;

const ADDED_YEARS: u64 = 292_277_024_800;

// The seconds from the beginning of the added years to the least moment, 2^63 seconds before 1970.
const BEFORE_LEAST: u128 = 5_461_633_792;

// The days from the first of March of the year 0 to the first of January 1970.
const MARCH_0_TO_1970: u64 = 719_468;

// A day: the year counts from the beginning of the added years.
#[derive(Clone, Copy, Debug, PartialEq, Eq, PartialOrd, Ord, Hash)]
struct Date {
    year: u64,
    month: u64,
    day: u64,
}

// A moment by the calendar, the earlier before the later.
#[derive(Clone, Copy, Debug, PartialEq, Eq, PartialOrd, Ord, Hash)]
pub struct Moment {
    date: Date,
    second: u64,
}

// The date of a day that is counted from the beginning of the added years. Years are taken from March to February, so
// that the leap day is the last of its year.
fn date_of(days: u64) -> Date
    requires { days < 2 ^ 50 }
{
    let since = days + MARCH_0_TO_1970;
    let in_cycle = since % CYCLE_DAYS;
    let leaps = in_cycle / 1_460 - in_cycle / 36_524 + in_cycle / 146_096;
    let year = (in_cycle - leaps) / 365;
    let in_year = in_cycle - (365 * year + year / 4 - year / 100);
    let from_march = (5 * in_year + 2) / 153;
    let day = in_year - (153 * from_march + 2) / 5 + 1;
    let month = if from_march < 10 {
        from_march + 3
    } else {
        from_march - 9
    };
    let whole = since / CYCLE_DAYS * CYCLE + year;
    Date {
        year: if month <= 2 { whole + 1 } else { whole },
        month,
        day,
    }
}

// The moment of so many seconds after the least one.
fn after_least(seconds: u64) -> Moment {
    let all = u128::from(seconds) + BEFORE_LEAST;
    Moment {
        date: date_of((all / DAY) as u64),
        second: (all % DAY) as u64,
    }
}

// The moment of so many seconds after the beginning of 1970.
pub fn at(seconds: i64) -> Moment {
    after_least(seconds.abs_diff(i64::MIN))
}

impl fmt::Display for Moment {
    fn fmt<W: fmt::Write>(&self, f: &mut fmt::Formatter<W>) -> fmt::Result {
        let Date { year, month, day } = self.date;
        if year < ADDED_YEARS {
            let before = ADDED_YEARS - year;
            write!(f, "-{before:04}")?;
        } else {
            let after = year - ADDED_YEARS;
            write!(f, "{after:04}")?;
        }
        let hour = self.second / 3_600;
        let minute = self.second / 60 % 60;
        let second = self.second % 60;
        write!(f, "-{month:02}-{day:02}T{hour:02}:{minute:02}:{second:02}Z")
    }
}

#[cfg(test)]
mod tests {
    use super::*;
    use std::process::Abort;
    use std::test::Fail;

    fn shown(rt: &(impl Abort + AllocGlobal), seconds: i64, text: &str) -> Result<(), Fail> {
        let moment = at(seconds);
        let shown = format!(in rt.alloc(); "{moment}")?;
        assert_eq!(rt; shown.as_str(), text);
        Ok(())
    }

    #[test]
    fn dates(rt: HostRuntime) -> Result<(), Fail> {
        shown(&rt, 0, "1970-01-01T00:00:00Z")?;
        shown(&rt, -1, "1969-12-31T23:59:59Z")?;
        shown(&rt, 1_794_873_600, "2026-11-17T00:00:00Z")?;
        shown(&rt, 951_782_399, "2000-02-28T23:59:59Z")?;
        shown(&rt, 951_782_400, "2000-02-29T00:00:00Z")?;
        shown(&rt, 951_868_800, "2000-03-01T00:00:00Z")?;
        shown(&rt, 4_107_542_399, "2100-02-28T23:59:59Z")?;
        shown(&rt, 4_107_542_400, "2100-03-01T00:00:00Z")?;
        shown(&rt, 1_735_689_599, "2024-12-31T23:59:59Z")?;
        shown(&rt, -62_167_219_200, "0000-01-01T00:00:00Z")?;
        shown(&rt, -62_167_219_201, "-0001-12-31T23:59:59Z")?;
        shown(&rt, i64::MAX, "292277026596-12-04T15:30:07Z")?;
        shown(&rt, i64::MIN, "-292277022657-01-27T08:29:52Z")
    }
}
