// The reference time of a PDS, and refusal 6. All total.
#![tactic(auto)]

ghost use Rattle.std.specs.Prelude.{◌≡◌};
ghost use Rattle.rules.specs.Table.{any_of};
ghost use Rattle.rules.specs.Time.{the_year_of, leap, the_days_in, the_moment_at, moment_faults, time_faults};

use octets::octet;
use rules::Moment;

// Year = 100 × (century − 1) + year of century; century 0 counts as 1, and is refused.
#[tactic(auto, unfolding(rules::specs::Time::the_year_of))]
fn year_of(century: u8, year: u8) -> u16
    ensures { result ≡ the_year_of century year }
{
    100 * century.saturating_sub(1) as u16 + year as u16
}

// The Gregorian calendar's leap years.
#[tactic(auto, unfolding(rules::specs::Time::leap))]
fn is_leap(y: u16) -> bool
    ensures { result ≡ leap y }
{
    (y % 4 == 0) & ((y % 100 != 0) | (y % 400 == 0))
}

// The days of a month by the Gregorian calendar.
#[tactic(auto, unfolding(rules::specs::Time::the_days_in))]
fn days_in(y: u16, m: u8) -> u8
    ensures { result ≡ the_days_in y m }
{
    match m {
        2 => if is_leap(y) { 29 } else { 28 },
        4 | 6 | 9 | 11 => 30,
        _ => 31,
    }
}

// Refusal 6 of the six numbers. The year of century is 1 to 100: century 20 ends with 2000.
#[tactic(auto, unfolding(rules::specs::Table::any_of, rules::specs::Table::or_all, rules::specs::Time::moment_faults))]
fn moment_bad(century: u8, year: u8, month: u8, day: u8, hour: u8, minute: u8) -> bool
    ensures { result ≡ any_of (moment_faults century year month day hour minute) }
{
    ((century < 18) | (99 < century))
        | ((year < 1) | (100 < year))
        | ((month < 1) | (12 < month))
        | ((day < 1) | (days_in(year_of(century, year), month) < day))
        | (23 < hour)
        | (59 < minute)
}

// The time of the PDS at place p, whatever its octets are.
#[tactic(auto, unfolding(rules::specs::Time::the_moment_at))]
pub fn moment_at(s: &[u8], p: usize) -> Moment
    ensures { result ≡ the_moment_at s.now p }
{
    Moment {
        year: year_of(octet(s, p, 25), octet(s, p, 13)),
        month: octet(s, p, 14),
        day: octet(s, p, 15),
        hour: octet(s, p, 16),
        minute: octet(s, p, 17),
    }
}

// Refusal 6 of the PDS at place p.
#[tactic(auto, unfolding(rules::specs::Time::time_faults))]
pub fn time_bad(s: &[u8], p: usize) -> bool
    ensures { result ≡ any_of (time_faults s.now p) }
{
    moment_bad(
        octet(s, p, 25),
        octet(s, p, 13),
        octet(s, p, 14),
        octet(s, p, 15),
        octet(s, p, 16),
        octet(s, p, 17),
    )
}
