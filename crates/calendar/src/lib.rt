// Dates (T-06): the year of a day, what the days of a term count, and the sum of a second part.
#![tactic(auto)]

mod table;

ghost use Rattle.std.specs.Prelude.{◌≡◌, ◌+◌, ◌<◌, ◌≤◌};
ghost use Rattle.market.specs.Limits.{last_day, max_first_sum, max_offer_rate, max_term};
ghost use Rattle.market.specs.Calendar.{day_count, first_day, second_sum, year_of, years};
ghost use Rattle.calendar.specs.Laws.{weight_of};

use amounts::nearest;
use market::LAST_DAY;
use table::FIRST_DAYS;

const YEARS: usize = 400;

const SHORT_YEAR: u64 = 365;

const LONG_YEAR: u64 = 366;

// 365 × 366 × 10,000: a rate is in hundredths of a percent a year.
const SECOND_UNIT: u64 = 1335900000;

// The first day of a year, 0 for 1970; after the table's last year comes the day after its last. A read of a constant array writes
// all of it out on the stack, here 400 numbers: a second sum takes six reads, and nothing searches the table.
fn first_day(year: usize) -> u64
    ensures { result ≡ first_day year }
{
    if year < YEARS {
        return FIRST_DAYS[year];
    }
    LAST_DAY + 1
}

// The year in which a day falls, 0 for 1970. Were all years long it would be day / 366. In 400 years the calendar gains less than
// one such year on that count, so it is that year or the next.
fn year_of(day: u64) -> usize
    requires { day ≤ last_day }
    ensures { result ≡ year_of day }
{
    let year = (day / LONG_YEAR) as usize;
    if day < first_day(year + 1) {
        return year;
    }
    year + 1
}

// What a day of this year counts: 366 in a year of 365 days, and 365 in one of 366.
fn weight(year: usize) -> u64
    requires { year < years }
    ensures { result ≡ weight_of year }
{
    if first_day(year + 1) - first_day(year) == LONG_YEAR {
        return SHORT_YEAR;
    }
    LONG_YEAR
}

// 366 × d1 + 365 × d2, over the days after the first, up to and with the due day. So many of them as have elapsed of the due day's
// year lie in that year, and the others, at most 365 days being counted, in the year before.
fn day_count(first: u64, term: u64) -> u64
    requires { (term ≤ max_term) × (first + term ≤ last_day) }
    ensures { result ≡ day_count first term }
{
    let due = first + term;
    let year = year_of(due);
    let elapsed = due + 1 - first_day(year);
    if term <= elapsed {
        return term * weight(year);
    }
    (term - elapsed) * weight(year - 1) + elapsed * weight(year)
}

// The sum of a second part. The product is at most 10^10 × 5,000 × 365 × 366, below 6.7 × 10^18.
pub fn second_sum(sum: u64, rate: u64, first: u64, term: u64) -> u64
    requires { (sum ≤ max_first_sum) × (rate ≤ max_offer_rate) × (term ≤ max_term) × (first + term ≤ last_day) }
    ensures { result ≡ second_sum sum rate first term }
{
    sum + nearest(sum * rate * day_count(first, term), SECOND_UNIT)
}
