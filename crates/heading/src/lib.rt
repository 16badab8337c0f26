// The heading of a day file: an `H` line and as many `S` lines as it says are read, and the day is opened with them.
#![tactic(auto)]

ghost use Rattle.std.specs.Prelude.{◌≡◌, ◌≤◌, length};
ghost use Rattle.market.specs.Answers.{numbers_of};
ghost use Rattle.heading.specs.Heading.{ReadsHeading, ReadsLines, ReadsSecurities, WrongHeading, max_text};

use lines::Line;
use market::{Answer, MAX_SECURITIES, Outcome, Refusal, Rules, Security};
use opening::refused_opening;
use reading::command_at;

// A malformed line, or one out of its place.
pub const MALFORMED: u64 = Refusal::Malformed as u64;

// The `S` lines of a heading, and the place where the text goes on.
#[derive(Clone, Copy)]
pub struct Securities {
    pub table: [Security; 16],
    pub next: usize,
}

// A heading: its answer and the line that it stands on, and the line and place where the text goes on.
#[derive(Clone, Copy)]
pub struct Headed {
    pub outcome: Outcome,
    pub line: u64,
    pub next: u64,
    pub at: usize,
}

// The lines of n securities, or the line of the first fault; more than 16 keep their form, and the opening refuses them.
#[tactic(auto, using(crate::proofs::SecurityLines::security_lines))]
fn securities_at(text: &[u8], from: usize, n: u64) -> Result<Securities, u64>
    requires { length text.now ≤ max_text }
    ensures { ReadsSecurities text.now from n result }
{
    let none = Security {
        currency: 0,
        lot: 0,
        step: 0,
        nominal: 0,
    };
    let mut table = [none; 16];
    let mut next = from;
    for i in 0..n {
        if text.len() <= next {
            return Err(i + 2);
        }
        let reading = command_at(text, next);
        let Line::Security(currency, lot, step) = reading.says else {
            return Err(i + 2);
        };
        if i < MAX_SECURITIES {
            table[i as usize] = Security {
                currency,
                lot,
                step,
                nominal: 0,
            };
        }
        next = reading.next;
    }
    Ok(Securities { table, next })
}

// A heading whose first fault stands on this line.
pub fn wrong_heading(line: u64) -> Headed
    ensures { WrongHeading line result }
{
    Headed {
        outcome: refused_opening(MALFORMED, 0),
        line,
        next: 0,
        at: 0,
    }
}

// The place of a refusal; 0 where the call is accepted, as `numbers_of` says.
pub fn place_of(answer: Answer) -> u64
    ensures { result ≡ (numbers_of answer).place }
{
    match answer {
        Answer::Refused(_, place) => place,
        _ => 0,
    }
}

// The heading whose `H` line says this, with its `S` lines from here on, and the day that it opens. A day file has no rate and no date.
fn opened_with(
    text: &[u8],
    from: usize,
    participants: u64,
    currencies: u64,
    securities: u64,
) -> Headed
    requires { length text.now ≤ max_text }
    ensures { ReadsLines text.now from participants currencies securities result }
{
    let lines = match securities_at(text, from, securities) {
        Ok(lines) => lines,
        Err(line) => return wrong_heading(line),
    };
    let table = lines.table;
    let outcome = opening::opening(
        Rules {
            participants,
            currencies,
            securities,
            table,
            rate: 0,
        },
        0,
    );
    Headed {
        outcome,
        line: place_of(outcome.answer) + 1,
        next: securities + 2,
        at: lines.next,
    }
}

// The heading of a day file, with the day that it opens.
pub fn heading_of(text: &[u8]) -> Headed
    requires { length text.now ≤ max_text }
    ensures { ReadsHeading text.now result }
{
    let reading = command_at(text, 0);
    let Line::Heading(participants, currencies, securities) = reading.says else {
        return wrong_heading(1);
    };
    opened_with(text, reading.next, participants, currencies, securities)
}
