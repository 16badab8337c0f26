// The heading of a script: an `H` line and as many `S` lines as it says are read, and the day is opened with them. An `H` may
// end with a rate and a date and an `S` with a nominal; a day file has none of them.
ghost use Rattle.std.specs.Prelude.{◌<◌, ◌≤◌, length, IfOk, IfSome};
ghost use Rattle.heading.specs.Heading.{max_text};

use super::words::{LINE_END, numbers_from};
use heading::{Headed, Securities, place_of, wrong_heading};
use market::{MAX_SECURITIES, Security};

// Without the last numbers of a heading's line, which may be left out.
const MIN_NUMBERS: usize = 3;

const MAX_SECURITY_NUMBERS: usize = 4;

const MAX_HEADING_NUMBERS: usize = 5;

// A line of a heading: its numbers, 0 for one that is left out, and where the text goes on.
#[derive(Clone, Copy)]
struct HeadingLine {
    numbers: [u64; 5],
    next: usize,
}

// The line at a place of the text, which has to begin with this letter and has at most so many numbers; past the text's end
// there is none.
fn line_at(text: &[u8], at: usize, letter: u8, most: usize) -> Option<HeadingLine>
    ensures { IfSome result (λ l. (at < l.next) × (l.next ≤ length text.now)) }
{
    if text.len() <= at || text[at] != letter {
        return None;
    }
    let end = lines::find(text, at + 1, text.len(), LINE_END);
    let read = numbers_from(&text[at + 1..end], 0)?;
    if read.count < MIN_NUMBERS || most < read.count {
        return None;
    }
    let numbers = read.list;
    let next = if end < text.len() { end + 1 } else { end };
    Some(HeadingLine { numbers, next })
}

// The security that an `S` line says.
fn security_of(numbers: [u64; 5]) -> Security {
    let [currency, lot, step, nominal, _] = numbers;
    Security {
        currency,
        lot,
        step,
        nominal,
    }
}

// The lines of n securities, or the line of the first fault; more than 16 keep their form, and the opening refuses them.
// A day file's are other lines (`heading`), proved to be read; a shared loop would take the reader as a closure.
fn securities_at(text: &[u8], from: usize, n: u64) -> Result<Securities, u64>
    requires { length text.now ≤ max_text }
    ensures { IfOk result (λ s. n ≤ length text.now) }
{
    let mut table = [security_of([0; 5]); 16];
    let mut next = from;
    for i in 0..n {
        let Some(line) = line_at(text, next, b'S', MAX_SECURITY_NUMBERS) else {
            return Err(i + 2);
        };
        if i < MAX_SECURITIES {
            table[i as usize] = security_of(line.numbers);
        }
        next = line.next;
    }
    Ok(Securities { table, next })
}

// The heading of a script, with the day that it opens.
#[tactic(auto, using(heading::proofs::Heading::place_small))]
pub fn heading_of(text: &[u8]) -> Headed
    requires { length text.now ≤ max_text }
{
    let Some(line) = line_at(text, 0, b'H', MAX_HEADING_NUMBERS) else {
        return wrong_heading(1);
    };
    let [participants, currencies, securities, rate, date] = line.numbers;
    let lines = match securities_at(text, line.next, securities) {
        Ok(lines) => lines,
        Err(line) => return wrong_heading(line),
    };
    let table = lines.table;
    let outcome = engine::opening(participants, currencies, securities, table, rate, date);
    Headed {
        outcome,
        line: place_of(outcome.answer) + 1,
        next: securities + 2,
        at: lines.next,
    }
}
