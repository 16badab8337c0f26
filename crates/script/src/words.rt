// The words that a script has besides the letters of a day file.
ghost use Rattle.std.specs.Prelude.{◌<◌, ◌≤◌, length};

use lines::number;
use market::{Call, Dealing, Session, Side, Ticket};

const COMMA: u8 = b',';

pub const LINE_END: u8 = b'\n';

#[derive(Clone, Copy)]
pub enum Word {
    // From here on so many numbers are lent.
    Lend(u64),
    // The lines of the end are printed here.
    Show,
    // A call that a day file can't make.
    Call(Call),
    // An act on the records.
    Dealing(Dealing),
}

// No line of a script has more numbers in a row.
const MAX_NUMBERS: usize = 5;

// The numbers of a line, each behind a comma, and how many there are; 0 in the places after them. A count beside the places
// stands for a list that grows: there is no heap.
#[derive(Clone, Copy)]
pub struct Numbers {
    pub count: usize,
    pub list: [u64; 5],
}

// The numbers from `from` to the line's end, where nothing else stands there.
pub fn numbers_from(line: &[u8], from: usize) -> Option<Numbers>
    requires { from ≤ length line.now }
{
    let mut list = [0; 5];
    let mut count = 0;
    let mut at = from;
    // No range: each round goes on by a number, and numbers differ in length.
    while at < line.len() {
        if count == MAX_NUMBERS || line[at] != COMMA {
            return None;
        }
        let end = lines::find(line, at + 1, line.len(), COMMA);
        list[count] = number(&line[at + 1..end])?;
        count += 1;
        at = end;
    }
    Some(Numbers { count, list })
}

// An offer, with security, price, lots, rate and term.
fn offer(participant: u64, side: Side, numbers: [u64; 5]) -> Word {
    let [security, price, lots, rate, term] = numbers;
    let ticket = Ticket {
        side,
        security,
        price,
        lots,
    };
    Word::Dealing(Dealing::Offer(participant, ticket, rate, term))
}

// B or L.
fn side_of(letter: u8) -> Option<Side> {
    match letter {
        b'B' => Some(Side::Buy),
        b'L' => Some(Side::Sell),
        _ => None,
    }
}

// `OFFER,participant,side,security,price,lots,rate,term`, whose first field ends at `end`. The side is one byte: behind it
// stands the next comma.
fn offer_word(line: &[u8], end: usize) -> Option<Word>
    requires { end ≤ length line.now }
{
    if line.len() <= end {
        return None;
    }
    let at = lines::find(line, end + 1, line.len(), COMMA);
    let participant = number(&line[end + 1..at])?;
    if line.len() - at < 2 {
        return None;
    }
    let numbers = numbers_from(line, at + 2)?;
    if numbers.count != MAX_NUMBERS {
        return None;
    }
    let side = side_of(line[at + 1])?;
    Some(offer(participant, side, numbers.list))
}

// The word that has one number.
fn counted_word(word: &[u8], n: u64) -> Option<Word> {
    match word {
        b"LENT" => Some(Word::Lend(n)),
        b"SECOND" => Some(Word::Dealing(Dealing::SecondPart(n))),
        b"DAY" => Some(Word::Dealing(Dealing::NewDay(n))),
        _ => None,
    }
}

// A line's word, where it has that word's fields.
fn word_of(line: &[u8]) -> Option<Word> {
    match line {
        b"SHOW" => return Some(Word::Show),
        b"COLLECT" => return Some(Word::Call(Call::Start(Session::Collecting))),
        b"AUCTION" => return Some(Word::Call(Call::End(Session::Collecting))),
        _ => {}
    }
    let end = lines::find(line, 0, line.len(), COMMA);
    let word = &line[..end];
    if word == b"OFFER".as_slice() {
        return offer_word(line, end);
    }
    let numbers = numbers_from(line, end)?;
    if numbers.count != 1 {
        return None;
    }
    counted_word(word, numbers.list[0])
}

// The word at a place of the text; there is none where the line is one of a day file, or malformed.
pub fn word_at(text: &[u8], at: usize) -> Option<Word>
    requires { at < length text.now }
{
    let end = lines::find(text, at, text.len(), LINE_END);
    word_of(&text[at..end])
}
