// The lines that the day file program prints, put one after another into a lent buffer.
#![tactic(auto)]

ghost use Rattle.std.specs.Prelude.{◌≡◌, [], ◌∷◌, ◌+◌, ◌*◌, ◌≤◌, ◌<◌, length};
ghost use Rattle.market.specs.Limits.{columns as maxColumns, max_currencies, max_participants, max_securities};
ghost use Rattle.market.specs.Limits.{numbers_per_trade};
ghost use Rattle.printing.specs.Buffer.{Puts, line_room, worded_room};
ghost use Rattle.printing.specs.Lines.{answer_line, column_lines, decimal, flat_lines, letter_a};
ghost use Rattle.printing.specs.Lines.{number_fields, participant_lines, position_line, position_lines_of, printed_line};
ghost use Rattle.printing.specs.Lines.{worded_line};

use amounts::cell_of;
use market::Answer;

const COMMA: u8 = b',';

const LINE_END: u8 = b'\n';

const LETTER_A: u8 = b'A';

const LETTER_T: u8 = b'T';

const LETTER_M: u8 = b'M';

const LETTER_Q: u8 = b'Q';

// `matching` names the same number; this crate doesn't stand on it.
const NUMBERS_PER_TRADE: usize = 8;

// `out` and `at` are two parameters in this file: a struct of both was tried, but what makes it of a lent buffer can't say what
// the buffer then holds.
fn put_byte(out: &mut [u8], at: usize, byte: u8) -> usize
    requires { at < length out.old }
    ensures { Puts out.old at (byte ∷ []) out.new result }
{
    out[at] = byte;
    at + 1
}

// How many digits a number has.
fn width(n: u64) -> usize
    ensures { result ≡ length (decimal n) }
{
    n.max(1).ilog10() as usize + 1
}

// The digits, the last one first.
fn put_digits(out: &mut [u8], at: usize, n: u64) -> usize
    requires { at + 20 ≤ length out.old }
    ensures { Puts out.old at (decimal n) out.new result }
{
    let end = at + width(n);
    let mut rest = n;
    for i in (at..end).rev() {
        out[i] = b'0' + (rest % 10) as u8;
        rest /= 10;
    }
    end
}

// Most numbers have one digit: they need no loop.
fn put_number(out: &mut [u8], at: usize, n: u64) -> usize
    requires { at + 20 ≤ length out.old }
    ensures { Puts out.old at (decimal n) out.new result }
{
    if n < 10 {
        return put_byte(out, at, b'0' + n as u8);
    }
    put_digits(out, at, n)
}

// Bytes as they are.
pub fn put_bytes(out: &mut [u8], at: usize, bytes: &[u8]) -> usize
    requires { at + length bytes.now ≤ length out.old }
    ensures { Puts out.old at bytes.now out.new result }
{
    let end = at + bytes.len();
    out[at..end].copy_from_slice(bytes);
    end
}

// Numbers, with a comma ahead of each.
pub fn put_fields(out: &mut [u8], at: usize, numbers: &[u64]) -> usize
    requires { at + 21 * length numbers.now ≤ length out.old }
    ensures { Puts out.old at (number_fields numbers.now) out.new result }
{
    let mut end = at;
    for number in numbers {
        let field = put_byte(out, end, COMMA);
        end = put_number(out, field, *number);
    }
    end
}

// A word, numbers, the end of the line.
pub fn put_worded(out: &mut [u8], at: usize, word: &[u8], numbers: &[u64]) -> usize
    requires { at + worded_room (length word.now) (length numbers.now) ≤ length out.old }
    ensures { Puts out.old at (worded_line word.now numbers.now) out.new result }
{
    let fields = put_bytes(out, at, word);
    let end = put_fields(out, fields, numbers);
    put_byte(out, end, LINE_END)
}

pub fn put_line(out: &mut [u8], at: usize, letter: u8, numbers: &[u64]) -> usize
    requires { at + line_room (length numbers.now) ≤ length out.old }
    ensures { Puts out.old at (printed_line letter numbers.now) out.new result }
{
    let word = [letter];
    put_worded(out, at, &word, numbers)
}

// The numbers of an answer's line.
fn answer_numbers(line: u64, answer: Answer) -> [u64; 7]
    ensures { printed_line letter_a result ≡ answer_line line answer }
{
    match answer {
        Answer::Refused(number, place) => [line, number, place, 0, 0, 0, 0],
        Answer::Done(code, filled, left, trades) => [line, 0, 0, code, filled, left, trades],
    }
}

pub fn put_answer(out: &mut [u8], at: usize, line: u64, answer: Answer) -> usize
    requires { at + line_room 7 ≤ length out.old }
    ensures { Puts out.old at (answer_line line answer) out.new result }
{
    let numbers = answer_numbers(line, answer);
    put_line(out, at, LETTER_A, &numbers)
}

// A line for each of the first `count` trades.
pub fn put_trades(out: &mut [u8], at: usize, trades: &[u64], count: u64) -> usize
    requires numbers_per_trade_in_bounds { count * numbers_per_trade ≤ length trades.now }
    requires numbers_per_trade_in_bounds_2 { at + count * line_room numbers_per_trade ≤ length out.old }
    ensures { Puts out.old at (flat_lines count trades.now) out.new result }
{
    let mut end = at;
    let made = &trades[..count as usize * NUMBERS_PER_TRADE];
    for trade in made.chunks_exact(NUMBERS_PER_TRADE) {
        end = put_line(out, end, LETTER_T, trade);
    }
    end
}

// The lines of a participant.
fn put_columns(
    out: &mut [u8],
    at: usize,
    letter: u8,
    participant: u64,
    columns: u64,
    positions: &[u64; 544],
) -> usize
    requires participant_lt_max_participants { (participant < max_participants) × (columns ≤ maxColumns) }
    requires line_room_in_bounds { at + columns * line_room 4 ≤ length out.old }
    ensures { Puts out.old at (column_lines letter positions.now participant columns 0) out.new result }
{
    let mut end = at;
    for column in 0..columns {
        let first = 2 * cell_of(participant, column);
        let numbers = [participant, column, positions[first], positions[first + 1]];
        end = put_line(out, end, letter, &numbers);
    }
    end
}

fn put_participants(
    out: &mut [u8],
    at: usize,
    letter: u8,
    participants: u64,
    columns: u64,
    positions: &[u64; 544],
) -> usize
    requires participants_le_max_participants { (participants ≤ max_participants) × (columns ≤ maxColumns) }
    requires line_room_in_bounds { at + participants * (columns * line_room 4) ≤ length out.old }
    ensures { Puts out.old at (participant_lines letter positions.now columns participants 0) out.new result }
{
    let mut end = at;
    for participant in 0..participants {
        end = put_columns(out, end, letter, participant, columns, positions);
    }
    end
}

pub fn put_positions<'a>(
    out: &mut [u8],
    at: usize,
    participants: u64,
    currencies: u64,
    securities: u64,
    money: &'a [u64; 544],
    pieces: &'a [u64; 544],
) -> usize
    requires participants_le_max_participants { (participants ≤ max_participants) × (currencies ≤ max_currencies) × (securities ≤ max_securities) }
    requires line_room_in_bounds { at + max_participants * (max_currencies + max_securities) * line_room 4 ≤ length out.old }
    ensures { Puts out.old at
        (position_lines_of participants currencies securities money.now pieces.now)
        out.new result }
{
    let end = put_participants(out, at, LETTER_M, participants, currencies, money);
    put_participants(out, end, LETTER_Q, participants, securities, pieces)
}
