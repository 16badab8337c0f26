// What a line of a day file says.
#![tactic(auto)]

ghost use Rattle.std.specs.Prelude.{◌≡◌, ◌+◌, ◌<◌, ◌≤◌, drop, get_or, length, replicate};
ghost use Rattle.market.specs.declared.Call.TheVariants as call;
ghost use Rattle.lines.specs.declared.Part.TheVariants.{Force, Nothing, Number, Side as SideLetter};
ghost use Rattle.lines.specs.Finding.{index_of, slice};
ghost use Rattle.lines.specs.Forms.{at, force_of, row_of, side_of};
ghost use Rattle.lines.specs.Line.{line_says, no_values, value, values_from};

use market::{Call, Move, Session, Side, Ticket, TimeInForce};

const COMMA: u8 = b',';

const MAX_DIGITS: usize = 16;

// What a line says. Document 01's letters R, W, D, E, B and L, X, G, C, P, Z are calls; the others are H, S and M.
// Malformed is one of them, no None: it has an answer of its own.
#[derive(Clone, Copy)]
pub enum Line {
    Call(Call),
    Heading(u64, u64, u64),
    Security(u64, u64, u64),
    Member(Ticket),
    Malformed,
}

// What a field of a line holds; past the last field nothing, which `Forms` puts among the parts.
#[derive(Clone, Copy)]
pub enum Part {
    Number,
    Side,
    Force,
    Nothing,
}

// The first place of the byte in from..to, or `to`.
#[tactic(auto, using(crate::proofs::Finding::first_places))]
pub fn find(text: &[u8], from: usize, to: usize, wanted: u8) -> usize
    requires from_le_to { from ≤ to }
    requires to_in_bounds { to ≤ length text.now }
    ensures first { result ≡ from + index_of wanted (slice from to text.now) }
    ensures within { result ≤ to }
{
    for i in from..to {
        if text[i] == wanted {
            return i;
        }
    }
    to
}

// 1 to 16 decimal digits without leading zeros.
#[tactic(auto, using(crate::proofs::Digits::digits))]
pub fn number(field: &[u8]) -> Option<u64>
    ensures { result ≡ value Number field.now }
{
    if field.is_empty() || MAX_DIGITS < field.len() {
        return None;
    }
    if 1 < field.len() && field[0] == b'0' {
        return None;
    }
    let mut digits: u64 = 0;
    for b in field {
        if !b.is_ascii_digit() {
            return None;
        }
        digits = digits * 10 + u64::from(*b - b'0');
    }
    Some(digits)
}

// B or L.
#[tactic(auto, unfolding(crate::specs::Line::value))]
fn side_letter(field: &[u8]) -> Option<u64>
    ensures { result ≡ value SideLetter field.now }
{
    let [letter] = field else {
        return None;
    };
    match letter {
        b'B' => Some(0),
        b'L' => Some(1),
        _ => None,
    }
}

// K, I or A.
#[tactic(auto, unfolding(crate::specs::Line::value))]
fn force_letter(field: &[u8]) -> Option<u64>
    ensures { result ≡ value Force field.now }
{
    let [letter] = field else {
        return None;
    };
    match letter {
        b'K' => Some(0),
        b'I' => Some(1),
        b'A' => Some(2),
        _ => None,
    }
}

#[tactic(auto, unfolding(crate::specs::Line::value))]
fn field_value(part: Part, field: &[u8]) -> Option<u64>
    ensures { result ≡ value part field.now }
{
    match part {
        Part::Number => number(field),
        Part::Side => side_letter(field),
        Part::Force => force_letter(field),
        Part::Nothing => None,
    }
}

// A number in each of the first n fields.
fn numbers(n: usize, i: usize) -> Part
    ensures { result ≡ get_or (replicate n Number) i Nothing }
{
    if i < n { Part::Number } else { Part::Nothing }
}

// What field i after a letter holds.
#[tactic(auto, unfolding(crate::specs::Forms::row_of, crate::specs::Forms::row_in))]
fn part_of(letter: u8, i: usize) -> Part
    ensures { result ≡ get_or (row_of letter).parts i Nothing }
{
    match letter {
        b'H' | b'S' | b'R' | b'W' | b'D' | b'E' => numbers(3, i),
        b'B' | b'L' => if i == 4 { Part::Force } else { numbers(5, i) },
        b'X' | b'G' => numbers(2, i),
        b'M' => if i == 0 { Part::Side } else { numbers(4, i) },
        b'P' => if i == 1 { Part::Side } else { numbers(4, i) },
        _ => Part::Nothing,
    }
}

// The values of the fields after a line's letter.
#[tactic(auto, using(crate::proofs::Fields::field_steps))]
fn field_values(line: &[u8]) -> Option<[u64; 5]>
    requires { 0 < length line.now }
    ensures { result ≡ values_from (row_of (get_or line.now 0 0)).parts 0 no_values (drop 1 line.now) }
{
    let letter = line[0];
    let mut list = [0; 5];
    let mut i = 0;
    let mut at = 1;
    // No range: each round goes on by a field, and fields differ in length.
    while at < line.len() {
        if line[at] != COMMA {
            return None;
        }
        let end = find(line, at + 1, line.len(), COMMA);
        list[i] = field_value(part_of(letter, i), &line[at + 1..end])?;
        i += 1;
        at = end;
    }
    match part_of(letter, i) {
        Part::Nothing => Some(list),
        _ => None,
    }
}

fn side_of(v: u64) -> Side
    ensures { result ≡ side_of v }
{
    if v == 0 { Side::Buy } else { Side::Sell }
}

fn force_of(v: u64) -> TimeInForce
    ensures { result ≡ force_of v }
{
    match v {
        0 => TimeInForce::Kept,
        1 => TimeInForce::ImmediateOrCancel,
        _ => TimeInForce::FillOrKill,
    }
}

fn order(side: Side, v: [u64; 5]) -> Call
    ensures { result ≡ call.Order (at v 0) (record { side = side; security = at v 1; price = at v 2; lots = at v 3 }) (force_of (at v 4)) }
{
    let [participant, security, price, lots, force] = v;
    let ticket = Ticket {
        side,
        security,
        price,
        lots,
    };
    Call::Order(participant, ticket, force_of(force))
}

// What a line says by its letter and its fields' values.
#[tactic(auto, unfolding(crate::specs::Forms::row_of, crate::specs::Forms::row_in))]
fn says(letter: u8, v: [u64; 5]) -> Line
    ensures { result ≡ (row_of letter).says v }
{
    match letter {
        b'H' => Line::Heading(v[0], v[1], v[2]),
        b'S' => Line::Security(v[0], v[1], v[2]),
        b'R' => Line::Call(Call::Reserve(Move::IncreaseMoney(v[0], v[1], v[2]))),
        b'W' => Line::Call(Call::Reserve(Move::DecreaseMoney(v[0], v[1], v[2]))),
        b'D' => Line::Call(Call::Reserve(Move::IncreasePieces(v[0], v[1], v[2]))),
        b'E' => Line::Call(Call::Reserve(Move::DecreasePieces(v[0], v[1], v[2]))),
        b'B' => Line::Call(order(Side::Buy, v)),
        b'L' => Line::Call(order(Side::Sell, v)),
        b'X' => Line::Call(Call::Cancel(v[0], v[1])),
        b'G' => Line::Call(Call::Group(v[0], v[1])),
        b'M' => Line::Member(Ticket {
            side: side_of(v[0]),
            security: v[1],
            price: v[2],
            lots: v[3],
        }),
        b'C' => Line::Call(Call::Start(Session::Closing)),
        b'P' => Line::Call(Call::ClosingOrder(v[0], side_of(v[1]), v[2], v[3])),
        b'Z' => Line::Call(Call::End(Session::Closing)),
        _ => Line::Malformed,
    }
}

#[tactic(auto, unfolding(crate::specs::Line::line_says))]
pub fn line_says(line: &[u8]) -> Line
    ensures { result ≡ line_says line.now }
{
    let [letter, ..] = line else {
        return Line::Malformed;
    };
    match field_values(line) {
        Some(v) => says(*letter, v),
        None => Line::Malformed,
    }
}
