// A reader of a day file: it yields one command after another.
#![tactic(auto)]

ghost use Rattle.std.specs.Prelude.{◌≡◌, ◌≤◌, drop, length};
ghost use Rattle.market.specs.declared.Call.TheVariants as call;
ghost use Rattle.market.specs.Limits.{max_members};
ghost use Rattle.lines.specs.declared.Line.TheVariants as line;
ghost use Rattle.market.specs.Calls.{no_tickets};
ghost use Rattle.reading.specs.Commands.{Next, Reads, ReadsLine, ReadsMembers, Yields, yield_by};

use lines::{Line, line_says};
use market::{Call, MAX_MEMBERS, MIN_MEMBERS, Side, Ticket};

const LINE_END: u8 = b'\n';

const NO_MEMBERS: [Ticket; 8] = [Ticket {
    side: Side::Buy,
    security: 0,
    price: 0,
    lots: 0,
}; 8];

// What a first line says, how many lines were taken, where the text goes on after them, and the members of a group. These stand
// last: behind `says` they would be copied with its padding, and a caller that copies them would copy them twice.
#[derive(Clone, Copy)]
pub struct Reading {
    pub says: Line,
    pub lines: u64,
    pub next: usize,
    pub members: [Ticket; 8],
}

// A line, and where the text goes on after it.
#[derive(Clone, Copy)]
pub struct LineAt {
    pub says: Line,
    pub next: usize,
}

// A group's members in their places, and where the text goes on after their lines.
#[derive(Clone, Copy)]
pub struct Members {
    pub list: [Ticket; 8],
    pub next: usize,
}

fn line_at(text: &[u8], at: usize) -> LineAt
    requires { at ≤ length text.now }
    ensures { ReadsLine text.now at result.says result.next }
{
    let end = lines::find(text, at, text.len(), LINE_END);
    let says = line_says(&text[at..end]);
    let next = if end < text.len() { end + 1 } else { end };
    LineAt { says, next }
}

// The lines of n members, where all of them are there.
#[tactic(auto, using(crate::proofs::MemberLines::member_lines))]
fn members_at(text: &[u8], from: usize, n: u64) -> Option<Members>
    requires from_in_bounds { from ≤ length text.now }
    requires n_le_max_members { n ≤ max_members }
    ensures { ReadsMembers text.now from n result }
{
    let mut list = NO_MEMBERS;
    let mut next = from;
    for i in 0..n {
        if text.len() <= next {
            return None;
        }
        let line = line_at(text, next);
        let Line::Member(member) = line.says else {
            return None;
        };
        list[i as usize] = member;
        next = line.next;
    }
    Some(Members { list, next })
}

// A command of one line.
fn single(says: Line, next: usize) -> Reading
    ensures { result ≡ record { says = says; members = no_tickets; lines = 1; next = next } }
{
    Reading {
        says,
        members: NO_MEMBERS,
        lines: 1,
        next,
    }
}

// A group whose first line ends at `next`, with its members' lines.
#[tactic(auto, using(crate::proofs::Groups::group_lines))]
fn group_at(text: &[u8], next: usize, participant: u64, n: u64) -> Reading
    requires { next ≤ length text.now }
    ensures { Yields text.now next (yield_by (line.Call (call.Group participant n)) (drop next text.now)) result }
{
    let says = Line::Call(Call::Group(participant, n));
    if n < MIN_MEMBERS || MAX_MEMBERS < n {
        return single(says, next);
    }
    let Some(members) = members_at(text, next, n) else {
        return single(Line::Malformed, next);
    };
    // By a local: the checker covers no array field that is given another field's value straight.
    let list = members.list;
    Reading {
        says,
        members: list,
        lines: n + 1,
        next: members.next,
    }
}

// The command at a place of the text; past its end an empty line.
fn reading_at(text: &[u8], at: usize) -> Reading
    ensures { Reads text.now at result }
{
    let line = line_at(text, at.min(text.len()));
    if let Line::Call(Call::Group(participant, n)) = line.says {
        return group_at(text, line.next, participant, n);
    }
    single(line.says, line.next)
}

// A line reader over a lent text, at a place of it.
#[derive(Clone, Copy)]
pub struct Reader<'a> {
    pub text: &'a [u8],
    pub at: usize,
}

// A command, and the reader that stands after it.
#[derive(Clone, Copy)]
pub struct Yielded<'a> {
    pub reading: Reading,
    pub reader: Reader<'a>,
}

impl<'a> Reader<'a> {
    pub fn new(text: &'a [u8], at: usize) -> Reader<'a>
        ensures { (result.text ≡ text.entry) × (result.at ≡ at) }
    {
        Reader { text, at }
    }

    pub fn next(self) -> Yielded<'a>
        ensures { Next self.entry result }
    {
        let reading = reading_at(self.text, self.at);
        let reader = Reader::new(self.text, reading.next);
        Yielded { reading, reader }
    }
}

// The reader with plain parameters: whoever calls it needs no proof by hand.
pub fn command_at(text: &[u8], at: usize) -> Reading
    ensures { Reads text.now at result }
{
    Reader::new(text, at).next().reading
}
