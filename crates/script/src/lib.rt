// A script: a text that drives every call of a trading day. Its lines are those of a day file and a few words besides, and
// its heading may say more; heading and commands go through the public calls. What it prints is put into a lent buffer, part
// by part.
#![tactic(auto)]

mod ending;
mod head_lines;
mod records;
mod words;

ghost use Rattle.std.specs.Prelude.{◌+◌, ◌<◌, ◌≤◌, length};
ghost use Rattle.printing.specs.Buffer.{line_room};
ghost use Rattle.script.specs.Rooms.{Adds, room};
ghost use Rattle.script.specs.Playing.{Advances, Follows, Plays, Stands, Starts, max_lent};

use dayfile::{MAX_TEXT, begin, is_done};
use ending::put_end;
use head_lines::heading_of;
use lines::Line;
use market::{Answer, Call, Dealing, LENT_AT_LEAST, MAX_MEMBERS, MIN_MEMBERS, Refusal, State};
use printing::{put_answer, put_trades};
use reading::{Reading, command_at};
use words::{Word, word_at};

const MAX_LENT: u64 = 4096;

const MAX_TRADES: u64 = 136;

// What a command, or the lines of the end, take of the buffer at most.
pub const ROOM: usize = 81920;

// How far a script is played: the state, the place where the text goes on and the number of its line there, how much of
// the buffer is filled, how many numbers are lent, and whether all is printed. `over` is no Option around the rest: what is
// printed of a play that is over is read from it, too.
#[derive(Clone, Copy)]
pub struct Play {
    pub state: State,
    pub at: usize,
    pub line: u64,
    pub filled: usize,
    pub lent: usize,
    pub over: bool,
}

// A command's answer and its trades. No call makes more than 136.
fn put_command(out: &mut [u8], at: usize, line: u64, answer: Answer, trades: &[u64]) -> usize
    requires max_lent_in_bounds { max_lent ≤ length trades.now }
    requires room_in_bounds { at + room ≤ length out.old }
    ensures { Adds room out.old at out.new result }
{
    let end = put_answer(out, at, line, answer);
    let Answer::Done(_, _, _, count) = answer else {
        return end;
    };
    if MAX_TRADES < count {
        return end;
    }
    put_trades(out, end, trades, count)
}

// Goes on after a line that is no call and left the state as it was.
fn answered(p: &mut Play, next: usize, answer: Answer, out: &mut [u8])
    requires { Stands p.old out.old }
    ensures { Follows (line_room 7) p.old next out.old p.new out.new }
{
    p.filled = put_answer(out, p.filled, p.line, answer);
    p.line = p.line.wrapping_add(1);
    p.at = next;
}

// `LENT,n`.
fn lend(p: &mut Play, next: usize, n: u64, out: &mut [u8])
    requires { Stands p.old out.old }
    ensures { Follows room p.old next out.old p.new out.new }
{
    if MAX_LENT < n {
        answered(p, next, Answer::from(Refusal::Malformed), out);
    } else {
        answered(p, next, Answer::Done(0, 0, 0, 0), out);
        p.lent = n as usize;
    }
}

// `SHOW`.
fn show(p: &mut Play, next: usize, out: &mut [u8])
    requires { Stands p.old out.old }
    ensures { Follows room p.old next out.old p.new out.new }
{
    answered(p, next, Answer::Done(0, 0, 0, 0), out);
    p.filled = put_end(out, p.filled, &p.state);
}

// Reading already refuses such a group, before question 2.
fn is_wrong_group(call: Call) -> bool {
    let Call::Group(_, n) = call else {
        return false;
    };
    !(MIN_MEMBERS..=MAX_MEMBERS).contains(&n)
}

// Goes on after a call, whose trades stand in the list.
fn called(p: &mut Play, reading: &Reading, answer: Answer, trades: &[u64], out: &mut [u8])
    requires max_lent_in_bounds { max_lent ≤ length trades.now }
    requires stands { Stands p.old out.old }
    ensures { Follows room p.old reading.now.next out.old p.new out.new }
{
    p.filled = put_command(out, p.filled, p.line, answer, trades);
    p.line = p.line.wrapping_add(reading.lines);
    p.at = reading.next;
}

// An act on the records.
fn deal(p: &mut Play, reading: &Reading, dealing: Dealing, trades: &mut [u64], out: &mut [u8])
    requires max_lent_in_bounds { max_lent ≤ length trades.old }
    requires stands { Stands p.old out.old }
    ensures { Follows room p.old reading.now.next out.old p.new out.new }
{
    let answer = engine::deal_in_place(&mut p.state, dealing, &mut trades[..p.lent]);
    called(p, reading, answer, trades, out);
}

// A line of a day file, or a word that is a call; what is read takes as many lines either way.
fn carry_out(p: &mut Play, reading: &Reading, says: Line, trades: &mut [u64], out: &mut [u8])
    requires max_lent_in_bounds { max_lent ≤ length trades.old }
    requires stands { Stands p.old out.old }
    ensures { Follows room p.old reading.now.next out.old p.new out.new }
{
    let Line::Call(call) = says else {
        answered(p, reading.next, Answer::from(Refusal::Malformed), out);
        return;
    };
    if is_wrong_group(call) {
        answered(p, reading.next, Answer::from(Refusal::GroupSize), out);
        return;
    }
    let members = &reading.members;
    let answer = engine::call_in_place(&mut p.state, call, members, &mut trades[..p.lent]);
    called(p, reading, answer, trades, out);
}

// The command at the play's place.
fn command(text: &[u8], p: &mut Play, trades: &mut [u64], out: &mut [u8])
    requires max_lent_in_bounds { max_lent ≤ length trades.old }
    requires at_in_bounds { p.old.at < length text.now }
    requires stands { Stands p.old out.old }
    ensures { Advances text.now p.old out.old p.new out.new }
{
    let reading = command_at(text, p.at);
    match word_at(text, p.at) {
        Some(Word::Lend(n)) => lend(p, reading.next, n, out),
        Some(Word::Show) => show(p, reading.next, out),
        Some(Word::Call(call)) => carry_out(p, &reading, Line::Call(call), trades, out),
        Some(Word::Dealing(dealing)) => deal(p, &reading, dealing, trades, out),
        None => carry_out(p, &reading, reading.says, trades, out),
    }
}

// A text over 65,536 bytes: its answer is a day file's.
fn too_long(text: &[u8], out: &mut [u8]) -> Play
    requires { room ≤ length out.old }
    ensures { Starts out.old result out.new }
{
    let r = begin(text, out);
    Play {
        state: r.state,
        at: r.at,
        line: r.line,
        filled: r.filled,
        lent: LENT_AT_LEAST,
        over: r.over,
    }
}

// Reads the heading, and puts its answer into the buffer.
pub fn start(text: &[u8], out: &mut [u8]) -> Play
    requires { room ≤ length out.old }
    ensures { Starts out.old result out.new }
{
    if MAX_TEXT < text.len() {
        return too_long(text, out);
    }
    let heading = heading_of(text);
    let answer = heading.outcome.answer;
    Play {
        state: heading.outcome.state,
        at: heading.at,
        line: heading.next,
        filled: put_answer(out, 0, heading.line, answer),
        lent: LENT_AT_LEAST,
        over: !is_done(answer),
    }
}

// Goes on until the script is over or the buffer has no room for another command.
pub fn resume(text: &[u8], from: Play, out: &mut [u8]) -> Play
    requires { Stands from out.old }
    ensures { Plays text.now from out.old result out.new }
{
    let mut trades = [0u64; 4096];
    let mut p = from;
    let last_start = out.len() - ROOM;
    while p.at < text.len() && p.filled <= last_start {
        command(text, &mut p, &mut trades, out);
    }
    if last_start < p.filled {
        return p;
    }
    // With room left, the commands stopped after the last of them.
    p.filled = put_end(out, p.filled, &p.state);
    p.over = true;
    p
}

// The whole script in one buffer, for hosts in other languages: how many bytes are printed, or 0 where the buffer has no
// room for them. 0, no Option: as `whole_day` of day files, and script_c hands the number to C.
pub fn run_script(text: &[u8], out: &mut [u8]) -> usize {
    if out.len() < ROOM {
        return 0;
    }
    let p = start(text, out);
    if p.over {
        return p.filled;
    }
    if out.len() - ROOM < p.filled {
        return 0;
    }
    let last = resume(text, p, out);
    if !last.over {
        return 0;
    }
    last.filled
}
