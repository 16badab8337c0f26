// The commands of a day file, carried out one after another on the lent floor of a sound day; what they print is put into a
// lent buffer.
#![tactic(auto)]

ghost use Rattle.std.specs.Prelude.{◌≡◌, ◌++◌, ◌+◌, ◌≤◌, length};
ghost use Rattle.market.specs.Limits.{lent_at_least, max_trades};
ghost use Rattle.market.specs.Answers.{numbers_of};
ghost use Rattle.printing.specs.Buffer.{Puts};
ghost use Rattle.printing.specs.Lines.{answer_line, flat_lines};
ghost use Rattle.commands.specs.Stand.{Going, Runs, goes_on, room};

use calls::carry_out;
use lines::Line;
use market::{Answer, Floor, Refusal, Rules};
use printing::{put_answer, put_trades};
use reading::command_at;

// What a command, or the last positions, take of the buffer at most.
pub const ROOM: usize = 32768;

// What of a run changes from command to command besides the floor: the place where the text goes on and the number of its
// line there, and how much of the buffer is filled.
#[derive(Clone, Copy)]
pub struct Stand {
    pub at: usize,
    pub line: u64,
    pub filled: usize,
}

// A command's answer and its trades, from place `at` of the buffer on.
pub fn put_command(out: &mut [u8], at: usize, line: u64, answer: Answer, trades: &[u64]) -> usize
    requires room_in_bounds { at + room ≤ length out.old }
    requires trades_len { length trades.now ≡ lent_at_least }
    requires answer_bound { (numbers_of answer).trades ≤ max_trades }
    ensures { Puts out.old at (answer_line line answer ++ flat_lines (numbers_of answer).trades trades.now) out.new result }
{
    let end = put_answer(out, at, line, answer);
    match answer {
        Answer::Refused(_, _) => end,
        Answer::Done(_, _, _, count) => put_trades(out, end, trades, count),
    }
}

// Are there a command and room for it?
pub fn goes_on(length: usize, at: usize, size: usize, filled: usize) -> bool
    requires { room ≤ size }
    ensures { result ≡ goes_on length at size filled }
{
    if length <= at {
        return false;
    }
    filled <= size - ROOM
}

// The commands of a text one after another, as long as the buffer has room.
pub fn commands(text: &[u8], from: Stand, floor: &mut Floor, rules: &Rules, out: &mut [u8]) -> Stand
    requires going { Going text.now rules.now floor.old from }
    requires room_in_bounds { (room ≤ length out.old) × (from.filled ≤ length out.old) }
    ensures { Runs text.now rules.now floor.old from out.old floor.new result out.new }
{
    let mut trades = [0u64; 1088];
    let mut stand = from;
    while goes_on(text.len(), stand.at, out.len(), stand.filled) {
        let reading = command_at(text, stand.at);
        let answer = match reading.says {
            Line::Call(call) => {
                // Of what was read only this is copied: were a place in it lent, the loop would copy all of it at each line.
                let members = reading.members;
                carry_out(floor, rules, call, &members, &mut trades)
            }
            _ => Answer::from(Refusal::Malformed),
        };
        stand.filled = put_command(out, stand.filled, stand.line, answer, &trades);
        stand.at = reading.next;
        stand.line += reading.lines;
    }
    stand
}
