// A trading day from a day file: its commands are carried out one after another, and what they print is put into a lent
// buffer.
#![tactic(auto)]

ghost use Rattle.std.specs.Prelude.{◌≡◌, true, false, ◌+◌, ◌≤◌, length};
ghost use Rattle.market.specs.View.{view};
ghost use Rattle.market.specs.Answers.{is_done};
ghost use Rattle.market.specs.Opening.{no_rules, opened};
ghost use Rattle.dayfile.specs.Run.{Begins, Fills, Going, Prints, TooLong, room};

use commands::{Stand, commands};
use heading::heading_of;
use market::{Answer, Refusal, State};
use opening::refused_opening;
use printing::{put_answer, put_positions};

pub const MAX_TEXT: usize = 65536;

// What a command, or the last positions, take of the buffer at most.
pub const ROOM: usize = commands::ROOM;

// A run of a day file: the state, the place where the text goes on and the number of its line there, how much of the
// buffer is filled, and whether all is printed. Of the state its day alone is read: no line says a date or a deal, so its
// records are the opening's to the end. `over` is no Option around the rest: `Begins` and `over_value` speak of it.
#[derive(Clone, Copy)]
pub struct Run {
    pub state: State,
    pub at: usize,
    pub line: u64,
    pub filled: usize,
    pub over: bool,
}

// Goes on with a run until it is over or the buffer has no room for another command. Who calls this shows that the run is
// one of `begin` or `resume` for the same text (`Begins` and `Continues` say `Going`), that it is not over, and that the
// buffer has room; `filled` may be set back once the bytes before it are used.
pub fn resume(text: &[u8], from: Run, out: &mut [u8]) -> Run
    requires going { Going text.now from }
    requires over_value { from.over ≡ false }
    requires room_in_bounds { from.filled + room ≤ length out.old }
    ensures { Fills text.now from out.old result out.new }
{
    let rules = &from.state.rules;
    let mut run = from;
    let first = Stand {
        at: run.at,
        line: run.line,
        filled: run.filled,
    };
    let last = commands(text, first, &mut run.state.floor, rules, out);
    run.at = last.at;
    run.line = last.line;
    run.filled = last.filled;
    if out.len() - ROOM < run.filled {
        return run;
    }
    // With room left, the commands stopped after the last of them.
    run.filled = put_positions(
        out,
        run.filled,
        rules.participants,
        rules.currencies,
        rules.securities,
        &run.state.floor.money,
        &run.state.floor.pieces,
    );
    run.over = true;
    run
}

pub fn is_done(answer: Answer) -> bool
    ensures { result ≡ is_done answer }
{
    matches!(answer, Answer::Done(..))
}

// A run that is over, with a state of zeros.
fn ended(filled: usize) -> Run
    ensures { (result.over ≡ true) × (result.filled ≡ filled) × (view result.state ≡ opened no_rules) }
{
    let number = Refusal::TextTooLong.number();
    Run {
        state: refused_opening(number, 0).state,
        at: 0,
        line: 0,
        filled,
        over: true,
    }
}

// A text over 65,536 bytes: its answer, and nothing else.
fn too_long(out: &mut [u8]) -> Run
    requires { room ≤ length out.old }
    ensures { TooLong out.old result out.new }
{
    ended(put_answer(out, 0, 0, Answer::from(Refusal::TextTooLong)))
}

// Reads the heading, and puts its answer into the buffer. A buffer under `ROOM` bytes stays as it was.
pub fn begin(text: &[u8], out: &mut [u8]) -> Run
    ensures { Begins text.now out.old result out.new }
{
    if out.len() < ROOM {
        return ended(0);
    }
    if MAX_TEXT < text.len() {
        return too_long(out);
    }
    let heading = heading_of(text);
    let answer = heading.outcome.answer;
    Run {
        state: heading.outcome.state,
        at: heading.at,
        line: heading.next,
        filled: put_answer(out, 0, heading.line, answer),
        over: !is_done(answer),
    }
}

// The whole day in one buffer, as far as each command, and at last the positions, begin with `ROOM` bytes left: how many
// bytes are printed, or 0 where that is not all of the day. 0, no Option: `Prints` says so.
pub fn whole_day(text: &[u8], out: &mut [u8]) -> usize
    ensures { Prints text.now out.old result out.new }
{
    let first = begin(text, out);
    if first.over {
        return first.filled;
    }
    if out.len() - ROOM < first.filled {
        return 0;
    }
    let last = resume(text, first, out);
    if !last.over {
        return 0;
    }
    last.filled
}
