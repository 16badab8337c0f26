// A day by the public calls, each of which tests whether the state is sound.
ghost use Rattle.std.specs.Prelude.{◌+◌, ◌≤◌, length, ◌≡◌, true};
ghost use Rattle.market.specs.View.{view};
ghost use Rattle.market.specs.Sound.{sound};
ghost use Rattle.printing.specs.Buffer.{Puts};
ghost use Rattle.printing.specs.Lines.{position_lines};
ghost use Rattle.commands.specs.Stand.{room};
ghost use Rattle.dayfile.specs.Run.{Prints};

use commands::{ROOM, goes_on, put_command};
use dayfile::begin;
use engine::call_in_place;
use lines::Line;
use market::{Answer, Refusal, State};
use printing::put_positions;
use reading::command_at;

// The positions of a state, from place `at` of the buffer on.
fn last_lines(s: &State, at: usize, out: &mut [u8]) -> usize
    requires s_value { sound (view s.now) ≡ true }
    requires room_in_bounds { at + room ≤ length out.old }
    ensures { Puts out.old at (position_lines (view s.now)) out.new result }
{
    put_positions(
        out,
        at,
        s.rules.participants,
        s.rules.currencies,
        s.rules.securities,
        &s.floor.money,
        &s.floor.pieces,
    )
}

// The whole day as `dayfile::whole_day` prints it, its commands by the public call: the loop is that of `commands` on a
// call whose contract differs. 0, no Option: `Prints` says so.
pub fn whole_day(text: &[u8], out: &mut [u8]) -> usize
    ensures { Prints text.now out.old result out.new }
{
    let mut run = begin(text, out);
    if run.over {
        return run.filled;
    }
    // A run tells of its day alone, and the public call asks for sound records: those of an opening on day 0.
    run.state.records.date = 0;
    run.state.records.count = 0;
    let mut trades = [0u64; 1088];
    while goes_on(text.len(), run.at, out.len(), run.filled) {
        let reading = command_at(text, run.at);
        let answer = match reading.says {
            Line::Call(call) => {
                call_in_place(&mut run.state, call, &reading.members, &mut trades)
            }
            _ => Answer::from(Refusal::Malformed),
        };
        run.filled = put_command(out, run.filled, run.line, answer, &trades);
        run.at = reading.next;
        run.line += reading.lines;
    }
    if out.len() - ROOM < run.filled {
        return 0;
    }
    // With room left, the commands stopped after the last of them.
    last_lines(&run.state, run.filled, out)
}
