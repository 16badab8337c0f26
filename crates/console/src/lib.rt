// A day printed to standard output, or another writer, part by part, whatever its length.
#![tactic(auto)]

ghost use Rattle.std.specs.Prelude.{◌≤◌, length};
ghost use Rattle.dayfile.specs.Run.{room};

use dayfile::{begin, resume};
use std::io::Write;
use std::rt::Clock;
use streams::write_whole;

// The buffer takes part after part; each is written before the next. After a part that did not go through nothing is written.
// `player` has the same loop for a script: a trait for both, with what its ending needs as a law, would be longer than the loop.
fn print_parts<R: Clock + Eprint, W: Write>(
    rt: &R,
    file: &mut W,
    text: &[u8],
    out: &mut [u8],
) -> bool
    requires { room ≤ length out.old }
{
    let mut r = begin(text, out);
    while !r.over {
        if !write_whole(rt, file, &out[..r.filled]) {
            return false;
        }
        r.filled = 0;
        r = resume(text, r, out);
    }
    write_whole(rt, file, &out[..r.filled])
}

// Whether all of the day went through.
pub fn print_day<R: Clock + Eprint, W: Write>(rt: &R, file: &mut W, text: &[u8]) -> bool {
    let mut out = [0u8; 65536];
    print_parts(rt, file, text, &mut out)
}
