// A script printed to standard output, or another writer, part by part, whatever its length.
#![tactic(auto)]

ghost use Rattle.std.specs.Prelude.{◌≤◌, length};
ghost use Rattle.script.specs.Rooms.{room};

use script::{resume, start};
use std::io::Write;
use std::rt::Clock;
use streams::write_whole;

// The buffer takes part after part; each is written before the next. After a part that did not go through nothing is written.
// `console` has the same loop for a day: a trait for both, with what its ending needs as a law, would be longer than the loop.
fn print_parts<R: Clock + Eprint, W: Write>(
    rt: &R,
    file: &mut W,
    text: &[u8],
    out: &mut [u8],
) -> bool
    requires { room ≤ length out.old }
{
    let mut p = start(text, out);
    while !p.over {
        if !write_whole(rt, file, &out[..p.filled]) {
            return false;
        }
        p.filled = 0;
        p = resume(text, p, out);
    }
    write_whole(rt, file, &out[..p.filled])
}

// Whether all of the script went through.
pub fn print_script<R: Clock + Eprint, W: Write>(rt: &R, file: &mut W, text: &[u8]) -> bool {
    let mut out = [0u8; 131072];
    print_parts(rt, file, text, &mut out)
}
