// Plays a script: standard input to standard output. `beamgantry` has the same lines for a day file: one function for both, with
// the printing handed to it, would be no shorter.
#![tactic(auto)]

use player::print_script;
use streams::read_whole;

fn main(rt: HostRuntime) {
    // One byte more than a script may have: a longer input is told from the longest one.
    let mut text = [0u8; 65537];
    let Some(n) = read_whole(&rt, &mut rt.stdin(), "standard input", &mut text) else {
        return;
    };
    print_script(&rt, &mut rt.stdout(), &text[..n]);
}
