// Runs a day file: standard input to standard output.
#![tactic(auto)]

use console::print_day;
use streams::read_whole;

fn main(rt: HostRuntime) {
    // One byte more than a day file may have: a longer input is told from the longest one.
    let mut text = [0u8; 65537];
    let Some(n) = read_whole(&rt, &mut rt.stdin(), "standard input", &mut text) else {
        return;
    };
    print_day(&rt, &mut rt.stdout(), &text[..n]);
}
