// Runs the day files that its arguments name, one after another: a line with the name, then what the day prints.
#![tactic(auto)]

use case_files::print_files;
use console::print_day;

fn main(rt: HostRuntime) {
    print_files(&rt, |out, text| print_day(&rt, out, text));
}
