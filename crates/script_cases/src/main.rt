// Runs the scripts that its arguments name, one after another: a line with the name, then what the script prints.
#![tactic(auto)]

use case_files::print_files;
use player::print_script;

fn main(rt: HostRuntime) {
    print_files(&rt, |out, text| print_script(&rt, out, text));
}
