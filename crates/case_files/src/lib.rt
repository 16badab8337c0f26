// What day_cases and script_cases share: the files that a program's arguments name are read one after another.
#![tactic(auto)]

use std::io::Stdout;
use std::{env, fs};
use streams::{fail, read_whole, write_whole};

fn print_name(rt: &HostRuntime, out: &mut Stdout, name: &[u8]) -> bool {
    write_whole(rt, out, b"# ") && write_whole(rt, out, name) && write_whole(rt, out, b"\n")
}

// Whether the file could be read and all of its output went through.
fn run_file<F: Fn(&mut Stdout, &[u8]) -> bool>(
    rt: &HostRuntime,
    out: &mut Stdout,
    name: &str,
    print: &F,
) -> bool
    requires { F.IsAlwaysCallable print.now }
{
    if !print_name(rt, out, name.as_bytes()) {
        return false;
    }
    let mut file = match fs::open(rt, name) {
        Ok(file) => file,
        Err(error) => {
            fail(rt, name, &error);
            return false;
        }
    };
    // One byte more than a day file or a script may have: a longer file is told from the longest one.
    let mut text = [0u8; 65537];
    let Some(n) = read_whole(rt, &mut file, name, &mut text) else {
        return false;
    };
    print(out, &text[..n])
}

// A line with each file's name, then what is printed of its text; the first file that fails is the last.
pub fn print_files<F: Fn(&mut Stdout, &[u8]) -> bool>(rt: &HostRuntime, print: F)
    requires { F.IsAlwaysCallable print }
{
    let names = match env::args(rt) {
        Ok(names) => names,
        Err(error) => {
            fail(rt, "arguments", &error);
            return;
        }
    };
    for name in names.skip(1) {
        if !run_file(rt, &mut rt.stdout(), name.as_str(), &print) {
            break;
        }
    }
}
