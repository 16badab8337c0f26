// A library for hosts in other languages: a day's text goes in, what it prints comes out. Numbers and bytes alone cross
// the boundary, since an exported function takes no enum and nothing that holds one.
#![tactic(auto)]

mod checked;

ghost use Rattle.dayfile.specs.Run.{Prints};

// The whole day: how many bytes are printed, or 0 where the buffer has no room for them.
#[unsafe(no_mangle)]
pub extern "C" fn run_day(text: &[u8], out: &mut [u8]) -> usize
    ensures { Prints text.now out.old result out.new }
{
    dayfile::whole_day(text, out)
}

// The same by the public calls of `engine`, each of which tests the state first: it prints the same. For tests and
// measurements of those calls.
#[unsafe(no_mangle)]
pub extern "C" fn run_day_checked(text: &[u8], out: &mut [u8]) -> usize
    ensures { Prints text.now out.old result out.new }
{
    checked::whole_day(text, out)
}
