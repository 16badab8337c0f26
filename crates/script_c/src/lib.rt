// Scripts for hosts in other languages: numbers and bytes alone cross the boundary.
#![tactic(auto)]

// The whole script in one buffer: how many bytes are printed, or 0 where the buffer has no room for them.
#[unsafe(no_mangle)]
pub extern "C" fn run_script(text: &[u8], out: &mut [u8]) -> usize {
    script::run_script(text, out)
}
