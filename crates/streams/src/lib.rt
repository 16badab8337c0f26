// Input to its end and output from a buffer. What would block or was interrupted is tried again, what moved in part goes on from
// where it stands, and anything else is said on standard error and ends the reading or writing.
#![tactic(auto)]

ghost use Rattle.std.specs.Prelude.{◌<◌, ◌≤◌, ◌≡◌, IfSome, length, take};
ghost use Rattle.streams.specs.Fits.{Fits, More};

use std::io::{Error, ErrorKind, Read, Write};
use std::rt::Clock;
use std::time::Duration;
use std::{str, thread};

// A pause is a millisecond: a stream on which nothing moves for about five minutes is given up, since every function ends.
const PAUSES: u32 = 300_000;

fn pause(rt: &impl Clock) {
    thread::sleep(rt, Duration::from_millis(1));
}

// The system's words alone: std adds the error's number to them.
fn words_of(text: &str) -> &str {
    match text.split_once(" (os error ") {
        Some((words, _)) => words,
        None => text,
    }
}

// A line on standard error: what failed, and the system's words for it.
pub fn fail(rt: &impl Eprint, name: &str, error: &Error) {
    let mut text = [0u8; 512];
    let mut room = &mut text[..];
    let _ = write!(room, "{error}");
    let left = room.len();
    let n = text.len().saturating_sub(left);
    let words = words_of(str::from_utf8(&text[..n]).unwrap_or(""));
    let _ = eprintln!(rt; "{name}: {words}");
}

// Waits a moment after a call that failed, unless it failed for good: that is said.
fn goes_on<R: Clock + Eprint>(rt: &R, name: &str, error: &Error) -> bool {
    if !matches!(error.kind(), ErrorKind::WouldBlock | ErrorKind::Interrupted) {
        fail(rt, name, error);
        return false;
    }
    pause(rt);
    true
}

fn give_up(rt: &impl Eprint, name: &str) {
    let _ = eprintln!(rt; "{name}: nothing moved for five minutes");
}

// One read: how many bytes there are, with 0 at the input's end; `None` where standard error says why there are none.
fn read_some<R: Clock + Eprint, F: Read>(
    rt: &R,
    file: &mut F,
    name: &str,
    buf: &mut [u8],
) -> Option<usize>
    ensures { Fits result buf.new }
{
    for _ in 0..PAUSES {
        match file.read(buf) {
            Ok(n) => return Some(n),
            Err(error) => {
                if !goes_on(rt, name, &error) {
                    return None;
                }
            }
        }
    }
    give_up(rt, name);
    None
}

// One read into buf from `from` on; what stands before it stays.
fn read_on<R: Clock + Eprint, F: Read>(
    rt: &R,
    file: &mut F,
    name: &str,
    buf: &mut [u8],
    from: usize,
) -> Option<usize>
    requires { from ≤ length buf.old }
    ensures more { More result from buf.new }
    ensures buf_unchanged { take from buf.new ≡ take from buf.old }
{
    read_some(rt, file, name, &mut buf[from..])
}

// Reads until buf is full or the input ends: how many bytes that are; `None` where standard error says why they are not the
// whole input.
pub fn read_whole<R: Clock + Eprint, F: Read>(
    rt: &R,
    file: &mut F,
    name: &str,
    buf: &mut [u8],
) -> Option<usize>
    ensures { Fits result buf.new }
{
    let mut done = 0;
    while done < buf.len() {
        let n = read_on(rt, file, name, buf, done)?;
        if n == 0 {
            break;
        }
        done += n;
    }
    Some(done)
}

// One write: how many bytes went through; `None` where standard error says why none did. Not one loop with `read_some`: there
// 0 bytes are the end, here they are tried again.
fn write_some<R: Clock + Eprint, W: Write>(
    rt: &R,
    file: &mut W,
    name: &str,
    bytes: &[u8],
) -> Option<usize>
    ensures { IfSome result (λ n. (0 < n) × (n ≤ length bytes.now)) }
{
    for _ in 0..PAUSES {
        match file.write(bytes) {
            Ok(0) => pause(rt),
            Ok(put) => return Some(put),
            Err(error) => {
                if !goes_on(rt, name, &error) {
                    return None;
                }
            }
        }
    }
    give_up(rt, name);
    None
}

// Writes the bytes to standard output, and answers whether all of them went through: why not is said already.
pub fn write_whole<R: Clock + Eprint, W: Write>(rt: &R, file: &mut W, bytes: &[u8]) -> bool {
    let mut left = bytes;
    while !left.is_empty() {
        let Some(put) = write_some(rt, file, "standard output", left) else {
            return false;
        };
        left = &left[put..];
    }
    true
}
