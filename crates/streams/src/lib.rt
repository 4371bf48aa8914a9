// Standard input and output with nothing lost: each byte is moved, or a call failed; then the caller learns it, and standard error gets the caller's words and the system's reason.
#![tactic(auto)]

ghost use Rattle.std.specs.Prelude.{◌<◌, ◌≤◌, length, IfOk, MatchResult};

use std::fs::{File, OpenOptions};
use std::io::{Error, ErrorKind, Read, Write};
use std::time::Duration;
use std::{fs, io, thread};

// A read or a write failed after so many bytes; standard error was told.
#[derive(Clone, Copy, Debug, PartialEq, Eq)]
pub struct Failed {
    pub count: usize,
}

// One call failed, and standard error was told.
#[derive(Clone, Copy)]
struct Told;

// The caller's words and the system's reason, as a line on standard error.
fn tell(rt: &HostRuntime, words: &[u8], error: &Error) {
    let mut to = rt.stderr();
    let _ = to.write_all(words);
    let _ = to.write_all(b": ");
    if let Ok(text) = format!(in rt.alloc(); "{error}") {
        let end = text.find(" (os error ").unwrap_or(text.len());
        let _ = to.write_all(&text.as_bytes()[..end]);
    }
    let _ = to.write_all(b"\n");
}

// After a call that failed: it is made again where a signal came between, and after a thousandth of a second where the other end was not ready. Anything else is told.
fn retry(rt: &HostRuntime, words: &[u8], error: &Error) -> Result<(), Told> {
    match error.kind() {
        ErrorKind::Interrupted => Ok(()),
        ErrorKind::WouldBlock => {
            thread::sleep(rt, Duration::from_millis(1));
            Ok(())
        }
        _ => {
            tell(rt, words, error);
            Err(Told)
        }
    }
}

// One read that is answered: how many bytes came, none where the input ended.
fn read_some(rt: &HostRuntime, part: &mut [u8], words: &[u8]) -> Result<usize, Told>
    ensures { IfOk result (λ count. count ≤ length part.old) }
{
    for _ in 0..u64::MAX {
        match rt.stdin().read(part) {
            Ok(count) => return Ok(count),
            Err(error) => retry(rt, words, &error)?,
        }
    }
    Err(Told)
}

// Reads until all places hold a byte or the input ends: how many bytes came, or how many before a read failed.
pub fn fill(rt: &HostRuntime, all: &mut [u8], words: &[u8]) -> Result<usize, Failed>
    ensures { MatchResult result (λ count. count ≤ length all.old) (λ failed. failed.count ≤ length all.old) }
{
    let mut at = 0;
    while at < all.len() {
        let Ok(came) = read_some(rt, &mut all[at..], words) else {
            return Err(Failed { count: at });
        };
        if came == 0 {
            break;
        }
        at += came;
    }
    Ok(at)
}

// One write that is answered: how many bytes it took.
fn write_some(rt: &HostRuntime, part: &[u8], words: &[u8]) -> Result<usize, Told>
    ensures { IfOk result (λ count. (0 < count) × (count ≤ length part.now)) }
{
    for _ in 0..u64::MAX {
        match rt.stdout().write(part) {
            Ok(0) => {
                tell(rt, words, &ErrorKind::WriteZero.into());
                break;
            }
            Ok(count) => return Ok(count),
            Err(error) => retry(rt, words, &error)?,
        }
    }
    Err(Told)
}

// Writes all of it, or stops at the first write that fails: what was written is then the front of it, so many bytes long.
pub fn put(rt: &HostRuntime, all: &[u8], words: &[u8]) -> Result<(), Failed> {
    let mut at = 0;
    while at < all.len() {
        let Ok(took) = write_some(rt, &all[at..], words) else {
            return Err(Failed { count: at });
        };
        at += took;
    }
    Ok(())
}

// Standard output as a file of the system.
const OUTPUT: &str = "/proc/self/fd/1";

// Standard output opened once more: to go on behind its end, or where that may not be, to read it.
fn opened(rt: &HostRuntime) -> io::Result<File> {
    OpenOptions::new()
        .append(true)
        .open(rt, OUTPUT)
        .or_else(|_| File::open(rt, OUTPUT))
}

// What the system answers where no file stands behind a descriptor: EBADF.
const CLOSED: i32 = 9;

// Has the system store what was written where standard output is a file. One that cannot be opened once more is passed over; that it is closed shows at a write of nothing.
fn stored(rt: &HostRuntime) -> io::Result<()> {
    if let Err(error) = rt.stdout().write(b"")
        && error.raw_os_error() == Some(CLOSED)
    {
        return Err(error);
    }
    let Ok(about) = fs::metadata(rt, OUTPUT) else {
        return Ok(());
    };
    if !about.is_file() {
        return Ok(());
    }
    let Ok(file) = opened(rt) else {
        return Ok(());
    };
    file.sync_all()
}

// Has the system store what was written, since some systems tell only then that it found no room. What cannot be stored, or is interrupted, is no failure.
pub fn finish(rt: &HostRuntime, words: &[u8]) {
    if let Err(error) = stored(rt) {
        match error.kind() {
            ErrorKind::Interrupted | ErrorKind::InvalidInput | ErrorKind::Unsupported => {}
            _ => tell(rt, words, &error),
        }
    }
}
