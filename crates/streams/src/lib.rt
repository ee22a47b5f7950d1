// Reading and writing that lose nothing: a call that a signal interrupts is made again, one that would block is made again after a
// pause, and any other failure is answered by its number, with how many bytes were moved before it.
#![tactic(auto)]

ghost use Rattle.std.specs.Prelude.{ℕ, ◌<◌, ◌≤◌, ◌||◌, ◌≡◌, eqb, length, take, IfErr, IfOk, IsErr, MatchOption, MatchResult};
ghost use Rattle.std.specs.Io.KnownBytes.{Appends, WriteAppends};
ghost use Rattle.io.specs.Counts.{IsPrefixLen};
ghost use Rattle.streams.specs.Feeds.{feeds};

use std::io::{Cursor, Error, Read, Stderr, Stdin, Stdout, Write};
use std::thread;
use std::time::{Clock, Duration};

// The system's numbers: EINTR, EIO and EAGAIN, which is also EWOULDBLOCK. What `again` promises is said of them.
const INTERRUPTED: u32 = 4;

const DEVICE: Errno = Errno { number: 5 };

const BLOCKED: u32 = 11;

// What a program reads, what it writes, where it says what failed, and the clock by which it waits.
pub trait Devices: Clock {
    type Input: Read + Drop;

    type Output: Write + Drop;

    type Errors: Write + Drop;

    fn input(&self) -> Self::Input;

    fn output(&self) -> Self::Output;

    fn errors(&self) -> Self::Errors;
}

// The process's own.
impl Devices for HostRuntime {
    type Input = Stdin;

    type Output = Stdout;

    type Errors = Stderr;

    fn input(&self) -> Stdin {
        self.stdin()
    }

    fn output(&self) -> Stdout {
        self.stdout()
    }

    fn errors(&self) -> Stderr {
        self.stderr()
    }
}

// The system's number of what failed, which is never 0.
#[derive(Clone, Copy, Debug, PartialEq, Eq)]
pub struct Errno {
    pub number: u32,
    ghost nonzero: { 0 < number },
}

impl From<Error> for Errno {
    // An error that has no number counts as one of the device.
    fn from(failed: Error) -> Self {
        match failed.raw_os_error() {
            Some(error) if 0 < error => Errno {
                number: error as u32,
            },
            _ => DEVICE,
        }
    }
}

// What cut a transfer short, and how many bytes were moved before.
#[derive(Clone, Copy, Debug, PartialEq, Eq)]
pub struct Cut {
    pub count: usize,
    pub error: Errno,
}

// Waits for a millisecond, and costs no core.
fn pause<C: Clock>(clock: &C) {
    thread::sleep(clock, Duration::from_millis(1));
}

// Whether the call is to be made again. Where it would have blocked, that is after a pause.
fn again<C: Clock>(clock: &C, error: Errno) -> bool
    ensures { result ≡ eqb error.number 11 || eqb error.number 4 }
{
    match error.number {
        BLOCKED => {
            pause(clock);
            true
        }
        number => number == INTERRUPTED,
    }
}

// What a call answered, or nothing where it is to be made again.
fn settled<C: Clock>(clock: &C, answer: std::io::Result<usize>) -> Option<Result<usize, Errno>>
    ensures { MatchOption result (IsErr answer) (λ r. MatchResult r (λ n. answer ≡ Ok n) (λ _. IsErr answer)) }
{
    match answer {
        Ok(count) => Some(Ok(count)),
        Err(failed) => {
            let error = Errno::from(failed);
            if again(clock, error) {
                None
            } else {
                Some(Err(error))
            }
        }
    }
}

// One write of at least one byte: a write that takes nothing and says no error failed too. A proved loop has to end: it counts to a
// number that no device uses up.
fn write_some<C: Clock, W: Write>(clock: &C, to: &mut W, bytes: &[u8]) -> Result<usize, Errno>
    ensures within { IfOk result (λ n. n ≤ length bytes.now) }
    ensures some { IfOk result (λ n. 0 < n) }
    ensures bytes { WriteAppends (W.contents to.old) (W.contents to.new) result bytes.now }
{
    for _ in 0..u64::MAX {
        match settled(clock, to.write(bytes)) {
            Some(Ok(0)) => return Err(DEVICE),
            Some(put) => return put,
            None => {}
        }
    }
    Err(DEVICE)
}

// Writes all of `bytes`, or as many as the device takes. No `for`: it goes on by as many as were taken.
pub fn write_all<C: Clock, W: Write>(clock: &C, to: &mut W, bytes: &[u8]) -> Result<(), Cut>
    ensures within { IfErr result (λ cut. cut.count ≤ length bytes.now) }
    ensures bytes { MatchResult result (λ _. Appends (W.contents to.old) (W.contents to.new) bytes.now)
        (λ cut. Appends (W.contents to.old) (W.contents to.new) (take cut.count bytes.now)) }
{
    let mut count = 0;
    while count < bytes.len() {
        match write_some(clock, to, &bytes[count..]) {
            Ok(taken) => count += taken,
            Err(error) => return Err(Cut { count, error }),
        }
    }
    Ok(())
}

// One read: no bytes at the end of the input.
pub fn read<C: Clock, R: Read>(clock: &C, from: &mut R, buffer: &mut [u8]) -> Result<usize, Errno>
    ensures { IfOk result (λ n. IsPrefixLen n buffer.new) }
{
    for _ in 0..u64::MAX {
        if let Some(got) = settled(clock, from.read(buffer)) {
            return got;
        }
    }
    Err(DEVICE)
}

// Reads until the buffer is full, the input ends or a read fails. No `for`: it goes on by as many as came.
pub fn read_full<C: Clock, R: Read>(
    clock: &C,
    from: &mut R,
    buffer: &mut [u8],
) -> Result<usize, Cut>
    ensures { MatchResult result (λ n. IsPrefixLen n buffer.new) (λ cut. IsPrefixLen cut.count buffer.new) }
{
    let mut filled = 0;
    while filled < buffer.len() {
        match read(clock, from, &mut buffer[filled..]) {
            Ok(0) => break,
            Ok(got) => filled += got,
            Err(error) => return Err(Cut {
                count: filled,
                error,
            }),
        }
    }
    Ok(filled)
}

// How many line feeds there are.
pub fn lines(bytes: &[u8]) -> usize
    ensures { result ≡ feeds bytes.now }
{
    bytes.iter().filter(|byte| **byte == b'\n').count()
}

// The text before the last ` (`, or none: std ends the system's text for an error by ` (os error N)`.
fn before_number(text: &[u8]) -> &[u8]
    ensures { (n : ℕ) × (result.now ≡ take n text.now) }
{
    let end = text.iter().rposition(|byte| *byte == b'(').unwrap_or(0);
    &text[..end.saturating_sub(1)]
}

// std's text for an error with zeros behind it, or zeros alone where it does not fit.
fn described(error: u32) -> [u8; 320] {
    let Ok(code) = i32::try_from(error) else {
        return [0u8; 320];
    };
    let mut text = Cursor::new([0u8; 320]);
    if write!(text, "{}", Error::from_raw_os_error(code)).is_err() {
        return [0u8; 320];
    }
    text.into_inner()
}

// Writes a line to standard error: what failed, and the system's text for `error`, or its number. Where that fails too, nothing is left
// to say it. Any number may be said, so this takes no `Errno`.
pub fn say<R: Devices>(rt: &R, what: &[u8], error: u32) {
    let mut errors = rt.errors();
    let described = described(error);
    let text = before_number(&described);
    let mut digits = [0u8; 20];
    let count = io::decimal(u64::from(error), &mut digits);
    let number = &digits[..count];
    if text.is_empty() {
        for part in [what, b": error ", number, b"\n"] {
            let _ = write_all(rt, &mut errors, part);
        }
    } else {
        for part in [what, b": ", text, b"\n"] {
            let _ = write_all(rt, &mut errors, part);
        }
    }
}
