// Modules in files: one path a line in, one answer a line out, a tab and the path behind it. The arguments are a request of `batch`
// without its bar and its words: `modules check LIMIT`, `modules run BUDGET ALLOWANCE`, `modules kinds BUDGET ALLOWANCE`,
// `modules part NUMBER`.
#![tactic(auto)]

ghost use Rattle.std.specs.Prelude.{[], ◌∷◌, ◌++◌, ◌≡◌};
ghost use Rattle.text.specs.Appending.{appended};
ghost use Rattle.text.specs.Texts.{ascii, spaced};
ghost use Rattle.protocol.specs.Answers.{Replies};
ghost use Rattle.modules.specs.Files.{file_reply, tabbed, Tells};

use protocol::answer;
use protocol::output::Output;
use protocol::request::Request;
use std::env::{Env, FillError};
use std::fs;
use std::ops::ControlFlow;
use std::rt::Files;
use streams::{Devices, Errno};
use text::page::Page;
use text::{front, words};

// The longest path that the system takes, and room for a byte more, so that one that was cut is too long.
const LONGEST: usize = 4095;

type Path = Page<4096>;

// The system's numbers: EINVAL, ENAMETOOLONG and EILSEQ.
const INVALID: Errno = Errno { number: 22 };

const TOO_LONG: Errno = Errno { number: 36 };

const NO_TEXT: Errno = Errno { number: 84 };

// `unreadable ERROR`, with the system's number.
#[tactic(auto, using(text::proofs::Appended::appends), unfolding(text::specs::Texts::ascii))]
fn unreadable<const N: usize>(error: Errno, page: &mut Page<N>)
    ensures { page.new ≡ appended N page.old (ascii "unreadable" ++ spaced (error.number ∷ [])) }
{
    page.text(b"unreadable");
    page.numbers(&[error.number]);
}

// All bytes of the file, one more than a term can have at most, or why they cannot be read. std opens a file by text alone, so a path
// that is no text names none.
fn load<R: Devices + Files>(rt: &R, path: &[u8], bytes: &mut [u8]) -> Result<usize, Errno> {
    if LONGEST < path.len() {
        return Err(TOO_LONG);
    }
    if path.contains(&0) {
        return Err(INVALID);
    }
    let name = str::from_utf8(path).map_err(|_| NO_TEXT)?;
    let mut file = fs::open(rt, name)?;
    streams::read_full(rt, &mut file, bytes).map_err(|cut| cut.error)
}

// The answer to a file's bytes. An odd number of them, or too many, is no allowed length: 4 is C's number for that.
fn judged<const N: usize>(request: Request, bytes: &[u8], work: &mut [u16], page: &mut Page<N>)
    ensures { Replies N (file_reply request bytes.now work.old) work.new page.old page.new }
{
    if !words::allowed(bytes) {
        return answer::refusal(4, 0, page);
    }
    let mut term = [0u16; 1024];
    words::of_bytes(bytes, &mut term);
    answer::line(request.with_count(bytes.len() / 2), &term, work, page);
}

// The answer to one path.
fn answered<R: Devices + Files, const N: usize>(
    rt: &R,
    request: Request,
    path: &[u8],
    work: &mut [u16],
    page: &mut Page<N>,
)
    ensures { Tells N request (λ a. a) work.old work.new page.old page.new }
{
    let mut bytes = [0u8; 2049];
    match load(rt, path, &mut bytes) {
        Ok(count) => judged(request, front(&bytes, count), work, page),
        Err(error) => unreadable(error, page),
    }
}

// The line of one path: the answer, a tab, the path and a line feed.
fn line<R: Devices + Files, const N: usize>(
    rt: &R,
    request: Request,
    path: &[u8],
    work: &mut [u16],
    page: &mut Page<N>,
)
    ensures { Tells N request (tabbed path.now) work.old work.new page.old page.new }
{
    answered(rt, request, path, work, page);
    page.byte(b'\t');
    page.text(path);
    page.byte(b'\n');
}

// Answers a path, unless the answers before it cannot be written. What is lent goes beside the output, as in `session`.
fn replied<R: Devices + Files, const N: usize>(
    rt: &R,
    before: Output,
    request: Request,
    path: &[u8],
    work: &mut [u16],
    page: &mut Page<N>,
) -> Output {
    let ready = before.ready_for(rt, answer::granted(request), page);
    if ready.error.is_some() {
        return ready;
    }
    line(rt, request, path, work, page);
    ready.answered().with_room(rt, page)
}

// Takes one byte: at a line feed the path is answered.
fn take<R: Devices + Files, const N: usize>(
    rt: &R,
    before: Output,
    request: Request,
    byte: u8,
    path: &mut Path,
    work: &mut [u16],
    page: &mut Page<N>,
) -> Output {
    if byte != b'\n' {
        path.byte(byte);
        return before;
    }
    let after = replied(rt, before, request, path.bytes(), work, page);
    path.clear();
    after
}

// Takes the bytes one by one, and no more once an answer cannot be written.
fn take_all<R: Devices + Files, const N: usize>(
    rt: &R,
    before: Output,
    request: Request,
    input: &[u8],
    path: &mut Path,
    work: &mut [u16],
    page: &mut Page<N>,
) -> Output {
    let mut now = before;
    for &byte in input {
        now = take(rt, now, request, byte, path, work, page);
        if now.error.is_some() {
            return now;
        }
    }
    now
}

// A last line with no line feed is answered too.
fn finished<R: Devices + Files, const N: usize>(
    rt: &R,
    last: Output,
    request: Request,
    path: &[u8],
    work: &mut [u16],
    page: &mut Page<N>,
) -> Output {
    if path.is_empty() {
        return last;
    }
    replied(rt, last, request, path, work, page).flushed(rt, page)
}

// Reads once, and writes out every answer to it. At the end of the input, or where that cannot be read or an answer cannot be written,
// nothing more is. The twin in `session` stays: one for both needs a trait with a ghost member for each call, to promise its `Turns`.
fn turn<R: Devices + Files, const N: usize>(
    rt: &R,
    before: Output,
    request: Request,
    input: &mut [u8],
    path: &mut Path,
    work: &mut [u16],
    page: &mut Page<N>,
) -> ControlFlow<(), Output> {
    match streams::read(rt, &mut rt.input(), input) {
        Ok(0) => {
            let last = finished(rt, before, request, path.bytes(), work, page);
            last.concluded(rt, b"modules", b"file");
            ControlFlow::Break(())
        }
        Ok(count) => {
            let taken = take_all(rt, before, request, &input[..count], path, work, page);
            let after = taken.flushed(rt, page);
            if after.error.is_some() {
                after.concluded(rt, b"modules", b"file");
                return ControlFlow::Break(());
            }
            ControlFlow::Continue(after)
        }
        Err(error) => {
            before.stopped(rt, b"modules", b"file", b"standard input", error.number);
            ControlFlow::Break(())
        }
    }
}

// Answers to the end of the input. A proved loop has to end: it counts to a number that no input uses up.
fn serve<R: Devices + Files, const N: usize>(
    rt: &R,
    request: Request,
    input: &mut [u8],
    path: &mut Path,
    work: &mut [u16],
    page: &mut Page<N>,
) {
    let mut now = Output::new();
    for _ in 0..u64::MAX {
        match turn(rt, now, request, input, path, work, page) {
            ControlFlow::Continue(after) => now = after,
            ControlFlow::Break(()) => return,
        }
    }
}

// The request that the arguments make, each a field of it. One that is empty or longer than any field is none.
fn asked<R: Env>(rt: &R, words: &mut [u16]) -> Request {
    let mut now = Request::new();
    let mut argument = [0u8; 64];
    for i in 1..usize::MAX {
        now = match rt.arg(i, &mut argument) {
            Err(FillError::NotPresent) => break,
            Ok(0) | Err(_) => now.fed(b'?', words),
            Ok(length) => front(&argument, length)
                .iter()
                .fold(now, |request, byte| request.fed(*byte, words))
                .fed(b' ', words),
        };
    }
    now.fed(b'|', words)
}

fn main(rt: HostRuntime) {
    let mut words = [0u16; 1];
    let request = asked(&rt, &mut words);
    if !answer::proper(request) {
        // Where the last place to speak of it fails, nothing is left to say that.
        let _ = streams::write_all(
            &rt,
            &mut rt.errors(),
            b"modules: check LIMIT, run BUDGET ALLOWANCE, kinds BUDGET ALLOWANCE or part NUMBER, and paths on standard input\n",
        );
        return;
    }
    let mut input = io::large_buffer();
    let mut path = Path::new();
    let mut work = [0u16; 1048576];
    let mut page = Page::<65536>::new();
    serve(&rt, request, &mut input, &mut path, &mut work, &mut page);
}
