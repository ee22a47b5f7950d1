// Request lines from standard input to its end, and their answers: what `batch` and `serial` do. Where the desk is kept, a request
// finds the one that those before it left; otherwise each is answered by itself.
#![tactic(auto)]

ghost use Rattle.std.specs.ControlFlow.{MatchControlFlow};
ghost use Rattle.std.specs.Prelude.{[], false, true, ◌≡◌};
ghost use Rattle.protocol.specs.Desks.{Serves};
ghost use Rattle.session.specs.Sessions.{
  answer_in,
  Answers,
  begun,
  Finishes,
  granted_in,
  Lasts,
  line_end,
  place,
  Takes,
  TakesChunk,
  Turns,
};
ghost use Rattle.session.specs.declared.Session.{Session};

use evaluation::Desk;
use protocol::output::Output;
use protocol::request::Request;
use protocol::{answer, desk};
use std::ops::ControlFlow;
use streams::Devices;
use text::page::Page;

// The request being read, the answers to those before it, the desk that they left, and whether it is kept.
#[derive(Clone, Copy)]
pub struct Session {
    pub request: Request,
    pub output: Output,
    pub desk: Desk,
    pub keeps: bool,
}

// The words of the request, the working slice and the page are lent beside the session: a struct of all four would be moved with its
// two megabytes, or hold references whose names every contract would have to keep.
impl Session {
    // Before the first byte, with no allowance for anyone.
    fn new(keeps: bool) -> Self
        ensures { result ≡ begun keeps }
    {
        Session {
            request: Request::new(),
            output: Output::new(),
            desk: Desk::alone(0),
            keeps,
        }
    }

    // The steps granted to the run that the request asks for.
    #[tactic(auto, unfolding(crate::specs::Sessions::granted_in))]
    fn granted(self) -> u32
        ensures { result ≡ granted_in self }
    {
        if self.keeps {
            return desk::granted(self.request, self.desk);
        }
        answer::granted(self.request)
    }

    // Appends the answer to the request: the desk after it.
    fn replied<const N: usize>(self, words: &[u16], work: &mut [u16], page: &mut Page<N>) -> Desk
        ensures { Serves N (answer_in self words.now work.old) work.new page.old result page.new }
    {
        if self.keeps {
            return desk::answer(self.request, self.desk, words, work, page);
        }
        answer::answer(self.request, words, work, page);
        self.desk
    }

    // With the request answered, unless the answers before it cannot be written.
    fn answered<R: Devices, const N: usize>(
        self,
        rt: &R,
        words: &[u16],
        work: &mut [u16],
        page: &mut Page<N>,
    ) -> Self
        ensures { Answers N (place self words.now work.old page.old) (place result words.now work.new page.new) }
    {
        let ready = self.output.ready_for(rt, self.granted(), page);
        if ready.error.is_some() {
            return Session {
                output: ready,
                ..self
            };
        }
        let after = self.replied(words, work, page);
        Session {
            request: Request::new(),
            output: ready.answered().with_room(rt, page),
            desk: after,
            ..self
        }
    }

    // At the end of a line: the request is answered. In place, as a short line is little more than a session handed on and back.
    #[inline(always)]
    fn line_ended<R: Devices, const N: usize>(
        self,
        rt: &R,
        words: &mut [u16],
        work: &mut [u16],
        page: &mut Page<N>,
    ) -> Self
        ensures { Answers N (line_end (place self words.old work.old page.old)) (place result words.new work.new page.new) }
    {
        let request = self.request.field_ended(words);
        Session { request, ..self }.answered(rt, words, work, page)
    }

    // With the bytes line by line, and no more once an answer cannot be written. No `for`: the request tells where a line ends.
    fn take_all<R: Devices, const N: usize>(
        self,
        rt: &R,
        input: &[u8],
        words: &mut [u16],
        work: &mut [u16],
        page: &mut Page<N>,
    ) -> Self
        ensures { Takes N input.now (place self words.old work.old page.old) (place result words.new work.new page.new) }
    {
        let mut now = self;
        let mut rest = input;
        while !rest.is_empty() {
            let fed = now.request.fed_line(rest, 0, words);
            now.request = fed.request;
            if rest.len() <= fed.at {
                return now;
            }
            rest = &rest[fed.at + 1..];
            now = now.line_ended(rt, words, work, page);
            if now.output.error.is_some() {
                return now;
            }
        }
        now
    }

    // With what was read at one go, and every answer to it written out.
    fn take_chunk<R: Devices, const N: usize>(
        self,
        rt: &R,
        input: &[u8],
        words: &mut [u16],
        work: &mut [u16],
        page: &mut Page<N>,
    ) -> Self
        ensures { TakesChunk N input.now (place self words.old work.old page.old) (place result words.new work.new page.new) }
    {
        let after = self.take_all(rt, input, words, work, page);
        Session {
            output: after.output.flushed(rt, page),
            ..after
        }
    }

    // At the end of the input: a last line with no line feed is answered too.
    fn finished<R: Devices, const N: usize>(
        self,
        rt: &R,
        words: &mut [u16],
        work: &mut [u16],
        page: &mut Page<N>,
    ) -> Self
        ensures { Finishes N (place self words.old work.old page.old) (place result words.new work.new page.new) }
    {
        let begun = self.request.begun();
        if !begun {
            return self;
        }
        let after = self.line_ended(rt, words, work, page);
        Session {
            output: after.output.flushed(rt, page),
            ..after
        }
    }
}

// Reads once. At the end of the input, or where that cannot be read or an answer cannot be written, nothing more is.
fn turn<R: Devices, const N: usize>(
    rt: &R,
    program: &[u8],
    session: Session,
    input: &mut [u8],
    words: &mut [u16],
    work: &mut [u16],
    page: &mut Page<N>,
) -> ControlFlow<Session, Session>
    ensures { MatchControlFlow result
        (λ s. Turns N (place session words.old work.old page.old) false (place s words.new work.new page.new))
        (λ s. Turns N (place session words.old work.old page.old) true (place s words.new work.new page.new)) }
{
    match streams::read(rt, &mut rt.input(), input) {
        Ok(0) => {
            let last = session.finished(rt, words, work, page);
            last.output.concluded(rt, program, b"request");
            ControlFlow::Break(last)
        }
        Ok(count) => {
            let after = session.take_chunk(rt, &input[..count], words, work, page);
            if after.output.error.is_some() {
                after.output.concluded(rt, program, b"request");
                return ControlFlow::Break(after);
            }
            ControlFlow::Continue(after)
        }
        Err(error) => {
            session
                .output
                .stopped(rt, program, b"request", b"standard input", error.number);
            ControlFlow::Break(session)
        }
    }
}

// Answers to the end of the input. A proved loop has to end: it counts to a number that no input uses up.
fn serve_on<R: Devices, const N: usize>(
    rt: &R,
    program: &[u8],
    keeps: bool,
    input: &mut [u8],
    words: &mut [u16],
    work: &mut [u16],
    page: &mut Page<N>,
)
    ensures { (last : Session) × Lasts N (place (begun keeps) words.old work.old []) (place last words.new work.new page.new) }
{
    // nothing waits to be written before the first answer, whatever the page held
    page.clear();
    let mut now = Session::new(keeps);
    for _ in 0..u64::MAX {
        match turn(rt, program, now, input, words, work, page) {
            ControlFlow::Continue(after) => now = after,
            ControlFlow::Break(_) => return,
        }
    }
}

// The same with slices of its own.
pub fn serve<R: Devices>(rt: &R, program: &[u8], keeps: bool) {
    let mut input = io::large_buffer();
    let mut words = [0u16; 1025];
    let mut work = [0u16; 1048576];
    let mut page = Page::<65536>::new();
    serve_on(
        rt, program, keeps, &mut input, &mut words, &mut work, &mut page,
    );
}
