// The answers on their way to standard output, and what is said of them on standard error.
ghost use Rattle.std.specs.Prelude.{◌++◌, ◌≡◌, take, MatchResult, Some};
ghost use Rattle.text.specs.Appending.{appended};
ghost use Rattle.text.specs.Texts.{ascii, decimal};
ghost use Rattle.streams.specs.Feeds.{feeds};
ghost use Rattle.protocol.specs.Outputs.{none_yet, one_more, sent, sum, Flushed, Ready, Roomy};

use streams::{Cut, Devices, Errno};
use text::front;
use text::page::Page;

// Room for the longest line: a thousand words, and a path.
const LONGEST: usize = 16384;

// The steps of a run that may take long.
const LONG: u32 = 100000;

// How many answers were made and how many of these are written out whole, and what keeps the rest from being written.
#[derive(Clone, Copy)]
pub struct Output {
    pub answered: u64,
    pub written: u64,
    pub error: Option<Errno>,
}

impl Output {
    pub fn new() -> Self
        ensures { result ≡ none_yet }
    {
        Output {
            answered: 0,
            written: 0,
            error: None,
        }
    }

    // With one more answer.
    pub fn answered(self) -> Self
        ensures { result ≡ one_more self }
    {
        Output {
            answered: self.answered.saturating_add(1),
            ..self
        }
    }

    // With the page written out. Where that failed once, nothing is written behind the gap.
    pub fn flushed<R: Devices, const N: usize>(self, rt: &R, page: &mut Page<N>) -> Self
        ensures { Flushed self page.old result page.new }
    {
        if self.error.is_some() {
            return self;
        }
        let bytes = page.bytes();
        let put = streams::write_all(rt, &mut rt.output(), bytes);
        let after = self.told(bytes, put);
        page.clear();
        after
    }

    // With what became of the bytes that were to be written: all answers are, or those whose line feeds were taken.
    fn told(self, bytes: &[u8], put: Result<(), Cut>) -> Self
        ensures { MatchResult put (λ _. result ≡ sent self self.answered self.error)
            (λ cut. result ≡ sent self (sum self.written (feeds (take cut.count bytes.now))) (Some cut.error)) }
    {
        match put {
            Ok(()) => Output {
                written: self.answered,
                ..self
            },
            Err(cut) => {
                let lines = streams::lines(front(bytes, cut.count));
                Output {
                    written: self.written.saturating_add(lines as u64),
                    error: Some(cut.error),
                    ..self
                }
            }
        }
    }

    // Written out where the longest line might not fit.
    pub fn with_room<R: Devices, const N: usize>(self, rt: &R, page: &mut Page<N>) -> Self
        ensures { Roomy N self page.old result page.new }
    {
        if LONGEST <= page.room() {
            return self;
        }
        self.flushed(rt, page)
    }

    // Written out before a run that is granted so many steps that those before it should not wait for it.
    pub fn ready_for<R: Devices, const N: usize>(
        self,
        rt: &R,
        grant: u32,
        page: &mut Page<N>,
    ) -> Self
        ensures { Ready self grant page.old result page.new }
    {
        if LONG <= grant {
            return self.flushed(rt, page);
        }
        self
    }

    // Says on standard error why the rest is not answered, and which is the first without an answer:
    // `PROGRAM: answered N THINGs, not THING N+1: DEVICE: ` and the system's text.
    pub fn stopped<R: Devices>(
        self,
        rt: &R,
        program: &[u8],
        thing: &[u8],
        device: &[u8],
        error: u32,
    ) {
        let mut line = Page::<256>::new();
        opening(program, b": answered ", self.written, thing, &mut line);
        missing(thing, self.written.saturating_add(1), &mut line);
        line.text(device);
        streams::say(rt, line.bytes(), error);
    }

    // Says what became of the answers: a receipt where all are written.
    pub fn concluded<R: Devices>(self, rt: &R, program: &[u8], thing: &[u8]) {
        match self.error {
            Some(error) => self.stopped(rt, program, thing, b"standard output", error.number),
            None => self.receipt(rt, program, thing),
        }
    }

    // Says on standard error that all was answered and written: `PROGRAM: N THINGs answered`.
    fn receipt<R: Devices>(self, rt: &R, program: &[u8], thing: &[u8]) {
        let mut line = Page::<256>::new();
        opening(program, b": ", self.written, thing, &mut line);
        line.text(b" answered\n");
        // Where the last place to speak of it fails, nothing is left to say that.
        let _ = streams::write_all(rt, &mut rt.errors(), line.bytes());
    }
}

// `PROGRAM`, `WORD N` and ` THINGs`.
#[tactic(auto, using(text::proofs::Appended::appends), unfolding(text::specs::Texts::ascii))]
fn opening(program: &[u8], word: &[u8], count: u64, thing: &[u8], page: &mut Page<256>)
    ensures { page.new ≡ appended 256 page.old (program.now ++ word.now ++ decimal count ++ ascii " " ++ thing.now ++ ascii "s") }
{
    page.text(program);
    page.text(word);
    page.decimal(count);
    page.text(b" ");
    page.text(thing);
    page.text(b"s");
}

// `, not THING N: `.
#[tactic(auto, using(text::proofs::Appended::appends), unfolding(text::specs::Texts::ascii))]
fn missing(thing: &[u8], number: u64, page: &mut Page<256>)
    ensures { page.new ≡ appended 256 page.old (ascii ", not " ++ thing.now ++ ascii " " ++ decimal number ++ ascii ": ") }
{
    page.text(b", not ");
    page.text(thing);
    page.text(b" ");
    page.decimal(number);
    page.text(b": ");
}
