// The report program of document 01: reads a term as words of two bytes, low byte first, and prints its type and its run.
#![tactic(auto)]

ghost use Rattle.std.specs.Prelude.{◌*◌, ◌≤◌, [], ◌∷◌, ◌++◌, ◌≡◌, length, take};
ghost use Rattle.text.specs.Appending.{appended};
ghost use Rattle.text.specs.Texts.{decimal, list};
ghost use Rattle.report.specs.Report.{judged, outcome, told, printed, report_of};

use evaluation::Desk;
use feguavy::{feguavy_check, feguavy_run};
use std::marker::Model;
use streams::Devices;
use term::walk::span;
use text::page::Page;
use text::{front, words};

// Room for a report: the lists take at most six bytes a word, and all else at most 80.
const ROOM: usize = 8192;

// A term's words, in room for `N`.
#[derive(Drop)]
struct Words<const N: usize> {
    room: [u16; N],
    count: usize,
}

impl<const N: usize> Model for Words<N> {
    ghost use Rattle.std.specs.Prelude.{ℕ, List, take};

    ghost Value = { List ℕ };

    ghost view = { λ w. take w.count w.room };
}

impl<const N: usize> Words<N> {
    fn first(count: usize, room: [u16; N]) -> Self
        ensures { result ≡ take count room.entry }
    {
        Words { room, count }
    }

    fn words(&self) -> &[u16]
        ensures words { result.now ≡ self.now }
        ensures within { length self.now ≤ N }
    {
        front(&self.room, self.count)
    }
}

// What is printed: the numbers are those of the C interface.
#[derive(Drop)]
struct Findings {
    answer: u32,
    place: u32,
    typ: Words<32>,
    end: u32,
    steps: u32,
    state: Words<1024>,
}

impl Model for Findings {
    ghost use Rattle.report.specs.Report.{Lines};

    ghost Value = { Lines };

    ghost view = { λ f. record { answer = f.answer; place = f.place; type = f.typ; end = f.end; steps = f.steps; state = f.state } };
}

impl Findings {
    // Those of a refused term.
    fn refused(answer: u32, place: u32) -> Self
        ensures { result ≡ record { answer = answer; place = place; type = []; end = 0; steps = 0; state = [] } }
    {
        Findings {
            answer,
            place,
            typ: Words::first(0, [0; 32]),
            end: 0,
            steps: 0,
            state: Words::first(0, [0; 1024]),
        }
    }

    // The six lines.
    fn report(&self) -> Page<ROOM>
        ensures { result ≡ printed self.now }
    {
        let mut page = Page::new();
        line(&mut page, b"answer=", self.answer);
        line(&mut page, b"place=", self.place);
        list_line(&mut page, b"type=", self.typ.words());
        line(&mut page, b"end=", self.end);
        line(&mut page, b"steps=", self.steps);
        list_line(&mut page, b"state=", self.state.words());
        page
    }
}

// Limit 32, budget and allowance 1,000, caller 0. "A refused term isn't run."
fn judge(term: &[u16]) -> Findings
    ensures { result ≡ told (judged term.now) }
{
    let mut work = [0u16; 32768];
    let mut output = [0u16; 32];
    let checked = feguavy_check(term, 32, &mut work, &mut output);
    let answer = checked.answer;
    if answer != 0 {
        return Findings::refused(answer, checked.place);
    }
    let mut state = [0u16; 1024];
    let ran = feguavy_run(term, 1000, &mut work, &mut state, 0, Desk::alone(1000));
    let count = span(&state);
    Findings {
        answer: 0,
        place: 0,
        typ: Words::first(checked.length as usize, output),
        end: ran.end,
        steps: ran.steps,
        state: Words::first(count, state),
    }
}

// An odd number of bytes, and one over 2,048, is no allowed length: 4 is C's number for that.
fn answer(bytes: &[u8]) -> Findings
    ensures { result ≡ told (outcome bytes.now) }
{
    if words::allowed(bytes) {
        let mut words = [0u16; 1024];
        words::of_bytes(bytes, &mut words);
        return judge(front(&words, bytes.len() / 2));
    }
    Findings::refused(4, 0)
}

// A name and its value, of at most ten digits as its type says, with a line feed.
#[tactic(auto, using(text::proofs::Appended::appends))]
fn line<const N: usize>(page: &mut Page<N>, name: &[u8], value: u32)
    ensures appends { page.new ≡ appended N page.old (name.now ++ decimal value ++ (10 ∷ [])) }
    ensures short { length (decimal value) ≤ 10 }
{
    page.text(name);
    page.decimal(u64::from(value));
    page.byte(b'\n');
}

// A name and its words, of at most five digits as their type says and parted by one space, with a line feed. Apart from `line`,
// since the bounds on the texts follow from the types.
#[tactic(auto, using(text::proofs::Appended::appends))]
fn list_line<const N: usize>(page: &mut Page<N>, name: &[u8], words: &[u16])
    ensures appends { page.new ≡ appended N page.old (name.now ++ list words.now ++ (10 ∷ [])) }
    ensures short { length (list words.now) ≤ 6 * length words.now }
{
    page.text(name);
    page.list(words);
    page.byte(b'\n');
}

// The report on the bytes that were read.
fn report(bytes: &[u8]) -> Page<ROOM>
    ensures { result ≡ report_of bytes.now }
{
    answer(bytes).report()
}

// What cannot be read or written is said on standard error, and the exit status is 0 all the same.
fn main(rt: HostRuntime) {
    let mut bytes = [0u8; 2049];
    match streams::read_full(&rt, &mut rt.input(), &mut bytes) {
        Ok(count) => {
            let page = report(&bytes[..count]);
            if let Err(cut) = streams::write_all(&rt, &mut rt.output(), page.bytes()) {
                streams::say(&rt, b"report: standard output", cut.error.number);
            }
        }
        Err(cut) => streams::say(&rt, b"report: standard input", cut.error.number),
    }
}
