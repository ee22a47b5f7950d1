// A test program: checks and runs on slices of every boundary length, filled with garbage, one a line, with what the slices hold
// afterwards.
#![tactic(auto)]

use evaluation::Desk;
use feguavy::{feguavy_check, feguavy_run};
use streams::Devices;
use text::front;
use text::page::Page;

// The longest slices that are lent: three words more than a check asks for at the greatest limit, and than a run asks for.
const WORK: usize = 1048579;

const RUN_WORK: usize = 8195;

const RESULT: usize = 1027;

type Line = Page<16384>;

// The word that a slice holds at `i` before a call: never 0.
fn garbage(i: usize) -> u16 {
    (i % 20000) as u16 + 40000
}

// Fills the words with garbage.
fn spoil(words: &mut [u16]) {
    // over places: over the words themselves the compiler made a slower loop
    for i in 0..words.len() {
        words[i] = garbage(i);
    }
}

// How many zeros the words begin with.
fn zeros(words: &[u16]) -> usize {
    words.iter().take_while(|word| **word == 0).count()
}

// From where on the words are as they were.
fn kept_from(words: &[u16]) -> usize {
    let changed = words
        .iter()
        .enumerate()
        .rev()
        .find(|(i, word)| **word != garbage(*i));
    changed.map_or(0, |(i, _)| i + 1)
}

fn put_named(line: &mut Line, name: &[u8], value: usize) {
    line.text(name);
    line.decimal(value as u64);
}

// ` work LENGTH zeros=Z kept=K`: the first Z words are zeros, and those from K on are as they were.
fn put_work(line: &mut Line, words: &[u16]) {
    put_named(line, b" work ", words.len());
    put_named(line, b" zeros=", zeros(words));
    put_named(line, b" kept=", kept_from(words));
}

// ` out LENGTH |` and the words that changed.
fn put_result(line: &mut Line, words: &[u16]) {
    put_named(line, b" out ", words.len());
    line.text(b" |");
    line.numbers(front(words, kept_from(words)));
}

// ` | WORDS ->`.
fn put_term(line: &mut Line, term: &[u16]) {
    line.text(b" |");
    line.numbers(term);
    line.text(b" ->");
}

// Writes a line out. Where that fails, standard error says so, and the stored output differs.
fn print<R: Devices>(rt: &R, line: &[u8]) {
    if let Err(cut) = streams::write_all(rt, &mut rt.output(), line) {
        streams::say(rt, b"slices: standard output", cut.error.number);
    }
}

// A call on the first `room` and `size` words, where there are so many, which hold garbage, and its line: what was asked and answered,
// which the call writes, and what the slices hold then.
fn call_parts<R: Devices, F: FnOnce(&mut [u16], &mut [u16], &mut Line)>(
    rt: &R,
    work: &mut [u16],
    room: usize,
    res: &mut [u16],
    size: usize,
    call: F,
)
    requires { F.IsAlwaysCallable call }
{
    if work.len() < room || res.len() < size {
        return;
    }
    let work = &mut work[..room];
    let res = &mut res[..size];
    spoil(work);
    spoil(res);
    let mut line = Page::new();
    call(work, res, &mut line);
    put_work(&mut line, work);
    put_result(&mut line, res);
    line.byte(b'\n');
    print(rt, line.bytes());
}

// `check LIMIT | WORDS -> ANSWER PLACE LENGTH`.
fn check_on<R: Devices>(rt: &R, term: &[u16], limit: u32, room: usize, size: usize) {
    let mut work = [0u16; WORK];
    let mut result = [0u16; RESULT];
    call_parts(
        rt,
        &mut work,
        room,
        &mut result,
        size,
        |work: &mut [u16], output: &mut [u16], line: &mut Line| {
            let r = feguavy_check(term, limit, work, output);
            line.text(b"check");
            line.numbers(&[limit]);
            put_term(line, term);
            line.numbers(&[r.answer, r.place, r.length]);
        },
    );
}

// Whose run it is, the steps asked for, and the desk.
#[derive(Clone, Copy)]
struct Asked {
    caller: u32,
    budget: u32,
    desk: Desk,
}

// `run CALLER BUDGET ALLOWANCE … | WORDS -> ANSWER PLACE END STEPS BETA MU CANCEL left ALLOWANCE …`, with the eight allowances before
// and after. Its slices are its own: those of a check would be two megabytes more to clear for each run.
fn run_on<R: Devices>(rt: &R, term: &[u16], asked: Asked, room: usize, size: usize) {
    let mut work = [0u16; RUN_WORK];
    let mut result = [0u16; RESULT];
    call_parts(
        rt,
        &mut work,
        room,
        &mut result,
        size,
        |work: &mut [u16], state: &mut [u16], line: &mut Line| {
            let r = feguavy_run(term, asked.budget, work, state, asked.caller, asked.desk);
            line.text(b"run");
            line.numbers(&[asked.caller, asked.budget]);
            line.numbers(&asked.desk.allowances);
            put_term(line, term);
            line.numbers(&[
                r.answer,
                r.place,
                r.end,
                r.steps,
                r.substitutions,
                r.unfoldings,
                r.cancellations,
            ]);
            line.text(b" left");
            line.numbers(&r.desk.allowances);
        },
    );
}

// A check at each boundary length for a limit.
fn check_all<R: Devices>(rt: &R, term: &[u16], limit: u32) {
    let room = (1024 * limit as usize).min(WORK);
    let size = (limit as usize).min(RESULT);
    check_on(rt, term, limit, room, size);
    check_on(
        rt,
        term,
        limit,
        (room + 3).min(WORK),
        (size + 3).min(RESULT),
    );
    check_on(rt, term, limit, 0, size);
    check_on(rt, term, limit, room, 0);
    if 0 < room && 0 < size {
        check_on(rt, term, limit, room - 1, size);
        check_on(rt, term, limit, room, size - 1);
        check_on(rt, term, limit, room - 1, size - 1);
    }
}

// A run at each boundary length.
fn run_all<R: Devices>(rt: &R, term: &[u16], asked: Asked) {
    run_on(rt, term, asked, 8192, 1024);
    run_on(rt, term, asked, 8195, 1027);
    run_on(rt, term, asked, 8191, 1024);
    run_on(rt, term, asked, 8192, 1023);
    run_on(rt, term, asked, 8191, 1023);
    run_on(rt, term, asked, 0, 0);
}

// A run of a caller whose neighbours have other allowances than it has; past the eighth there is none.
fn run_for<R: Devices>(rt: &R, term: &[u16], caller: u32, budget: u32, allowance: u32) {
    let mut allowances = [11, 12, 13, 14, 15, 16, 17, u32::MAX];
    if let Some(own) = allowances.get_mut(caller as usize) {
        *own = allowance;
    }
    let desk = Desk { allowances };
    run_all(
        rt,
        term,
        Asked {
            caller,
            budget,
            desk,
        },
    );
}

fn all<R: Devices>(rt: &R, term: &[u16]) {
    for limit in [0, 1, 4, 5, 64, 1023, 1024, 1025, u32::MAX] {
        check_all(rt, term, limit);
    }
    run_for(rt, term, 0, 0, 7);
    run_for(rt, term, 3, 1, 7);
    run_for(rt, term, 7, 3, 2);
    run_for(rt, term, 0, 1000, u32::MAX);
    run_for(rt, term, 6, 5, 0);
    run_for(rt, term, 8, 5, 0);
    run_for(rt, term, u32::MAX, 1, 0);
}

// Star, a down cast on an up cast, a term that is stuck, the identity, one that runs on, one that grows; and words that are no
// term: a list that ends too early, a word with no meaning, no words.
fn main(rt: HostRuntime) {
    all(&rt, &[0]);
    all(&rt, &[1, 3, 2, 4, 0, 16, 0, 0]);
    all(&rt, &[2, 0, 0]);
    all(&rt, &[4, 0, 4, 16, 16]);
    all(&rt, &[6, 0, 16]);
    all(&rt, &[6, 0, 2, 16, 16]);
    all(&rt, &[2, 0]);
    all(&rt, &[7]);
    all(&rt, &[]);
}
