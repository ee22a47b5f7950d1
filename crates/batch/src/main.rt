// One request a line in, one answer a line out, each by itself: `check LIMIT | WORDS`, `run BUDGET ALLOWANCE | WORDS`,
// `kinds BUDGET ALLOWANCE | WORDS`, `part NUMBER | WORDS`.
#![tactic(auto)]

fn main(rt: HostRuntime) {
    session::serve(&rt, b"batch", false);
}
