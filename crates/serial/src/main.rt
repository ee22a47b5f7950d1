// One request a line in, one answer a line out, as `batch` has them, and requests that depend on those before them:
// `desk new ALLOWANCE …`, `desk run CALLER BUDGET | WORDS`, `desk show`.
#![tactic(auto)]

fn main(rt: HostRuntime) {
    session::serve(&rt, b"serial", true);
}
