// Replays answers of the independent implementation that stands in tests/independent: the cases of the rewriter that standard input lists, a fixed
// list that `replay stdin` there wrote (docs/COMPARISON.md).
#![tactic(auto)]

use std::io;

fn main(rt: HostRuntime) -> io::Result<()> {
    let tally = case_runs::run_rewriter(&rt)?;
    rt.println(tally)
}
