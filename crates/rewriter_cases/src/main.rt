// Runs the cases of the rewriter that standard input lists: the twelve, and more.
#![tactic(auto)]

use std::io;

fn main(rt: HostRuntime) -> io::Result<()> {
    let tally = case_runs::run_rewriter(&rt)?;
    rt.println(tally)
}
