// Runs the cases of the symbol report that standard input lists.
#![tactic(auto)]

use std::io;

fn main(rt: HostRuntime) -> io::Result<()> {
    let tally = case_runs::run_report(&rt)?;
    rt.println(tally)
}
