// The batch program: answers the lines of standard input as they come, and prints the totals at its
// end. What it does between reading and printing is defined in specs/Run.antt, what its arguments ask for
// in specs/Task.antt. Why a run was cut short is told on standard error, but where nobody reads its output.
#![tactic(auto)]

mod run;
mod stream;
mod task;
mod tell;

use run::do_task;
use std::process::ExitCode;
use task::requested_task;

fn main(rt: HostRuntime) -> ExitCode {
    let task = requested_task(&rt);
    do_task(&rt, task, &mut rt.stdin(), &mut rt.stdout())
}
