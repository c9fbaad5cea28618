// What the arguments ask for.
ghost use Rattle.std.specs.Prelude.{◌≡◌, map, string_bytes};
ghost use Rattle.fade.specs.Task.{task_of};

use std::rt::Env;
use std::{env, io};

// What the program is to do.
#[derive(Clone, Copy)]
pub(crate) enum Task {
    AnswerInput,
    Help,
    Version,
    Usage,
}

// What some arguments ask for, the program's own name not among them.
fn task_of(args: &[String]) -> Task
    ensures { result ≡ task_of (map string_bytes args.now) }
{
    match args {
        [] => Task::AnswerInput,
        [arg] => match arg.as_str() {
            "--help" => Task::Help,
            "--version" => Task::Version,
            _ => Task::Usage,
        },
        _ => Task::Usage,
    }
}

// What the arguments of this run ask for. One that is no text asks for nothing that is known.
pub(crate) fn requested_task<R: Env + AllocGlobal>(rt: &R) -> Task {
    match arguments(rt) {
        Ok(args) => task_of(args.as_slice()),
        Err(_) => Task::Usage,
    }
}

// The arguments after the program's name.
fn arguments<R: Env + AllocGlobal>(rt: &R) -> io::Result<Vec<String>> {
    let mut args = env::args(rt)?;
    let _ = args.next();
    Ok(args.collect(rt.alloc())?)
}
