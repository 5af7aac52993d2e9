// How a run of the program ends. Its exit status says so where its last argument is `--status`, which the script `otsnebura` adds;
// else the exit status is 0.
use crate::arguments::arg_count;
use cli_io::args;
use cli_io::stop::Stop;
use std::process::ExitCode;

// Whether the script wants the exit status.
fn wants_status(rt: &HostRuntime) -> bool {
    arg_count(rt) < args::arg_count(rt)
}

// The exit status of a run.
pub fn report(rt: &HostRuntime, ended: Result<(), Stop>) -> ExitCode {
    match ended {
        Err(stop) if wants_status(rt) => ExitCode::from(stop),
        _ => ExitCode::SUCCESS,
    }
}
