// `otsnebura run CARD TRACE` and `otsnebura replay CARD CAPTURE`: the card is set up, the file is fed, and the end is printed.
use crate::options::Options;
use crate::replaying::close_replay;
use cli_card::refusal::complain_refusal;
use cli_io::failure::{Failure, after_printing};
use cli_io::files::{name_file, overwrite_file};
use cli_io::input::Reading;
use cli_io::sink::Sink;
use cli_io::stop::Stop;
use cli_replay::capture_source::CaptureSource;
use cli_replay::session::begin_replay;
use cli_run::ending::print_ending;
use cli_run::flow::{Flow, Way};
use cli_run::memory::{CELLS, Card, Memory, WORDS};
use cli_run::session::Session;
use cli_run::trace_source::TraceSource;
use cli_run::turns::feed_all;
use readiness::Moments;
use std::fs::File;
use std::io::IsTerminal;

// What is fed: a trace, or a capture, perhaps with the times at which its slots were seen.
#[derive(Clone, Copy)]
pub enum Fed {
    Trace,
    Capture(Option<Moments>),
}

// What the command runs or replays, and with which options.
#[derive(Clone, Copy)]
pub struct Job<'a> {
    pub rt: &'a HostRuntime,
    pub options: Options,
    pub fed: Fed,
}

// ---- The end

// The answers that wait are written, and it is said where that fails, or where an earlier write did.
pub fn close_answers(job: Job<'_>, flow: &mut Flow<'_>) -> Result<(), Failure> {
    let written = flow.kept.flush();
    if let (Err(failure), Some(answers)) = (written, job.options.answers) {
        name_file(job.rt, answers);
        failure.complain_write(job.rt);
    }
    written
}

// What is wrong with the trace is said, if anything is.
fn outcome_of_run(job: Job<'_>, session: &Session) -> Result<(), Stop> {
    let fault = session.fault();
    if let Some(fault) = fault {
        fault.complain(job.rt, job.options.input, session.fault_offset());
    }
    if session.number != 0 || fault.is_some() {
        return Err(Stop::Refused);
    }
    Ok(())
}

// Everything is written, and what went wrong is said.
fn close_run(
    job: Job<'_>,
    memory: &Memory<'_>,
    session: &Session,
    flow: &mut Flow<'_>,
) -> Result<(), Stop> {
    flow.end_progress(job.rt, session.offset);
    let kept = close_answers(job, flow);
    print_ending(&mut flow.printed, memory, session);
    let printed = after_printing(job.rt, flow.printed.flush());
    if let Reading::Failed(failure) = flow.input.reading() {
        failure.complain_read(job.rt, job.options.input, session.offset);
        return Err(Stop::Unusable);
    }
    let outcome = outcome_of_run(job, session);
    kept?;
    printed?;
    outcome
}

// ---- Feeding

// Feeds the trace after a set-up, or replays the capture.
fn run_session(
    job: Job<'_>,
    memory: &mut Memory<'_>,
    session: Session,
    way: Way<'_>,
) -> Result<(), Stop> {
    let rt = job.rt;
    let mut flow = Flow::new(rt, way);
    match job.fed {
        Fed::Trace => {
            let mut trace = TraceSource::begin(session);
            feed_all(rt, &mut trace, &mut *memory, &mut flow);
            close_run(job, memory, &trace.session, &mut flow)
        }
        Fed::Capture(seen) => {
            let mut capture = CaptureSource::begin(begin_replay(session), way.quiet);
            feed_all(rt, &mut capture, &mut *memory, &mut flow);
            close_replay(job, seen, memory, capture.state, &mut flow)
        }
    }
}

// ---- Where what is fed comes from and the answers go

// Progress is for a terminal that shows no lines of records.
fn shows_progress(rt: &HostRuntime, quiet: bool) -> bool {
    let out = rt.stdout().is_terminal();
    rt.stderr().is_terminal() && (quiet || !out)
}

fn way_of<'a>(job: Job<'_>, input: &'a File, answers: Sink<'a>) -> Way<'a> {
    let quiet = job.options.quiet;
    Way {
        input,
        answers,
        quiet,
        progress: shows_progress(job.rt, quiet),
    }
}

// Sets the card up, and feeds an open file, with answers to a file where one is named, which is opened after the set-up.
pub fn run(job: Job<'_>, card: &Card, input: &File) -> Result<(), Stop> {
    let mut live = [0u32; WORDS];
    let mut cells = [0u32; CELLS];
    let mut memory = Memory::over(card, &mut live, &mut cells);
    let session = match memory.set_up() {
        Ok(session) => session,
        Err(number) => return Err(complain_refusal(job.rt, job.options.card, card, number)),
    };
    match job.options.answers {
        None => {
            let way = way_of(job, input, Sink::Nowhere);
            run_session(job, &mut memory, session, way)
        }
        Some(i) => {
            let answers = overwrite_file(job.rt, i)?;
            let way = way_of(job, input, Sink::Kept(&answers));
            run_session(job, &mut memory, session, way)
        }
    }
}
