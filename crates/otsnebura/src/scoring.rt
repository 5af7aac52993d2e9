// `otsnebura score CARD CAPTURE SEEN ..`: each capture is replayed from set-up on, and its differences are collected.
use crate::pairs::{ScoreCall, score_call};
use crate::replaying::ends_early;
use cli_arguments::arguments::bad_usage;
use cli_card::card_file::load_card;
use cli_card::refusal::complain_refusal;
use cli_io::args::arg;
use cli_io::failure::{Failure, after_printing};
use cli_io::files::{PATH, name_file, open_file, overwrite_file};
use cli_io::input::Reading;
use cli_io::output::Output;
use cli_io::sink::Sink;
use cli_io::stop::Stop;
use cli_lateness::rows::Outputs;
use cli_lateness::seen_file::load_seen;
use cli_lateness::table::print_totals;
use cli_replay::capture_source::CaptureSource;
use cli_replay::session::{ReplaySession, begin_replay, fault_of};
use cli_run::flow::{Flow, Way};
use cli_run::memory::{CELLS, Card, Memory, WORDS};
use cli_run::turns::feed_all;
use describe_capture::fault_words::put_fault_message;
use describe_capture::finding::fault_byte;
use readiness::Moments;
use score::{Collected, collect, nothing_collected, total};
use std::fs::File;

// More than 9,000 differences have no totals, and one more shows it.
const MOST: usize = 9001;

// Room for a line after a name of 4096 bytes.
const ROOM: usize = 8192;

// What is scored, on which card.
#[derive(Clone, Copy)]
struct Job<'a> {
    rt: &'a HostRuntime,
    call: ScoreCall,
    card: &'a Card,
}

// ---- A replay

// Replays the open capture that argument i names on the card, from set-up on.
fn replay_open(job: Job<'_>, i: usize, file: &File) -> Result<ReplaySession, Stop> {
    let rt = job.rt;
    let card = job.card;
    let mut live = [0u32; WORDS];
    let mut cells = [0u32; CELLS];
    let mut memory = Memory::over(card, &mut live, &mut cells);
    let session = match memory.set_up() {
        Ok(session) => session,
        Err(number) => return Err(complain_refusal(rt, job.call.card, card, number)),
    };
    let mut flow = Flow::new(
        rt,
        Way {
            input: file,
            answers: Sink::Nowhere,
            quiet: true,
            progress: false,
        },
    );
    let mut capture = CaptureSource::begin(begin_replay(session), true);
    feed_all(rt, &mut capture, &mut memory, &mut flow);
    let state = capture.state;
    match flow.input.reading() {
        Reading::Failed(failure) => {
            failure.complain_read(rt, i, state.session.offset);
            Err(Stop::Unusable)
        }
        _ => Ok(state),
    }
}

// ---- The captures and their seen times

// How many slots the card has; the differences that were collected; the lines and rows that wait to be written; and whether a capture
// ended early.
#[derive(Drop)]
struct Score<'a> {
    slots: usize,
    values: [i64; MOST],
    of: [usize; MOST],
    collected: Collected,
    outputs: Outputs<'a>,
    early: bool,
}

// The line of a capture that ends early: number and place.
fn print_early(out: &mut Output<'_>, name: &[u8], state: ReplaySession) {
    let fault = fault_of(state);
    out.make_room(ROOM);
    let byte = fault_byte(state.session.offset, fault);
    out.put(|page| {
        page.put_text(name);
        page.put_text(b": ends early: ");
        put_fault_message(page, byte, fault);
    });
    out.end_line();
}

impl<'a> Score<'a> {
    fn new(job: Job<'a>, to: Sink<'a>) -> Score<'a> {
        let mut outputs = Outputs {
            printed: Output::new(Sink::Output(job.rt)),
            rows: Output::new(to),
        };
        outputs.begin_rows();
        Score {
            slots: job.card.setup.slots,
            values: [0; MOST],
            of: [0; MOST],
            collected: nothing_collected(),
            outputs,
            early: false,
        }
    }

    // What a replayed capture adds.
    fn add_replayed(&mut self, state: ReplaySession, seen: Moments, name: &[u8]) {
        let slots = self.slots;
        if ends_early(state) {
            print_early(&mut self.outputs.printed, name, state);
            self.early = true;
        }
        let bench = state.moments;
        let before = self.collected;
        self.collected = collect(&mut self.values, &mut self.of, before, slots, bench, seen);
        self.outputs.put_capture(name, slots, bench, seen);
    }

    // The same by the arguments of the capture, whose name stands in the lines, and of its seen times; nothing where one can't be read.
    fn add_pair(&mut self, job: Job<'_>, capture: usize, seen: usize) -> Result<(), Stop> {
        let rt = job.rt;
        let loaded = load_seen(rt, seen, job.card.setup.slots);
        let file = open_file(rt, capture)?;
        let times = loaded?;
        let state = replay_open(job, capture, &file)?;
        let mut room = [0u8; PATH];
        let name = arg(rt, capture, &mut room);
        self.add_replayed(state, times, name);
        Ok(())
    }

    // The rows that wait are written, and it is said where that fails, or where an earlier write did.
    fn close_rows(&mut self, job: Job<'_>) -> Result<(), Failure> {
        let written = self.outputs.rows.flush();
        if let (Err(failure), Some(csv)) = (written, job.call.csv) {
            name_file(job.rt, csv);
            failure.complain_write(job.rt);
        }
        written
    }

    // The totals are printed.
    fn close_printed(&mut self, rt: &HostRuntime) -> Result<(), Failure> {
        let mut list = [0i64; MOST];
        let collected = self.collected;
        print_totals(
            &mut self.outputs.printed,
            &self.values,
            &self.of,
            collected,
            &mut list,
        );
        after_printing(rt, self.outputs.printed.flush())
    }

    fn outcome(&self) -> Result<(), Stop> {
        if self.early || total(&self.values, self.collected).number != 0 {
            return Err(Stop::Refused);
        }
        Ok(())
    }
}

// Scores the captures, with rows to a file, or nowhere.
fn score_to(job: Job<'_>, to: Sink<'_>) -> Result<(), Stop> {
    let rt = job.rt;
    let mut score = Score::new(job, to);
    let read = job
        .call
        .each_pair(rt, |capture, seen| score.add_pair(job, capture, seen));
    let kept = score.close_rows(job);
    if read.is_err() {
        let _ = score.outputs.printed.flush();
        return Err(Stop::Unusable);
    }
    let printed = score.close_printed(rt);
    kept?;
    printed?;
    score.outcome()
}

// ---- The command

// The file of rows is opened once everything else could be.
fn score_opened(job: Job<'_>) -> Result<(), Stop> {
    match job.call.csv {
        None => score_to(job, Sink::Nowhere),
        Some(i) => {
            let rows = overwrite_file(job.rt, i)?;
            score_to(job, Sink::Kept(&rows))
        }
    }
}

pub fn score_command(rt: &HostRuntime) -> Result<(), Stop> {
    let Some(call) = score_call(rt) else {
        return Err(bad_usage(
            rt,
            b"score wants CARD and then CAPTURE and SEEN, once or more, and takes --csv FILE",
        ));
    };
    if call.overwrites_input(rt) {
        return Err(Stop::Unusable);
    }
    let card = load_card(rt, call.card)?;
    if let Some(number) = card.refusal() {
        return Err(complain_refusal(rt, call.card, &card, number));
    }
    call.look_at_all(rt, card.setup.slots)?;
    score_opened(Job {
        rt,
        call,
        card: &card,
    })
}
