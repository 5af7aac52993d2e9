// The commands, by the first argument.
use crate::answers::overwrites_input;
use crate::help::help;
use crate::options::{Options, options_given};
use crate::run::{Fed, Job, run};
use crate::scoring::score_command;
use cli_arguments::arguments::{arg_count, arg_is, bad_usage};
use cli_card::card_file::load_card;
use cli_card::card_shown::show_card;
use cli_io::args::arg;
use cli_io::files::open_file;
use cli_io::stop::Stop;
use cli_lateness::seen_file::load_seen;
use cli_sheet::code_shown::code_command;
use cli_sheet::sheet_shown::{SheetCall, sheet_command};
use cli_tools::message::message_command;
use cli_tools::pack::pack;
use cli_tools::show::show;
use cli_tools::show_capture::show_capture;
use std::fs::File;

enum CommandName {
    Help,
    Run,
    Replay,
    Score,
    Card,
    Sheet,
    Code,
    Show,
    Pack,
    Message,
}

impl CommandName {
    fn of(word: &[u8]) -> Option<CommandName> {
        match word {
            b"--help" | b"-h" | b"help" => Some(CommandName::Help),
            b"run" => Some(CommandName::Run),
            b"replay" => Some(CommandName::Replay),
            b"score" => Some(CommandName::Score),
            b"card" => Some(CommandName::Card),
            b"sheet" => Some(CommandName::Sheet),
            b"code" => Some(CommandName::Code),
            b"show" => Some(CommandName::Show),
            b"pack" => Some(CommandName::Pack),
            b"message" => Some(CommandName::Message),
            _ => None,
        }
    }
}

// ---- Show, pack

// Does something with the file that argument i names.
fn with_file<F: FnOnce(&File) -> Result<(), Stop>>(
    rt: &HostRuntime,
    i: usize,
    act: F,
) -> Result<(), Stop>
    requires { F.IsAlwaysCallable act }
{
    let file = open_file(rt, i)?;
    act(&file)
}

fn show_trace(rt: &HostRuntime, i: usize) -> Result<(), Stop> {
    with_file(rt, i, |file| show(rt, file, i))
}

fn show_captured(rt: &HostRuntime, i: usize) -> Result<(), Stop> {
    with_file(rt, i, |file| show_capture(rt, file, i))
}

fn show_command(rt: &HostRuntime) -> Result<(), Stop> {
    let first = arg_is(rt, 2, b"--capture");
    match arg_count(rt) {
        3 if !first => show_trace(rt, 2),
        4 if first => show_captured(rt, 3),
        4 if arg_is(rt, 3, b"--capture") => show_captured(rt, 2),
        _ => Err(bad_usage(
            rt,
            b"show wants one file, TRACE, or --capture and one file, CAPTURE",
        )),
    }
}

fn pack_command(rt: &HostRuntime) -> Result<(), Stop> {
    if arg_count(rt) != 3 {
        return Err(bad_usage(rt, b"pack wants one file, HEX"));
    }
    with_file(rt, 2, |file| pack(rt, file, 2))
}

// ---- Card, sheet

fn card_command(rt: &HostRuntime) -> Result<(), Stop> {
    if arg_count(rt) != 3 {
        return Err(bad_usage(rt, b"card wants one file, CARD"));
    }
    let card = load_card(rt, 2)?;
    show_card(rt, 2, &card)
}

// The card with the times of a sheet.
fn times_command(rt: &HostRuntime) -> Result<(), Stop> {
    match options_given(rt) {
        Some(o) if o.is_sheet() => sheet_command(
            rt,
            SheetCall {
                card: o.card,
                sheet: o.input,
                check: o.check,
            },
        ),
        _ => Err(bad_usage(rt, b"sheet wants CARD and SHEET, and takes --check")),
    }
}

// ---- Run, replay

// Runs a trace, or replays a capture; the seen times are read first, where their file is named.
fn run_options(rt: &HostRuntime, o: Options, capture: bool) -> Result<(), Stop> {
    if overwrites_input(rt, o, capture) {
        return Err(Stop::Unusable);
    }
    let card = load_card(rt, o.card)?;
    let seen = match o.seen {
        Some(i) => Some(load_seen(rt, i, card.setup.slots)?),
        None => None,
    };
    let fed = if capture {
        Fed::Capture(seen)
    } else {
        Fed::Trace
    };
    let job = Job {
        rt,
        options: o,
        fed,
    };
    with_file(rt, o.input, |input| run(job, &card, input))
}

fn run_command(rt: &HostRuntime) -> Result<(), Stop> {
    match options_given(rt) {
        Some(o) if o.is_run() => run_options(rt, o, false),
        _ => Err(bad_usage(
            rt,
            b"run wants CARD and TRACE, and takes --quiet and --answers FILE",
        )),
    }
}

fn replay_command(rt: &HostRuntime) -> Result<(), Stop> {
    match options_given(rt) {
        Some(o) if o.is_replay() => run_options(rt, o, true),
        _ => Err(bad_usage(
            rt,
            b"replay wants CARD and CAPTURE, and takes --quiet, --answers FILE and --seen FILE",
        )),
    }
}

// ---- Any command

// The command that the first argument names, if it does; without an argument help.
fn command_given(rt: &HostRuntime) -> Option<CommandName> {
    if arg_count(rt) <= 1 {
        return Some(CommandName::Help);
    }
    let mut room = [0u8; 16];
    CommandName::of(arg(rt, 1, &mut room))
}

pub fn command(rt: &HostRuntime) -> Result<(), Stop> {
    match command_given(rt) {
        Some(CommandName::Help) => help(rt),
        Some(CommandName::Run) => run_command(rt),
        Some(CommandName::Replay) => replay_command(rt),
        Some(CommandName::Score) => score_command(rt),
        Some(CommandName::Card) => card_command(rt),
        Some(CommandName::Sheet) => times_command(rt),
        Some(CommandName::Code) => code_command(rt),
        Some(CommandName::Show) => show_command(rt),
        Some(CommandName::Pack) => pack_command(rt),
        Some(CommandName::Message) => message_command(rt),
        None => Err(bad_usage(
            rt,
            b"unknown command: expected run, replay, score, card, sheet, code, show, pack or message",
        )),
    }
}
