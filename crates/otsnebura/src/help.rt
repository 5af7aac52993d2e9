// The page of help.
use cli_io::failure::after_printing;
use cli_io::sink::Sink;
use cli_io::stop::Stop;

// A line of it; whether it could be written shows at the last.
fn say(rt: &HostRuntime, text: &[u8]) {
    let _ = Sink::Output(rt).write(text);
}

fn help_commands(rt: &HostRuntime) {
    say(
        rt,
        b"otsnebura: a proved test bench for PCI Express cards\n\n",
    );
    say(
        rt,
        b"  otsnebura run CARD TRACE [--quiet] [--answers FILE]\n",
    );
    say(
        rt,
        b"                         sets the card up, feeds the trace: a line for each record, and the end\n",
    );
    say(
        rt,
        b"                         --quiet: the end alone; --answers FILE: the raw answer bytes\n",
    );
    say(
        rt,
        b"                         (FILE is emptied once the card is set up; it can't be the card or the trace)\n",
    );
    help_replay(rt);
    help_score(rt);
    say(
        rt,
        b"  otsnebura card CARD    the card with each time code in ns\n",
    );
    help_sheets(rt);
    say(
        rt,
        b"  otsnebura show TRACE   the records of a trace in words\n",
    );
    say(rt, b"  otsnebura show --capture CAPTURE\n");
    say(
        rt,
        b"                         the entries of a capture in words, with the differences of their stamps\n",
    );
    say(
        rt,
        b"  otsnebura pack HEX     hex text, with blanks and # comments, to raw bytes\n",
    );
    say(
        rt,
        b"  otsnebura message read HEX | drs ID | frs ID REASON\n",
    );
    say(
        rt,
        b"                         one 16-byte DRS or FRS, read or written, in hex\n",
    );
    say(rt, b"  otsnebura --help       this page\n\n");
}

fn help_replay(rt: &HostRuntime) {
    say(
        rt,
        b"  otsnebura replay CARD CAPTURE [--quiet] [--answers FILE] [--seen SEEN]\n",
    );
    say(
        rt,
        b"                         the same for a capture: a line for each record, and for each advance that its\n",
    );
    say(
        rt,
        b"                         stamps stand for; FILE can't be the card or the capture\n",
    );
    say(
        rt,
        b"                         --seen SEEN: after the end, when each slot was made Ready and when the lab saw it, in ns\n",
    );
}

fn help_score(rt: &HostRuntime) {
    say(
        rt,
        b"  otsnebura score CARD CAPTURE SEEN [CAPTURE SEEN ..] [--csv FILE]\n",
    );
    say(
        rt,
        b"                         how late the card was: each capture replayed, a line for each slot, and totals by slot\n",
    );
    say(
        rt,
        b"                         and in all; --csv FILE: the lines as comma-separated values, in ns; FILE can't be an input\n",
    );
}

fn help_sheets(rt: &HostRuntime) {
    say(rt, b"  otsnebura sheet CARD SHEET [--check]\n");
    say(
        rt,
        b"                         the card with the times of a sheet, as a CARD file; where a time is far from\n",
    );
    say(
        rt,
        b"                         the card's, a line on standard error; --check: what is wrong alone\n",
    );
    say(rt, b"  otsnebura code TIME UNIT\n");
    say(
        rt,
        b"                         the code of a time, 1 to 10 digits in ns, us or ms, and the next lower one\n",
    );
}

fn help_trace(rt: &HostRuntime) {
    say(
        rt,
        b"TRACE is a file of records: one byte of kind, then a body, numbers low byte first.\n\n",
    );
    say(rt, b"  01 ns(4)                          advance clock\n");
    say(
        rt,
        b"  02 slot word enables              configuration read\n",
    );
    say(
        rt,
        b"  03 slot word enables data(4)      configuration write\n",
    );
    say(
        rt,
        b"  04 message(16)                    a DRS or FRS arrives\n",
    );
    say(
        rt,
        b"  05, 06, 07                        link up, link down, cold reset\n",
    );
    say(
        rt,
        b"  08, 09                            read queue register, remove oldest\n",
    );
    say(
        rt,
        b"  0A bits                           clear status bits (0 Received, 1 Overflow, 2 DRS Received)\n",
    );
    say(
        rt,
        b"  0B control                        bit 0 CRS visibility, 1 FRS interrupt, 3:2 signalling\n",
    );
    say(
        rt,
        b"  0C slot word mask(4)              hardware sets register bits\n",
    );
    say(
        rt,
        b"  0D                                read status bits\n\n",
    );
}

fn help_capture(rt: &HostRuntime) {
    say(
        rt,
        b"CAPTURE is a file of entries: a stamp and then one record, any kind but 01.\n\n",
    );
    say(
        rt,
        b"  stamp(4), low byte first          the recorder's count of ticks, 4 ns each, that wraps to 0 after 4294967295\n\n",
    );
    say(
        rt,
        b"  The time from stamp to stamp, less than 2147483648 ticks (8589934592 ns), advances the clock; the first stamp doesn't.\n\n",
    );
}

fn help_card(rt: &HostRuntime) {
    say(
        rt,
        b"CARD is text, one fact a line, # starts a comment:\n\n",
    );
    say(
        rt,
        b"  slots N                           1 to 32, before any slot or word\n",
    );
    say(rt, b"  queue N                           1 to 4095\n");
    say(
        rt,
        b"  bus HH                            the card's bus number\n",
    );
    say(
        rt,
        b"  port HHHH                         the root port's ID\n",
    );
    say(
        rt,
        b"  slot N reset HHH dlup HHH flr HHH d3hot HHH frs yes|no\n",
    );
    say(
        rt,
        b"                                    codes in hex: value + 200h * scale is value * 32^scale ns\n",
    );
    say(
        rt,
        b"  word N OFFSET VALUE               a default word, in hex; others are 0\n\n",
    );
}

fn help_sheet(rt: &HostRuntime) {
    say(
        rt,
        b"SHEET is text, one slot a line, one space between, and 0Ah after each line:\n\n",
    );
    say(
        rt,
        b"  slot reset dlup flr d3hot unit    the slot and its four times in decimal; unit ns, us or ms\n\n",
    );
}

fn help_seen(rt: &HostRuntime) {
    say(
        rt,
        b"SEEN is text, one slot a line, one space between, and 0Ah after each line:\n\n",
    );
    say(
        rt,
        b"  slot time unit                    when the lab first saw the slot answer, from set-up on, in decimal; unit ns, us or ms\n\n",
    );
}

pub fn help(rt: &HostRuntime) -> Result<(), Stop> {
    help_commands(rt);
    help_trace(rt);
    help_capture(rt);
    help_card(rt);
    help_sheet(rt);
    help_seen(rt);
    let end = Sink::Output(rt).write(
        b"Exit status: 0 done; 1 refused, or a broken or cut trace or capture; 2 bad usage, or a file that can't be read or written.\n",
    );
    after_printing(rt, end)?;
    Ok(())
}
