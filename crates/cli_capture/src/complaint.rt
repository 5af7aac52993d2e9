// What is wrong with a capture, on standard error.
use capture_lines::CaptureFault;
use cli_io::files::{complain_line, name_file};
use describe_capture::fault_words::put_fault_message;
use describe_capture::finding::fault_byte;
use text_line::{LINE, Page};

// Says what ends the file of argument i early, if anything does; the next byte is at `next`.
pub fn complain_capture(rt: &HostRuntime, i: usize, next: u64, fault: Option<CaptureFault>) {
    if fault.is_some() {
        let mut room = [0u8; LINE];
        let mut line = Page::over(&mut room, 0);
        name_file(rt, i);
        put_fault_message(&mut line, fault_byte(next, fault), fault);
        complain_line(rt, &line);
    }
}
