// Records that touch the root port alone: message, queue register, remove oldest, status bits, control.
ghost use Rattle.std.specs.Prelude.{◌≡◌, true, List, ℕ, Some};
ghost use Rattle.frs_queue.specs.Queue.{no_tally};
ghost use Rattle.messages.specs.declared.Message.TheVariants as message;
ghost use Rattle.records.specs.declared.Record.TheVariants as variants;
ghost use Rattle.records.specs.declared.Completion.TheVariants as completion;
ghost use Rattle.records.specs.Answer.{reply};
ghost use Rattle.readiness.specs.Fields.{with_queue, with_control};
ghost use Rattle.records.specs.PortRecords.{front, message_done, message_effect, cleared_dev, control_of, control_effect, status_bits};
ghost use Rattle.records.specs.inner.Parts.{port_answered, port_run, port_ran};

use crate::answering::{no_tally, plain_reply};
use frs_queue::{Arrival, Frs, Queue};
use messages::Message;
use readiness::{Control, Dev, RootPort};
use records::{Completion, PortDone, QueueDone, Record, Reply};

// The root port at the start of a record.
pub fn root_port(dev: Dev) -> RootPort
    ensures { result ≡ record { dev = dev; tally = no_tally } }
{
    RootPort {
        dev,
        tally: no_tally(),
    }
}

// Answered with this status and data, after nothing has come.
fn done(dev: Dev, completion: Completion, data: u32) -> PortDone
    ensures { result ≡ record { dev = dev; reply = reply completion no_tally «data» } }
{
    PortDone {
        dev,
        reply: plain_reply(completion, data),
    }
}

// A message has come.
fn received(port: RootPort) -> PortDone
    ensures { result ≡ record { dev = port.dev; reply = reply completion.Done port.tally 0 } }
{
    PortDone {
        dev: port.dev,
        reply: Reply {
            completion: Completion::Done,
            tally: port.tally,
            data: 0,
        },
    }
}

// An FRS arrives, a DRS sets DRS Received; else no readiness message.
fn receive(port_id: u16, dev: Dev, cells: &mut [u32], message: Option<Message>) -> PortDone
    ensures { port_ran result cells.new ≡ port_answered (front dev cells.old) (message_done port_id message (front dev cells.old)) }
{
    match message {
        Some(Message::Drs(_)) => received(settle::drs_arrives(root_port(dev), cells, port_id)),
        Some(Message::Frs(id, reason)) => {
            received(settle::frs_arrives(root_port(dev), cells, Frs { id, reason }))
        }
        None => done(dev, Completion::NoReadinessMessage, 0),
    }
}

// An FRS arrives by a message, with the link up.
pub fn receive_frs(dev: Dev, cells: &mut [u32], frs: Frs) -> QueueDone
    ensures { (id : ℕ) → dev.link ≡ true
        → port_run id (variants.Message (Some (message.Frs frs.id frs.reason))) (front dev cells.old) ≡ record { after = front (with_queue dev result.queue) cells.new; reply = result.reply } }
{
    let Arrival { queue, tally } = frs_queue::arrive(
        dev.queue,
        no_tally(),
        dev.control.frs_interrupt,
        cells,
        frs,
    );
    QueueDone {
        queue,
        reply: Reply {
            completion: Completion::Done,
            tally,
            data: 0,
        },
    }
}

// A message. Order: 23 with the link down, then 19.
fn message_record(port_id: u16, dev: Dev, cells: &mut [u32], message: Option<Message>) -> PortDone
    ensures { port_ran result cells.new ≡ port_answered (front dev cells.old) (message_effect port_id message (front dev cells.old)) }
{
    if dev.link {
        receive(port_id, dev, cells, message)
    } else {
        done(dev, Completion::WrongState, 0)
    }
}

// Clear status bits where 1: 0 Received, 1 Overflow, 2 DRS Received; others ignored.
fn clear_bits(mask: u8, dev: Dev) -> Dev
    ensures { result ≡ cleared_dev mask dev }
{
    let queue = Queue {
        received: dev.queue.received & (mask & 1 == 0),
        overflow: dev.queue.overflow & (mask & 2 == 0),
        ..dev.queue
    };
    Dev {
        drs_received: dev.drs_received & (mask & 4 == 0),
        queue,
        ..dev
    }
}

// The control byte: bit 0 CRS visibility, bit 1 FRS interrupt, bits 3:2 signalling.
fn control_of(b: u8) -> Control
    ensures { result ≡ control_of b }
{
    Control {
        visibility: b & 1 != 0,
        frs_interrupt: b & 2 != 0,
        signalling: b / 4 % 4,
    }
}

// A control byte above 15, or signalling 3, is refused.
fn control_record(b: u8, dev: Dev) -> PortDone
    ensures { (cells : List ℕ) → port_ran result cells ≡ port_answered (front dev cells) (control_effect b (front dev cells)) }
{
    if b > 15 || b / 4 % 4 == 3 {
        return done(dev, Completion::BadValue, 0);
    }
    let control = control_of(b);
    done(Dev { control, ..dev }, Completion::Done, 0)
}

// The three status bits, numbered as they are cleared.
fn status_bits(dev: Dev) -> u32
    ensures { result ≡ status_bits dev }
{
    u32::from(dev.queue.received)
        + 2 * u32::from(dev.queue.overflow)
        + 4 * u32::from(dev.drs_received)
}

// A record that touches the root port alone runs. A request to a slot that there is not is refused with 20.
#[tactic(auto, unfolding(records::specs::inner::Parts::port_run, records::specs::inner::Parts::port_effect, records::specs::inner::Parts::port_answered))]
pub fn run_port(port_id: u16, dev: Dev, cells: &mut [u32], record: Record) -> PortDone
    ensures { port_ran result cells.new ≡ port_run port_id «record» (front dev cells.old) }
{
    match record {
        Record::Message(message) => message_record(port_id, dev, cells, message),
        Record::ReadQueue => done(dev, Completion::Done, frs_queue::register(dev.queue, cells)),
        Record::RemoveOldest => {
            let queue = frs_queue::remove(dev.queue, cells.len());
            done(Dev { queue, ..dev }, Completion::Done, 0)
        }
        Record::ClearBits(mask) => done(clear_bits(mask, dev), Completion::Done, 0),
        Record::Control(b) => control_record(b, dev),
        Record::ReadBits => done(dev, Completion::Done, status_bits(dev)),
        Record::Read(_) | Record::Write(_, _) | Record::HardwareSet(_, _, _) => {
            done(dev, Completion::NoSlot, 0)
        }
        _ => done(dev, Completion::Done, 0),
    }
}
