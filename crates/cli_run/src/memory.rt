// A card, and the memory that its bench runs on.
ghost use Rattle.std.specs.Prelude.{◌≡◌, ◌*◌, ◌≢◌, min, length, IfErr, IfSome};

use crate::session::Session;
use readiness::{Setup, all_down};
use records::blank_port;

// As many words as 32 slots have.
pub const WORDS: usize = 2048;

// The cells of the longest queue.
pub const CELLS: usize = 4095;

// A card: what it is set up with, how many messages its queue holds, and the default words of its slots.
#[derive(Clone, Copy)]
pub struct Card {
    pub setup: Setup,
    pub queue: usize,
    pub words: [u32; WORDS],
}

impl Card {
    // How many words the card's slots have.
    pub fn word_count(&self) -> usize
        ensures { result ≡ 64 * min self.now.setup.slots 32 }
    {
        64 * self.setup.slots.min(32)
    }

    // The number of its set-up's refusal, where it is refused.
    pub fn refusal(&self) -> Option<u8>
        ensures { IfSome result (λ number. number ≢ 0) }
    {
        let mut live = [0u32; WORDS];
        let mut cells = [0u32; CELLS];
        Memory::over(self, &mut live, &mut cells).set_up().err()
    }
}

// What the bench of a card runs on: the words of its slots as they are now and by default, and the cells of its queue.
#[derive(Drop)]
pub struct Memory<'a> {
    pub card: &'a Card,
    pub live: &'a mut [u32],
    pub defaults: &'a [u32],
    pub cells: &'a mut [u32],
}

impl<'a> Memory<'a> {
    // The first of the words and cells, as many as the card has.
    // Kept: what the memory is made of.
    pub fn over(
        card: &'a Card,
        live: &'a mut [u32; WORDS],
        cells: &'a mut [u32; CELLS],
    ) -> Memory<'a>
        ensures live_length { length result.live.now ≡ 64 * min card.now.setup.slots 32 }
        ensures cells_length { length result.cells.now ≡ min card.now.queue 4095 }
    {
        let words = card.word_count();
        let depth = card.queue.min(CELLS);
        Memory {
            card,
            live: &mut live[..words],
            defaults: &card.words[..words],
            cells: &mut cells[..depth],
        }
    }

    // Sets the card up; the number of the refusal, where it is refused.
    pub fn set_up(&mut self) -> Result<Session, u8>
        ensures { IfErr result (λ number. number ≢ 0) }
    {
        let setup = self.card.setup;
        let made = bench_by_value::set_up_first(
            setup,
            blank_port(),
            all_down(),
            setup.slots,
            &mut *self.live,
            self.defaults,
            &mut *self.cells,
        );
        if made.number == 0 {
            Ok(Session::begin(made))
        } else {
            Err(made.number)
        }
    }

    // Feeds bytes.
    pub fn feed(&mut self, s: Session, bytes: &[u8], answers: &mut [u8]) -> Session {
        let setup = self.card.setup;
        let fed = bench_by_value::feed_first(
            setup,
            s.port,
            s.statuses,
            setup.slots,
            &mut *self.live,
            self.defaults,
            &mut *self.cells,
            bytes,
            answers,
        );
        let stopped_at = bytes.get(fed.consumed).copied().unwrap_or(0);
        s.after(fed, stopped_at)
    }
}
