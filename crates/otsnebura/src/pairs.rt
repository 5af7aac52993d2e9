// What stands after `score`: a card, and captures each with its file of seen times; and --csv FILE, in any place.
use crate::words::Word;
use cli_arguments::arguments::arg_count;
use cli_io::files::{complain, name_file, open_file};
use cli_io::identity::name_one_file;
use cli_io::stop::Stop;
use cli_lateness::seen_file::load_seen;

// Which argument is which, by its number; the others are captures and files of seen times in turn.
#[derive(Clone, Copy)]
pub struct ScoreCall {
    pub card: usize,
    // The word --csv, and the file after it.
    word: Option<usize>,
    pub csv: Option<usize>,
}

// ---- The arguments

// The captures that were named so far.
#[derive(Clone, Copy)]
enum Captures {
    // There is none.
    None,
    // The last one is still without its seen times.
    Open,
    Paired,
}

// The call as far as the arguments were looked at.
#[derive(Clone, Copy)]
struct Partial {
    card: Option<usize>,
    word: Option<usize>,
    csv: Option<usize>,
    captures: Captures,
}

impl Partial {
    fn nothing() -> Partial {
        Partial {
            card: None,
            word: None,
            csv: None,
            captures: Captures::None,
        }
    }

    // The first name is the card's.
    fn with_name(self, i: usize) -> Partial {
        if self.card.is_none() {
            return Partial {
                card: Some(i),
                ..self
            };
        }
        let captures = match self.captures {
            Captures::Open => Captures::Paired,
            _ => Captures::Open,
        };
        Partial { captures, ..self }
    }

    // The same with argument i; none where nothing asks for it.
    fn with_argument(self, i: usize, word: Word) -> Option<Partial> {
        if self.word.is_some() && self.csv.is_none() {
            return Some(Partial {
                csv: Some(i),
                ..self
            });
        }
        match word {
            Word::Csv if self.word.is_none() => Some(Partial {
                word: Some(i),
                ..self
            }),
            Word::Name => Some(self.with_name(i)),
            _ => None,
        }
    }

    // There are a card and a capture, each capture has its seen times, and --csv its file.
    fn whole(self) -> Option<ScoreCall> {
        match self.captures {
            Captures::Paired if self.word.is_none() || self.csv.is_some() => Some(ScoreCall {
                card: self.card?,
                word: self.word,
                csv: self.csv,
            }),
            _ => None,
        }
    }
}

// The call that the arguments make; none where they are too many or too few, or nothing asks for one.
pub fn score_call(rt: &HostRuntime) -> Option<ScoreCall> {
    let mut c = Partial::nothing();
    for i in 2..arg_count(rt) {
        c = c.with_argument(i, Word::at(rt, i))?;
    }
    c.whole()
}

impl ScoreCall {
    // Whether an argument names a file that is read.
    fn is_input(&self, i: usize) -> bool {
        self.word != Some(i) && self.csv != Some(i)
    }

    // Calls `act` with the arguments of each capture and of its seen times, until it fails.
    pub fn each_pair<F: FnMut(usize, usize) -> Result<(), Stop>>(
        &self,
        rt: &HostRuntime,
        mut act: F,
    ) -> Result<(), Stop>
        requires { (state : F) (c i : _) → F.pre state c i }
    {
        let mut capture = None;
        for i in 2..arg_count(rt) {
            if i != self.card && self.is_input(i) {
                capture = match capture {
                    None => Some(i),
                    Some(c) => {
                        act(c, i)?;
                        None
                    }
                };
            }
        }
        Ok(())
    }

    // Opens each capture, and reads and checks each file of seen times, before anything is replayed.
    pub fn look_at_all(&self, rt: &HostRuntime, slots: usize) -> Result<(), Stop> {
        self.each_pair(rt, |capture, seen| look_at(rt, slots, capture, seen))
    }

    // Whether the rows would overwrite an input, by whatever names; if so, it is said.
    pub fn overwrites_input(&self, rt: &HostRuntime) -> bool {
        let Some(csv) = self.csv else {
            return false;
        };
        let overwrites = (2..arg_count(rt)).any(|i| self.is_input(i) && name_one_file(rt, csv, i));
        if overwrites {
            name_file(rt, csv);
            complain(
                rt,
                b"the file for the rows is one that is read: expected a file that is neither the card nor a capture nor seen times\n",
            );
        }
        overwrites
    }
}

fn look_at(rt: &HostRuntime, slots: usize, capture: usize, seen: usize) -> Result<(), Stop> {
    open_file(rt, capture)?;
    load_seen(rt, seen, slots)?;
    Ok(())
}
