// What stands after `run` and `replay`: two files, --quiet and --answers FILE, and after `replay` --seen FILE, in any order. After `sheet`:
// two files and --check.
use crate::words::Word;
use cli_arguments::arguments::arg_count;

// The options with a file after them.
#[derive(Clone, Copy)]
enum FileOption {
    Answers,
    Seen,
}

// Which argument is which, by its number.
#[derive(Clone, Copy)]
pub struct Options {
    pub card: usize,
    // The trace, the capture, or the sheet.
    pub input: usize,
    pub answers: Option<usize>,
    pub seen: Option<usize>,
    pub quiet: bool,
    // Kept: a switch that is given or not.
    pub check: bool,
}

// The options as far as the arguments were looked at.
#[derive(Clone, Copy)]
struct Partial {
    card: Option<usize>,
    input: Option<usize>,
    answers: Option<usize>,
    seen: Option<usize>,
    quiet: bool,
    check: bool,
    // The option whose file is the next argument.
    wants: Option<FileOption>,
}

impl Partial {
    fn nothing() -> Partial {
        Partial {
            card: None,
            input: None,
            answers: None,
            seen: None,
            quiet: false,
            check: false,
            wants: None,
        }
    }

    // The first file is the card, the second the trace, the capture or the sheet; there is no third.
    fn with_name(self, i: usize) -> Option<Partial> {
        if self.card.is_none() {
            Some(Partial {
                card: Some(i),
                ..self
            })
        } else if self.input.is_none() {
            Some(Partial {
                input: Some(i),
                ..self
            })
        } else {
            None
        }
    }

    // An option with a file, which is given once.
    fn with_option(self, option: FileOption) -> Option<Partial> {
        let given = match option {
            FileOption::Answers => self.answers,
            FileOption::Seen => self.seen,
        };
        if given.is_some() {
            return None;
        }
        Some(Partial {
            wants: Some(option),
            ..self
        })
    }

    fn with_file(self, option: FileOption, i: usize) -> Partial {
        let named = Partial {
            wants: None,
            ..self
        };
        match option {
            FileOption::Answers => Partial {
                answers: Some(i),
                ..named
            },
            FileOption::Seen => Partial {
                seen: Some(i),
                ..named
            },
        }
    }

    // The same with argument i; none where nothing asks for it.
    fn with_argument(self, i: usize, word: Word) -> Option<Partial> {
        if let Some(option) = self.wants {
            return Some(self.with_file(option, i));
        }
        match word {
            Word::Quiet => Some(Partial {
                quiet: true,
                ..self
            }),
            Word::Check => Some(Partial {
                check: true,
                ..self
            }),
            Word::Answers => self.with_option(FileOption::Answers),
            Word::Seen => self.with_option(FileOption::Seen),
            Word::Csv | Word::Unknown => None,
            Word::Name => self.with_name(i),
        }
    }

    // Both files are there, and no option is without its file.
    fn whole(self) -> Option<Options> {
        if self.wants.is_some() {
            return None;
        }
        Some(Options {
            card: self.card?,
            input: self.input?,
            answers: self.answers,
            seen: self.seen,
            quiet: self.quiet,
            check: self.check,
        })
    }
}

// The options among the arguments, of which there are at most nine; none where they are too many or too few, or nothing asks for one.
pub fn options_given(rt: &HostRuntime) -> Option<Options> {
    let n = arg_count(rt);
    if n > 9 {
        return None;
    }
    let mut o = Partial::nothing();
    for i in 2..n {
        o = o.with_argument(i, Word::at(rt, i))?;
    }
    o.whole()
}

impl Options {
    // Whether they are those of `run`.
    pub fn is_run(&self) -> bool {
        !self.check && self.seen.is_none()
    }

    // Whether they are those of `replay`.
    pub fn is_replay(&self) -> bool {
        !self.check
    }

    // Whether they are those of `sheet`.
    pub fn is_sheet(&self) -> bool {
        !self.quiet && self.answers.is_none() && self.seen.is_none()
    }
}
