// What an argument is, by its text.
use cli_io::args::arg;
use cli_io::files::PATH;

#[derive(Clone, Copy)]
pub enum Word {
    Quiet,
    Check,
    Answers,
    Seen,
    Csv,
    // It starts with -- and is no option.
    Unknown,
    Name,
}

impl Word {
    fn of(text: &[u8]) -> Word {
        match text {
            b"--quiet" => Word::Quiet,
            b"--check" => Word::Check,
            b"--answers" => Word::Answers,
            b"--seen" => Word::Seen,
            b"--csv" => Word::Csv,
            [b'-', b'-', ..] => Word::Unknown,
            _ => Word::Name,
        }
    }

    // What argument i is.
    pub fn at(rt: &HostRuntime, i: usize) -> Word {
        let mut given = [0u8; PATH];
        Word::of(arg(rt, i, &mut given))
    }
}
