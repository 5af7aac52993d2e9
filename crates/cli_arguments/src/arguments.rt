// The program's arguments, but for the last where that is `--status`.
ghost use Rattle.std.specs.Prelude.{◌≡◌};

use cli_io::args;
use cli_io::args::arg;
use cli_io::files::complain;
use cli_io::stop::Stop;

// Whether argument i is this word.
pub fn arg_is(rt: &HostRuntime, i: usize, word: &[u8]) -> bool {
    let mut room = [0u8; 16];
    arg(rt, i, &mut room) == word
}

// How many arguments there are, the program's name with them.
pub fn arg_count(rt: &HostRuntime) -> usize {
    let n = args::arg_count(rt);
    if n > 1 && arg_is(rt, n - 1, b"--status") {
        n - 1
    } else {
        n
    }
}

// Says what was expected.
pub fn bad_usage(rt: &HostRuntime, expected: &[u8]) -> Stop
    ensures { result ≡ Stop.Unusable }
{
    complain(rt, b"otsnebura: ");
    complain(rt, expected);
    complain(rt, b" (otsnebura --help)\n");
    Stop::Unusable
}
