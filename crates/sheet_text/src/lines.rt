// A line about a file.
#![tactic(auto, using(text_line::proofs::Putting::putting))]

ghost use Rattle.std.specs.Prelude.{◌≡◌, ◌++◌};
ghost use Rattle.bits.specs.Text.{chars};
ghost use Rattle.text_line.specs.Page.{put};

use text_line::Page;

// The name of the file that the line is about.
pub fn put_name(page: &mut Page<'_>, name: &[u8])
    ensures { page.new ≡ put (name.now ++ chars ": ") page.old }
{
    page.put_text(name);
    page.put_text(b": ");
}
