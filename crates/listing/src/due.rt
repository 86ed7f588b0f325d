ghost use Rattle.std.specs.Prelude.{◌≡◌, length};
ghost use Rattle.script.specs.Lines.{lines};
ghost use Rattle.listing.specs.Listed.{Listed};

use script::line::count_lines;

// How many answers a script is due: one for each of its lines, in order, whatever follows them.
pub fn answers_due(script: &[u8]) -> usize
    ensures value { result ≡ length (lines script.now) }
    ensures listed { Listed script.now }
{
    count_lines(script)
}
