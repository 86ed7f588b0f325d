ghost use Rattle.std.specs.Prelude.{◌≡◌, min, length};
ghost use Rattle.listing.specs.Listings.{run, numbers, lamps_by};
ghost use Rattle.listing.specs.Ends.{Ends};
ghost use Rattle.listing.specs.Outputs.{overwrite};
ghost use Rattle.watch.specs.Runs.{ToldAt};

use crate::panel::Panel;
use cells::cell::Cell;
use runs::run::run_script;

// Runs a script under a panel: the listing by the plain book and the languages of the panel's lamps, byte by byte. The
// panel was asked for nothing before the first line.
#[tactic(auto, using(crate::proofs::Under::told_at))]
pub fn run_panel<P: Panel>(
    script: &[u8],
    cells: &mut [Cell<P::Element>],
    out: &mut [u8],
) -> (u32, u32, usize)
    ensures numbers { result ≡ numbers (run (lamps_by P.shown) (min (length cells.old) 4096) (length out.old) script.now) }
    ensures bytes { out.new ≡ overwrite out.old 0 (run (lamps_by P.shown) (min (length cells.old) 4096) (length out.old) script.now).bytes }
    ensures ends { Ends (lamps_by P.shown) (min (length cells.old) 4096) (length out.old) script.now result }
    ensures told { ToldAt P.meaning P.orderly P.tally P.kept P.Fresh P.shown script.now cells.old cells.new out.old out.new result }
{
    let mut panel = P::fresh();
    run_script(script, cells, &mut panel, out)
}
