ghost use Rattle.std.specs.Prelude.{◌≡◌, ℕ, Option, None};
ghost use Rattle.monoid.specs.Meaning.{Meaning};
ghost use Rattle.panels.specs.Panels.{panel_one, one_kept, FreshOne, panel_two, two_kept, FreshTwo};

use monoid::recogniser::Recogniser;
use panels::panels::{PanelOne, PanelTwo, panel_one, panel_two};

// A panel of lamps: a recogniser that is made in one way, in order, and means one thing.
pub trait Panel: Recogniser + Drop {
    // The number that it is printed with.
    const NUMBER: u8;

    ghost NUMBER: { ℕ };

    // What its lamps say.
    ghost shown: { Meaning Self.Element };

    // The product of two indexes that it keeps, if it keeps one.
    ghost kept: { Self → ℕ → ℕ → Option ℕ };

    // Every tally in it is 0, and no product is kept.
    ghost Fresh: { Self → Type 0 };

    // Asked for nothing yet, with nothing kept.
    fn fresh() -> Self
        ensures meaning { Self.meaning result ≡ shown }
        ensures order { Self.orderly result }
        ensures counted { Self.tally result ≡ 0 }
        ensures empty { (i j : ℕ) → kept result i j ≡ None }
        ensures fresh { Fresh result };
}

impl Panel for PanelOne {
    const NUMBER: u8 = 1;

    ghost NUMBER = { 1 };

    ghost shown = { panel_one };

    ghost kept = { one_kept };

    ghost Fresh = { FreshOne };

    fn fresh() -> PanelOne {
        panel_one()
    }
}

impl Panel for PanelTwo {
    const NUMBER: u8 = 2;

    ghost NUMBER = { 2 };

    ghost shown = { panel_two };

    ghost kept = { two_kept };

    ghost Fresh = { FreshTwo };

    fn fresh() -> PanelTwo {
        panel_two()
    }
}
