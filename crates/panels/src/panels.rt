ghost use Rattle.std.specs.Prelude.{◌≡◌, ℕ, None};
ghost use Rattle.monoid.specs.Words.{Recognises};
ghost use Rattle.automaton.specs.Meanings.{automaton_meaning};
ghost use Rattle.counter.specs.Meanings.{counter_meaning};
ghost use Rattle.layers.specs.SideBySide.{side_by_side};
ghost use Rattle.layers.specs.Not.{not_meaning};
ghost use Rattle.memo.specs.Memo.{Kept};
ghost use Rattle.memo.specs.Products.{found};
ghost use Rattle.table.specs.Meanings.{table_meaning, table_small};
ghost use Rattle.panels.specs.Data.{summary_marks};
ghost use Rattle.panels.specs.Lamps.{closed_meaning, page_meaning, summary_meaning, notes_meaning};
ghost use Rattle.panels.specs.Sayings.{Summarised, NotesApart, EndsCollected};
ghost use Rattle.panels.specs.Panels.{summaries_mean, FreshSummaries, ClosedPagesSay, panel_one, one_means, one_orderly, one_kept, FreshOne, PanelOneSays, panel_two, two_means, two_orderly, FreshTwo};

use crate::lamps::{
    adjoining_notes, closed, first_collection, no_collection, page, some_collection,
};
use automaton::automaton::Automaton;
use before_after::recogniser::BeforeAfter;
use counter::counter::Counter;
use layers::not::Not;
use layers::reversed::Reversed;
use layers::side_by_side::SideBySide;
use memo::memo::Memo;
use rows::kind::KINDS;
use table::table::Table;

pub type Summaries = BeforeAfter<Memo<Table>, Table>;

pub type PanelOne = SideBySide<
    SideBySide<SideBySide<Automaton, Counter>, Summaries>,
    Not<Automaton>,
>;

pub type PanelTwo = Reversed<Table>;

// Some summary has a collection somewhere before it, and none after it.
pub fn summary() -> Summaries
    ensures meaning { summaries_mean result ≡ summary_meaning }
    ensures order { Kept (table_meaning result.before.below) (table_small result.before.below) result.before.products }
    ensures counted { result.tally.count ≡ 0 }
    ensures empty { (i j : ℕ) → found result.before.products i j ≡ None }
    ensures fresh { FreshSummaries result }
    ensures language { Recognises (summaries_mean result) 0 Summarised }
{
    BeforeAfter::new(
        Memo::new(some_collection()),
        no_collection(),
        summary_marks(),
    )
}

// Summaries are marked.
fn summary_marks() -> [bool; KINDS]
    ensures value { result ≡ summary_marks }
{
    // By the places of the kinds: the proof that a map over them gives this does not close.
    [false, false, false, false, false, false, true, false]
}

// No two notes adjoin.
#[tactic(auto, using(crate::proofs::Turning::apart_said))]
pub fn notes() -> Not<Automaton>
    ensures meaning { not_meaning (automaton_meaning result.below) ≡ notes_meaning }
    ensures counted { (result.tally.count ≡ 0) × (result.below.tally.count ≡ 0) }
    ensures language { Recognises (not_meaning (automaton_meaning result.below)) 0 NotesApart }
{
    Not::new(adjoining_notes())
}

// Closed, page, summary and notes, made fresh: asked for nothing yet, with nothing kept.
pub fn panel_one() -> PanelOne
    ensures meaning { one_means result ≡ panel_one }
    ensures order { one_orderly result }
    ensures counted { result.tally.count ≡ 0 }
    ensures empty { (i j : ℕ) → one_kept result i j ≡ None }
    ensures fresh { FreshOne result }
    ensures says { PanelOneSays (one_means result) }
{
    let summaries = SideBySide::new(closed_pages(), summary());
    SideBySide::new(summaries, notes())
}

// Closed and page.
#[tactic(auto, using(crate::proofs::Saying::beside_said))]
fn closed_pages() -> SideBySide<Automaton, Counter>
    ensures meaning { side_by_side (automaton_meaning result.left) (counter_meaning result.right) ≡ side_by_side closed_meaning page_meaning }
    ensures counted { result.tally.count ≡ 0 }
    ensures left { result.left.tally.count ≡ 0 }
    ensures right { result.right.tally.count ≡ 0 }
    ensures says { ClosedPagesSay (side_by_side (automaton_meaning result.left) (counter_meaning result.right)) }
{
    SideBySide::new(closed(), page())
}

// The last row is a collection; made fresh.
#[tactic(auto, using(crate::proofs::Turning::backwards_collected))]
pub fn panel_two() -> PanelTwo
    ensures meaning { two_means result ≡ panel_two }
    ensures order { two_orderly result }
    ensures counted { result.tally.count ≡ 0 }
    ensures fresh { FreshTwo result }
    ensures says { Recognises (two_means result) 0 EndsCollected }
{
    Reversed::new(first_collection())
}
