ghost use Rattle.std.specs.Prelude.{◌≡◌};
ghost use Rattle.monoid.specs.Words.{Recognises};
ghost use Rattle.automaton.specs.Meanings.{automaton_meaning};
ghost use Rattle.counter.specs.Meanings.{counter_meaning};
ghost use Rattle.table.specs.Meanings.{table_meaning, table_small, table_of, small_of};
ghost use Rattle.panels.specs.Data.{closed_data, until_the_last, page_data, adjoining_data, greater_data, some_collection_data, no_collection_data, first_data};
ghost use Rattle.panels.specs.Lamps.{closed_meaning, page_meaning, adjoining_meaning};
ghost use Rattle.panels.specs.Sayings.{Outside, Pages, Adjoining, Has, StartsCollected};

use automaton::automaton::Automaton;
use automaton::data::AutomatonData;
use counter::counter::Counter;
use counter::data::CounterData;
use rows::kind::{KINDS, Kind};
use table::data::TableData;
use table::table::Table;

// Headings are closed: each by a collection, with no measured row outside them.
pub fn closed() -> Automaton
    ensures meaning { automaton_meaning result ≡ closed_meaning }
    ensures language { Recognises (automaton_meaning result) 0 Outside }
    ensures counted { result.tally.count ≡ 0 }
{
    Automaton::new(closed_data())
}

// Outside a heading, inside one, or broken; lit outside.
fn closed_data() -> AutomatonData
    ensures value { result ≡ closed_data }
{
    let mut lit = [false; automaton::data::MOST];
    lit[0] = true;
    until_the_last([1, 2, 2, 2, 0, 2, 0, 0], [2, 1, 1, 1, 1, 0, 2, 1], lit)
}

// Three states, by where each kind leads from the first two: the last is never left.
fn until_the_last(
    first: [u8; KINDS],
    second: [u8; KINDS],
    lit: [bool; automaton::data::MOST],
) -> AutomatonData
    ensures value { result ≡ until_the_last first second lit }
{
    let mut next = [[0; KINDS]; automaton::data::MOST];
    next[0] = first;
    next[1] = second;
    next[2] = [2; KINDS];
    AutomatonData {
        states: 3,
        start: 0,
        next,
        lit,
    }
}

// Pages are full: the rows are a multiple of ten.
pub fn page() -> Counter
    ensures meaning { counter_meaning result ≡ page_meaning }
    ensures language { Recognises (counter_meaning result) 0 Pages }
    ensures counted { result.tally.count ≡ 0 }
{
    Counter::new(page_data())
}

fn page_data() -> CounterData
    ensures value { result ≡ page_data }
{
    CounterData {
        modulus: 10,
        weights: [1; KINDS],
        residue: 0,
    }
}

// Two notes adjoin.
pub fn adjoining_notes() -> Automaton
    ensures meaning { automaton_meaning result ≡ adjoining_meaning }
    ensures language { Recognises (automaton_meaning result) 0 Adjoining }
    ensures counted { result.tally.count ≡ 0 }
{
    Automaton::new(adjoining_data())
}

// No note just before, one note just before, or two notes met; lit there.
fn adjoining_data() -> AutomatonData
    ensures value { result ≡ adjoining_data }
{
    let mut lit = [false; automaton::data::MOST];
    lit[2] = true;
    until_the_last([0, 0, 0, 0, 1, 0, 0, 0], [0, 0, 0, 0, 2, 0, 0, 0], lit)
}

// A collection stands in the sheet.
pub fn some_collection() -> Table
    ensures meaning { table_meaning result ≡ table_of some_collection_data }
    ensures small { table_small result ≡ small_of some_collection_data }
    ensures language { Recognises (table_meaning result) 0 (Has Kind.Collection) }
    ensures counted { result.tally.count ≡ 0 }
{
    Table::new(some_collection_data())
}

// Lit at a collection.
fn some_collection_data() -> TableData
    ensures value { result ≡ some_collection_data }
{
    greater(false, true)
}

// No collection stands in the sheet.
pub fn no_collection() -> Table
    ensures meaning { table_meaning result ≡ table_of no_collection_data }
    ensures small { table_small result ≡ small_of no_collection_data }
    ensures language { Recognises (table_meaning result) 0 (λ w. Has Kind.Collection w → ⊥) }
    ensures counted { result.tally.count ≡ 0 }
{
    Table::new(no_collection_data())
}

// Lit where there is no collection.
fn no_collection_data() -> TableData
    ensures value { result ≡ no_collection_data }
{
    greater(true, false)
}

// The table of order 2 in which a product is the greater factor: whether there is a collection.
fn greater(lit_none: bool, lit_some: bool) -> TableData
    ensures value { result ≡ greater_data lit_none lit_some }
{
    let mut products = [[0; table::data::MOST]; table::data::MOST];
    products[0] = [0, 1, 0, 0, 0, 0, 0, 0];
    products[1] = [1, 1, 0, 0, 0, 0, 0, 0];
    let mut lit = [false; table::data::MOST];
    lit[0] = lit_none;
    lit[1] = lit_some;
    TableData {
        size: 2,
        products,
        images: [0, 0, 0, 0, 0, 1, 0, 0],
        lit,
    }
}

// The first row is a collection.
pub fn first_collection() -> Table
    ensures meaning { table_meaning result ≡ table_of first_data }
    ensures language { Recognises (table_meaning result) 0 StartsCollected }
    ensures counted { result.tally.count ≡ 0 }
{
    Table::new(first_data())
}

// The table of order 3 in which a product is its first factor, unless that is the unit.
fn first_data() -> TableData
    ensures value { result ≡ first_data }
{
    let mut products = [[0; table::data::MOST]; table::data::MOST];
    products[0] = [0, 1, 2, 0, 0, 0, 0, 0];
    products[1] = [1, 1, 1, 0, 0, 0, 0, 0];
    products[2] = [2, 2, 2, 0, 0, 0, 0, 0];
    let mut lit = [false; table::data::MOST];
    lit[1] = true;
    TableData {
        size: 3,
        products,
        images: [2, 2, 2, 2, 2, 1, 2, 2],
        lit,
    }
}
