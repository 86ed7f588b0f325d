// Each layer stands on the same table, so that what it takes beyond the table is its own; the second panel is the table
// reversed, and the summaries of the first are what stands for before-and-after. There is a function for each, since C
// calls them by name.
use crate::products::products_of;
use automaton::automaton::Automaton;
use counter::counter::Counter;
use layers::all::All;
use layers::not::Not;
use layers::side_by_side::SideBySide;
use memo::memo::Memo;
use monoid::recogniser::Recogniser;
use panels::lamps::{closed, first_collection, page};
use panels::panels::{PanelOne, PanelTwo, Summaries, panel_one, panel_two, summary};
use table::table::Table;

// How many recognisers are measured.
const MEASURED: usize = 10;

// The bytes of an element of each, in the order of the functions below.
const BYTES: [usize; MEASURED] = [
    size_of::<<Table as Recogniser>::Element>(),
    size_of::<<Automaton as Recogniser>::Element>(),
    size_of::<<Counter as Recogniser>::Element>(),
    size_of::<<SideBySide<Table, Table> as Recogniser>::Element>(),
    size_of::<<Not<Table> as Recogniser>::Element>(),
    size_of::<<All<Table> as Recogniser>::Element>(),
    size_of::<<Memo<Table> as Recogniser>::Element>(),
    size_of::<<Summaries as Recogniser>::Element>(),
    size_of::<<PanelOne as Recogniser>::Element>(),
    size_of::<<PanelTwo as Recogniser>::Element>(),
];

// The bytes of an element of the recogniser that has a place among the measured, and 0 past them.
#[unsafe(no_mangle)]
pub extern "C" fn element_bytes(place: usize) -> usize {
    BYTES.get(place).copied().unwrap_or(0)
}

#[unsafe(no_mangle)]
pub extern "C" fn table_products(turns: u64) -> u64 {
    products_of(first_collection(), turns)
}

#[unsafe(no_mangle)]
pub extern "C" fn automaton_products(turns: u64) -> u64 {
    products_of(closed(), turns)
}

#[unsafe(no_mangle)]
pub extern "C" fn counter_products(turns: u64) -> u64 {
    products_of(page(), turns)
}

#[unsafe(no_mangle)]
pub extern "C" fn side_by_side_products(turns: u64) -> u64 {
    products_of(
        SideBySide::new(first_collection(), first_collection()),
        turns,
    )
}

#[unsafe(no_mangle)]
pub extern "C" fn not_products(turns: u64) -> u64 {
    products_of(Not::new(first_collection()), turns)
}

#[unsafe(no_mangle)]
pub extern "C" fn all_products(turns: u64) -> u64 {
    products_of(All::new(first_collection()), turns)
}

#[unsafe(no_mangle)]
pub extern "C" fn memo_products(turns: u64) -> u64 {
    products_of(Memo::new(first_collection()), turns)
}

#[unsafe(no_mangle)]
pub extern "C" fn before_after_products(turns: u64) -> u64 {
    products_of(summary(), turns)
}

#[unsafe(no_mangle)]
pub extern "C" fn panel_one_products(turns: u64) -> u64 {
    products_of(panel_one(), turns)
}

#[unsafe(no_mangle)]
pub extern "C" fn panel_two_products(turns: u64) -> u64 {
    products_of(panel_two(), turns)
}
