ghost use Rattle.std.specs.Prelude.{◌≡◌};
ghost use Rattle.table.specs.Meanings.{table_meaning, table_small, table_from, small_from};
ghost use Rattle.table.specs.Languages.{Multiplies};
ghost use Rattle.table.specs.Laws.{table_shaped, table_lawful, table_sized, table_undone, table_steady};
ghost use Rattle.std.proofs.Common.{rules, arith};

use crate::data::{TableData, UNIT};
use crate::table::Table;
use checks::data::Data;
use monoid::recogniser::Recogniser;
use monoid::small::SmallRecogniser;
use monoid::tally::Tally;
use rows::kind::Kind;

// A table has one lamp.
const WIDTH: usize = 1;

impl Table {
    // The table that the data say, or the trivial one where their check declines them. Like `Automaton::new`, and not one
    // function with it: each says what its data mean.
    #[tactic(auto, using(crate::proofs::Languages::table_multiplies))]
    pub fn new(data: TableData) -> Table
        ensures meaning { table_meaning result ≡ table_from «data» }
        ensures means { ⟦<Table as Recogniser>⟧.meaning result ≡ table_from «data» }
        ensures small { table_small result ≡ small_from «data» }
        ensures sizes { ⟦<Table as SmallRecogniser>⟧.small result ≡ small_from «data» }
        ensures multiplies { Multiplies «data» (table_meaning result) }
        ensures fresh { result.tally.count ≡ 0 }
    {
        Table {
            data: data.or_trivial(),
            tally: Tally::new(),
        }
    }
}

impl Recogniser for Table {
    type Element = u8;

    ghost meaning = { table_meaning };

    ghost tally = { λ s. s.tally.count };

    ghost orderly = { λ _. Unit {0} };

    ghost shaped = { λ s. table_shaped s.«data» };

    ghost lawful = { λ s o. table_lawful s.«data» s.checked };

    ghost bounded = { Prim.search rules };

    fn unit(&self) -> u8 {
        UNIT
    }

    fn image(&self, kind: Kind) -> u8 {
        self.data.images[kind.place()]
    }

    fn product(&mut self, left: u8, right: u8) -> u8 {
        self.tally.raise();
        self.data.times(left, right)
    }

    fn asked(&self) -> u64 {
        self.tally.value()
    }

    fn width(&self) -> usize {
        WIDTH
    }

    fn lit(&self, element: u8, lamp: usize) -> bool {
        lamp == 0 && self.data.lights(element)
    }
}

impl SmallRecogniser for Table {
    ghost small = { table_small };

    ghost sized = { λ s. table_sized s.«data» s.checked };

    ghost undone = { λ s o. table_undone s.«data» };

    ghost steady = { λ s t same. table_steady s.«data» t.«data» same };

    fn order(&self) -> usize {
        usize::from(self.data.size)
    }

    fn index(&self, element: u8) -> usize {
        usize::from(element)
    }

    fn element(&self, index: usize) -> u8 {
        if index < self.order() {
            index as u8
        } else {
            UNIT
        }
    }
}
