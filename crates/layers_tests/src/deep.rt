ghost use Rattle.std.specs.Prelude.{◌≡◌, true};
ghost use Rattle.monoid.specs.Lamps.{lights};
ghost use Rattle.layers_tests.specs.Deep.{begun_data, NotBoth};

use crate::first::First;
use before_after::recogniser::BeforeAfter;
use layers::all::All;
use layers::not::Not;
use layers::reversed::Reversed;
use layers::side_by_side::SideBySide;
use memo::memo::Memo;
use monoid::fold::word_lamps;
use monoid::lamps::Lamps;
use rows::kind::{KINDS, Kind};
use table::data::{MOST, TableData};
use table::table::Table;

// The table of order 3 in which a product is its first factor, unless that is the unit; a collection is lit. Written out
// again, since panels are made of the crates that are tested here.
fn begun_data() -> TableData
    ensures value { result ≡ begun_data }
{
    let mut products = [[0; MOST]; MOST];
    products[0] = [0, 1, 2, 0, 0, 0, 0, 0];
    products[1] = [1, 1, 1, 0, 0, 0, 0, 0];
    products[2] = [2, 2, 2, 0, 0, 0, 0, 0];
    let mut lit = [false; MOST];
    lit[1] = true;
    TableData {
        size: 3,
        products,
        images: [2, 2, 2, 2, 2, 1, 2, 2],
        lit,
    }
}

// Lamp 0 is lit unless the last row is a collection, and some summary has before it and after it a word that begins
// with one.
pub fn deep_lamps(word: &[Kind]) -> Lamps
    ensures only { lights result 0 ≡ true → NotBoth word.now }
    ensures every { NotBoth word.now → lights result 0 ≡ true }
{
    // By the places of the kinds, as panels mark them.
    let marks: [bool; KINDS] = [false, false, false, false, false, false, true, false];
    let table = Table::new(begun_data());
    let kept = Memo::new(table);
    let backwards = Reversed::new(kept);
    let between = BeforeAfter::new(First::new(), First::new(), marks);
    let beside = SideBySide::new(backwards, between);
    let all = All::new(beside);
    let mut pile = Not::new(all);
    word_lamps(&mut pile, word)
}

#[cfg(test)]
mod tests {
    use super::*;

    const C: Kind = Kind::Collection;

    const N: Kind = Kind::Note;

    const S: Kind = Kind::Summary;

    fn lit(word: &[Kind]) -> bool {
        deep_lamps(word).lights(0)
    }

    #[test]
    fn not_both(rt: HostRuntime) {
        assert!(rt; lit(&[]));
        assert!(rt; lit(&[N, S, C]));
        assert!(rt; lit(&[C, S, C, N]));
        assert!(rt; !lit(&[C, S, C]));
        assert!(rt; !lit(&[C, N, S, C, N, C]));
    }
}
