ghost use Rattle.std.specs.Prelude.{◌≡◌};
ghost use Rattle.automaton.specs.Meanings.{automaton_meaning, automaton_from};
ghost use Rattle.automaton.specs.Languages.{Runs};
ghost use Rattle.automaton.specs.Laws.{automaton_shaped, automaton_lawful};
ghost use Rattle.std.proofs.Common.{rules, arith};

use crate::automaton::Automaton;
use crate::data::AutomatonData;
use crate::state_map::StateMap;
use checks::data::Data;
use monoid::recogniser::Recogniser;
use monoid::tally::Tally;
use rows::kind::Kind;

// How many lamps an automaton has.
const WIDTH: usize = 1;

// Its only lamp.
const LAMP: usize = 0;

impl Automaton {
    // The automaton that the data say, or the trivial one where their check declines them. Like `Table::new`, and not one
    // function with it: each says what its data mean.
    #[tactic(auto, using(crate::proofs::Languages::automaton_runs))]
    pub fn new(data: AutomatonData) -> Automaton
        ensures meaning { automaton_meaning result ≡ automaton_from «data» }
        ensures means { ⟦<Automaton as Recogniser>⟧.meaning result ≡ automaton_from «data» }
        ensures runs { Runs «data» (automaton_meaning result) }
        ensures fresh { result.tally.count ≡ 0 }
    {
        Automaton {
            data: data.or_trivial(),
            tally: Tally::new(),
        }
    }
}

impl Recogniser for Automaton {
    type Element = StateMap;

    ghost meaning = { automaton_meaning };

    ghost tally = { λ s. s.tally.count };

    ghost orderly = { λ _. Unit {0} };

    ghost shaped = { λ s. automaton_shaped s };

    ghost lawful = { λ s o. automaton_lawful s };

    ghost bounded = { Prim.search rules };

    fn unit(&self) -> StateMap {
        StateMap::identity()
    }

    fn image(&self, kind: Kind) -> StateMap {
        StateMap::of_row(&self.data, kind)
    }

    fn product(&mut self, left: StateMap, right: StateMap) -> StateMap {
        self.tally.raise();
        left.then(right)
    }

    fn asked(&self) -> u64 {
        self.tally.value()
    }

    fn width(&self) -> usize {
        WIDTH
    }

    fn lit(&self, element: StateMap, lamp: usize) -> bool {
        lamp == LAMP && self.data.is_lit(element.leads(self.data.start))
    }
}
