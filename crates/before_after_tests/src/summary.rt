ghost use Rattle.std.specs.Prelude.{◌≡◌, true};
ghost use Rattle.before_after_tests.specs.Summary.{Closed};

use crate::seen::Seen;
use before_after::recogniser::BeforeAfter;
use monoid::fold::word_lamps;
use rows::kind::Kind;

// Whether some summary has a collection before it and none after it.
pub fn closes(word: &[Kind]) -> bool
    ensures only { result ≡ true → Closed word.now }
    ensures every { Closed word.now → result ≡ true }
{
    // By the places of the kinds, as panels mark them.
    let marks = [false, false, false, false, false, false, true, false];
    let mut recogniser = BeforeAfter::new(Seen::new(true), Seen::new(false), marks);
    word_lamps(&mut recogniser, word).lights(0)
}

#[cfg(test)]
mod tests {
    use super::*;

    #[test]
    fn collection_then_summary(rt: HostRuntime) {
        assert!(rt; closes(&[Kind::Collection, Kind::Summary]));
        assert!(rt; closes(&[Kind::Collection, Kind::Item, Kind::Summary, Kind::Blank]));
        assert!(rt;
            closes(&[
                Kind::Collection,
                Kind::Summary,
                Kind::Collection,
                Kind::Summary,
            ],)
        );
    }

    #[test]
    fn nothing_before_or_a_collection_after(rt: HostRuntime) {
        assert!(rt; !closes(&[]));
        assert!(rt; !closes(&[Kind::Summary]));
        assert!(rt; !closes(&[Kind::Collection, Kind::Blank]));
        assert!(rt; !closes(&[Kind::Summary, Kind::Collection]));
        assert!(rt; !closes(&[Kind::Collection, Kind::Summary, Kind::Collection]));
    }
}
