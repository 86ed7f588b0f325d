ghost use Rattle.std.specs.Prelude.{◌≡◌, ℕ, ◌<◌, Some, slice_get};
ghost use Rattle.rows.specs.Letters.{letter_of, kind_of, every_kind};
ghost use Rattle.rows.specs.Places.{place as place_of, EachAtItsPlace};

// How many kinds of row there are.
pub const KINDS: usize = 8;

// The eight kinds of row.
#[derive(Clone, Copy, PartialEq, Eq, Debug)]
pub enum Kind {
    Heading,
    Item,
    RateOnly,
    ProvisionalSum,
    Note,
    Collection,
    Summary,
    Blank,
}

impl Kind {
    // The eight, in order: each stands at its place.
    pub const ALL: [Kind; KINDS] = [
        Kind::Heading,
        Kind::Item,
        Kind::RateOnly,
        Kind::ProvisionalSum,
        Kind::Note,
        Kind::Collection,
        Kind::Summary,
        Kind::Blank,
    ];

    // The kind that stands at a place, if one does. What `ALL` holds is shown here, since a constant has no contract.
    pub fn at(place: usize) -> Option<Kind>
        ensures all { EachAtItsPlace Kind.ALL }
        ensures value { result ≡ slice_get every_kind place }
        ensures there { (k : Kind) → place ≡ place_of k → result ≡ Some k }
        ensures back { (k : Kind) → result ≡ Some k → place_of k ≡ place }
    {
        Kind::ALL.get(place).copied()
    }

    // The kind that a letter stands for, if it stands for one: an Option, since there is no more to say of another letter.
    pub fn from_letter(letter: char) -> Option<Kind>
        ensures value { result ≡ kind_of letter }
        ensures back { (k : Kind) → result ≡ Some k → letter_of k ≡ letter }
    {
        match letter {
            'H' => Some(Kind::Heading),
            'I' => Some(Kind::Item),
            'R' => Some(Kind::RateOnly),
            'P' => Some(Kind::ProvisionalSum),
            'N' => Some(Kind::Note),
            'C' => Some(Kind::Collection),
            'S' => Some(Kind::Summary),
            'B' => Some(Kind::Blank),
            _ => None,
        }
    }

    // The letter of a kind, which stands for that kind and for no other.
    // A method and no `From`, as the place is: each promises more than its value.
    pub fn letter(self) -> char
        ensures value { result ≡ letter_of self }
        ensures back { kind_of result ≡ Some self }
    {
        match self {
            Kind::Heading => 'H',
            Kind::Item => 'I',
            Kind::RateOnly => 'R',
            Kind::ProvisionalSum => 'P',
            Kind::Note => 'N',
            Kind::Collection => 'C',
            Kind::Summary => 'S',
            Kind::Blank => 'B',
        }
    }

    // The place of a kind among the eight, from 0.
    pub fn place(self) -> usize
        ensures value { result ≡ place_of self }
        ensures bound { result < 8 }
    {
        self as usize
    }
}

#[cfg(test)]
mod tests {
    use super::*;
    use std::process::Abort;

    // The letter of a kind, and the kind that it comes back to.
    fn letter_comes_back(rt: &impl Abort, kind: Kind, letter: char) {
        assert_eq!(rt; kind.letter(), letter);
        assert_eq!(rt; Kind::from_letter(letter), Some(kind));
    }

    #[test]
    fn letters(rt: HostRuntime) {
        letter_comes_back(&rt, Kind::Heading, 'H');
        letter_comes_back(&rt, Kind::Item, 'I');
        letter_comes_back(&rt, Kind::RateOnly, 'R');
        letter_comes_back(&rt, Kind::ProvisionalSum, 'P');
        letter_comes_back(&rt, Kind::Note, 'N');
        letter_comes_back(&rt, Kind::Collection, 'C');
        letter_comes_back(&rt, Kind::Summary, 'S');
        letter_comes_back(&rt, Kind::Blank, 'B');
    }

    #[test]
    fn no_letters(rt: HostRuntime) {
        assert_eq!(rt; Kind::from_letter('h'), None);
        assert_eq!(rt; Kind::from_letter('X'), None);
        assert_eq!(rt; Kind::from_letter(' '), None);
        assert_eq!(rt; Kind::from_letter('\u{0}'), None);
    }
}
