ghost use Rattle.std.specs.Prelude.{◌≡◌};
ghost use Rattle.cells.specs.Sides.{other, at, with_link};

// One of the two sides of a row: the rows before it in its stretch, or those after it.
#[derive(Clone, Copy, PartialEq, Eq, Debug)]
pub enum Side {
    Left,
    Right,
}

impl Side {
    pub fn other(self) -> Side
        ensures value { result ≡ other self }
    {
        match self {
            Side::Left => Side::Right,
            Side::Right => Side::Left,
        }
    }
}

// The two links of a row: the places of the cells below it.
#[derive(Clone, Copy, PartialEq, Eq, Debug)]
pub struct Links {
    pub left: Option<u16>,
    pub right: Option<u16>,
}

impl Links {
    // The links of a row with nothing on either side.
    pub const NONE: Links = Links {
        left: None,
        right: None,
    };

    // The link of one side.
    pub fn at(self, side: Side) -> Option<u16>
        ensures value { result ≡ at self side }
    {
        match side {
            Side::Left => self.left,
            Side::Right => self.right,
        }
    }

    // With another link on one side.
    pub fn with(self, side: Side, link: Option<u16>) -> Links
        ensures value { result ≡ with_link self side link }
    {
        match side {
            Side::Left => Links { left: link, ..self },
            Side::Right => Links {
                right: link,
                ..self
            },
        }
    }
}
