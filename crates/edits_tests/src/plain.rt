use rows::kind::Kind;

// How many rows a plain list has room for.
pub const ROOM: usize = 48;

// A list of kinds, with which the rows of a tree are compared. An array with a count and no Vec: a sheet is copied whole.
#[derive(Clone, Copy)]
pub struct Plain {
    rows: [Kind; ROOM],
    len: u16,
}

impl Plain {
    pub fn new() -> Plain {
        Plain {
            rows: [Kind::Blank; ROOM],
            len: 0,
        }
    }

    pub fn len(&self) -> u16 {
        self.len
    }

    pub fn kind(&self, index: usize) -> Kind {
        self.rows.get(index).copied().unwrap_or(Kind::Blank)
    }

    // The rows that it has.
    pub fn rows(&self) -> &[Kind] {
        &self.rows[..usize::from(self.len).min(ROOM)]
    }

    pub fn insert(&mut self, index: u16, kind: Kind) {
        let len = usize::from(self.len);
        let index = usize::from(index);
        if len >= ROOM || index > len {
            return;
        }
        for moved in 0..len - index {
            self.rows[len - moved] = self.rows[len - moved - 1];
        }
        self.rows[index] = kind;
        self.len = self.len.saturating_add(1);
    }

    pub fn strike(&mut self, index: u16) {
        let len = usize::from(self.len);
        let index = usize::from(index);
        if len > ROOM || index >= len {
            return;
        }
        for moved in index..len - 1 {
            self.rows[moved] = self.rows[moved + 1];
        }
        self.len = self.len.saturating_sub(1);
    }

    pub fn replace(&mut self, index: u16, kind: Kind) {
        if let Some(row) = self.rows.get_mut(usize::from(index)) {
            *row = kind;
        }
    }
}
