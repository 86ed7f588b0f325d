ghost use Rattle.std.specs.Prelude.{◌<◌, length, IfSome};

// How many cells and bytes of output a case may ask for at the most.
const MOST: usize = 100_000;

// A script, and what is lent to each run of it.
#[derive(Clone, Copy)]
pub struct Case<'a> {
    pub script: &'a [u8],
    pub cells: usize,
    pub room: usize,
}

// The text before the first such byte, and the text past it.
fn part(text: &[u8], mark: u8) -> Option<(&[u8], &[u8])>
    ensures shorter { IfSome result (λ parts. length parts.1.now < length text.now) }
{
    let at = text.iter().position(|byte| *byte == mark)?;
    Some((&text[..at], &text[at + 1..]))
}

// The number that a text is. Not a number of a script, which has five digits at the most.
fn number(text: &[u8]) -> Option<usize> {
    let mut value: usize = 0;
    for byte in text {
        if !byte.is_ascii_digit() || value > MOST {
            return None;
        }
        value = value * 10 + usize::from(*byte - b'0');
    }
    Some(value)
}

// The first case of a batch, and the rest: a line `case,BYTES,CELLS,ROOM`, so many bytes of script, and byte 10.
pub fn next_case(batch: &[u8]) -> Option<(Case, &[u8])>
    ensures shorter { IfSome result (λ parts. length parts.1.now < length batch.now) }
{
    let (_name, rest) = part(batch, b',')?;
    let (bytes, rest) = part(rest, b',')?;
    let (cells, rest) = part(rest, b',')?;
    let (room, rest) = part(rest, b'\n')?;
    let size = number(bytes)?;
    let cells = number(cells)?.min(MOST);
    let room = number(room)?.min(MOST);
    if size >= rest.len() {
        return None;
    }
    let case = Case {
        script: &rest[..size],
        cells,
        room,
    };
    Some((case, &rest[size + 1..]))
}
