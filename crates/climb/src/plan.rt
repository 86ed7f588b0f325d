ghost use Rattle.std.specs.Prelude.{◌≡◌, ◌+◌, nat_lt};
ghost use Rattle.climb.specs.Triples.{HeightAt, Opens, branch, outer, inner};
ghost use Rattle.climb.specs.Plans.{PicksAt, Plans};

use cells::cell::Cell;
use cells::links::{Links, Side};
use cells::mend::Row;
use cells::reach::look;

// One side of a row: its link, and how high the tree is that it leads to.
#[derive(Clone, Copy)]
pub struct Branch {
    pub link: Option<u16>,
    pub height: u8,
}

// A row and its two sides.
#[derive(Clone, Copy)]
pub struct Node {
    pub row: Row,
    pub left: Branch,
    pub right: Branch,
}

impl Node {
    // The branch on one side. A node is no pair of links: it knows heights, too.
    fn at(self, side: Side) -> Branch
        ensures value { result ≡ branch self side }
    {
        match side {
            Side::Left => self.left,
            Side::Right => self.right,
        }
    }
}

// Three rows and the four links around them, in row order.
#[derive(Clone, Copy)]
pub struct Triple {
    pub first: Option<u16>,
    pub low: Row,
    pub second: Option<u16>,
    pub middle: Row,
    pub third: Option<u16>,
    pub high: Row,
    pub fourth: Option<u16>,
}

impl Triple {
    // The three rows where one side of a row is too high and its root leans to the same side: the root comes to the top.
    // Both sides are written out, here and in `inner`: the rows stand in order, and a mirror moves all but the middle.
    fn outer(side: Side, child: Node, deep: Node, row: Row, far: Option<u16>) -> Triple
        ensures value { result ≡ outer side child deep row far }
    {
        match side {
            Side::Left => Triple {
                first: deep.left.link,
                low: deep.row,
                second: deep.right.link,
                middle: child.row,
                third: child.right.link,
                high: row,
                fourth: far,
            },
            Side::Right => Triple {
                first: far,
                low: row,
                second: child.left.link,
                middle: child.row,
                third: deep.left.link,
                high: deep.row,
                fourth: deep.right.link,
            },
        }
    }

    // Where its root leans to the other side: the root of that side comes to the top.
    fn inner(side: Side, child: Node, deep: Node, row: Row, far: Option<u16>) -> Triple
        ensures value { result ≡ inner side child deep row far }
    {
        match side {
            Side::Left => Triple {
                first: child.left.link,
                low: child.row,
                second: deep.left.link,
                middle: deep.row,
                third: deep.right.link,
                high: row,
                fourth: far,
            },
            Side::Right => Triple {
                first: far,
                low: row,
                second: deep.left.link,
                middle: deep.row,
                third: deep.right.link,
                high: child.row,
                fourth: child.right.link,
            },
        }
    }
}

// How a row is joined with its sides: as it stands, or by three rows of which the middle one comes to the top.
// An enum and no Option: where there is no plan, a cell was not handed over.
#[derive(Clone, Copy)]
pub enum Plan {
    Straight,
    Restructured(Triple),
}

// How high the tree is that a link leads to; none where its cell was not handed over.
// Beside `size_at` and no function of the field to read: each clause names what it reads.
fn height_at<E: Copy>(cells: &[Cell<E>], link: Option<u16>) -> Option<u8>
    ensures value { HeightAt cells.now link result }
{
    match link {
        None => Some(0),
        Some(place) => Some(look(cells, place)?.height),
    }
}

// The row that a link leads to; none where it leads to none, or to a cell that was not handed over.
fn open<E: Copy>(cells: &[Cell<E>], link: Option<u16>) -> Option<Node>
    ensures value { Opens cells.now link result }
{
    let place = link?;
    let cell = look(cells, place)?;
    let left = height_at(cells, cell.left)?;
    let right = height_at(cells, cell.right)?;
    Some(Node {
        row: Row {
            place,
            kind: cell.kind,
        },
        left: Branch {
            link: cell.left,
            height: left,
        },
        right: Branch {
            link: cell.right,
            height: right,
        },
    })
}

// The three rows where one side is too high: the row, the root of that side, and the root of that root's higher side.
fn pick<E: Copy>(cells: &[Cell<E>], side: Side, row: Row, links: Links) -> Option<Plan>
    ensures value { PicksAt side cells.now row links.left links.right result }
{
    let opposite = side.other();
    let far = links.at(opposite);
    let child = open(cells, links.at(side))?;
    let outer = child.at(side);
    let inner = child.at(opposite);
    if outer.height >= inner.height {
        let deep = open(cells, outer.link)?;
        return Some(Plan::Restructured(Triple::outer(side, child, deep, row, far)));
    }
    let deep = open(cells, inner.link)?;
    Some(Plan::Restructured(Triple::inner(side, child, deep, row, far)))
}

// Whether the first height is more than one above the second.
fn too_high(first: u8, second: u8) -> bool
    ensures value { result ≡ nat_lt (second + 1) first }
{
    u16::from(first) > u16::from(second) + 1
}

// How a row is to be joined with the trees that two links lead to.
pub fn choose<E: Copy>(cells: &[Cell<E>], row: Row, links: Links) -> Option<Plan>
    ensures value { Plans cells.now row links.left links.right result }
{
    let below = height_at(cells, links.left)?;
    let above = height_at(cells, links.right)?;
    if too_high(below, above) {
        return pick(cells, Side::Left, row, links);
    }
    if too_high(above, below) {
        return pick(cells, Side::Right, row, links);
    }
    Some(Plan::Straight)
}
