ghost use Rattle.std.specs.Prelude.{◌≡◌, ◌+◌, ◌*◌, ◌<◌, ◌≤◌};
ghost use Rattle.std.specs.Option.{MatchOption};
ghost use Rattle.pairs.specs.declared.member.Member.TheVariants.{First, Second};
ghost use Rattle.pairs.specs.Bits.{bit};
ghost use Rattle.pairs.specs.Lines.{LineAs};

use crate::member::Member;

// How many indexes a member of a pair can be.
const INDEXES: usize = 8;

// The bits of the first row.
const FIRST_ROW: u64 = 0xff;

// The bits of the first column.
const FIRST_COLUMN: u64 = 0x0101_0101_0101_0101;

// An index that a member of a pair can be.
#[derive(Clone, Copy)]
pub(crate) struct Index {
    value: usize,
    ghost below: { value < 8 },
}

impl Index {
    // An Option and no `TryFrom`: there is no more to say of another number.
    fn new(value: usize) -> Option<Index>
        ensures value { MatchOption result (8 ≤ value) (λ index. index.value ≡ value) }
    {
        if value < INDEXES {
            Some(Index { value })
        } else {
            None
        }
    }

    // Two indexes, where both numbers are.
    pub(crate) fn both(first: usize, second: usize) -> Option<(Index, Index)>
        ensures value { MatchOption result (first < 8 → second < 8 → ⊥) (λ both. (both.0.value ≡ first) × (both.1.value ≡ second)) }
    {
        Some((Index::new(first)?, Index::new(second)?))
    }
}

// The bit of a pair.
pub(crate) fn place(first: Index, second: Index) -> usize
    ensures value { result ≡ 8 * first.value + second.value }
{
    INDEXES * first.value + second.value
}

// Whether the bit of a pair is set.
pub(crate) fn is_set(bits: u64, first: Index, second: Index) -> bool
    ensures value { result ≡ bit bits (8 * first.value + second.value) }
{
    (bits >> place(first, second)) & 1 == 1
}

// Row `from` as row `to`, and nothing else.
fn row_as(bits: u64, from: Index, to: Index) -> u64
    ensures value { LineAs First bits from.value to.value result }
{
    ((bits >> (INDEXES * from.value)) & FIRST_ROW) << (INDEXES * to.value)
}

// Column `from` as column `to`, and nothing else.
fn column_as(bits: u64, from: Index, to: Index) -> u64
    ensures value { LineAs Second bits from.value to.value result }
{
    ((bits >> from.value) & FIRST_COLUMN) << to.value
}

// The line of the pairs that have `from` as a member, as the line of those that have `to`.
pub(crate) fn line_as(bits: u64, member: Member, from: Index, to: Index) -> u64
    ensures value { LineAs member bits from.value to.value result }
{
    match member {
        Member::First => row_as(bits, from, to),
        Member::Second => column_as(bits, from, to),
    }
}
