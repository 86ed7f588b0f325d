use crate::fault::Fault;
use crate::lists::Lists;
use calls::outcome::Outcome;
use checks::verdict::ask;
use heights::height::most_height;
use monoid::fold::word_lamps;
use monoid::lamps::Lamps;
use monoid::recogniser::Recogniser;
use plain::call::Call;
use plain::refusal::Refusal;
use plain::state::State;

// The lists and the call stand apart: the lists are those before the call.

// So many times the height of a tree of so many rows, and once more.
fn heights(times: u64, rows: u64) -> u64 {
    let height = u64::from(most_height(u16::try_from(rows).unwrap_or(u16::MAX)));
    height.saturating_add(1).saturating_mul(times)
}

// How many products an edit may ask for: none while its sheet is paused.
fn edit_bound(lists: &Lists, tag: u32) -> u64 {
    if lists.is_in(tag, State::Paused) {
        0
    } else {
        heights(8, lists.rows(tag).saturating_add(1))
    }
}

// How many products an accepted call may ask for.
fn bound(lists: &Lists, call: Call) -> u64 {
    match call {
        Call::Copy { tag, .. } | Call::Recalculate { tag } => lists.rows(tag).saturating_mul(2),
        Call::Insert { tag, .. } | Call::Strike { tag, .. } | Call::Replace { tag, .. } => {
            edit_bound(lists, tag)
        }
        Call::Range { tag, .. } => heights(4, lists.rows(tag)),
        _ => 0,
    }
}

// A call that was declined shows no lamps and asks for no product.
fn nothing_came(outcome: Outcome) -> Result<(), Fault> {
    ask(outcome.lamps == Lamps::none(), Fault::Lamps)?;
    ask(outcome.count == 0, Fault::Count)
}

// The lamps that an accepted call is to show, folded anew from the rows of the list.
fn lamps_anew<R: Recogniser>(recogniser: &mut R, lists: &Lists, call: Call) -> Lamps {
    lists
        .named(call)
        .map_or(Lamps::none(), |rows| word_lamps(recogniser, rows))
}

// Whether a call came to what the lists say: the number, the lamps, and few products.
pub fn check<R: Recogniser>(
    recogniser: &mut R,
    lists: &Lists,
    call: Call,
    outcome: Outcome,
) -> Result<(), Fault> {
    let expected = lists.refusal(call).err();
    ask(outcome.refusal == expected, Fault::Number)?;
    if expected.is_some() {
        return nothing_came(outcome);
    }
    let anew = lamps_anew(recogniser, lists, call);
    ask(outcome.lamps == anew, Fault::Lamps)?;
    ask(outcome.count <= bound(lists, call), Fault::Count)
}

// The same over broken cells: what the records decide is as the lists say, and any other call is accepted or met broken
// cells, and then shows no lamps.
pub fn check_broken(lists: &Lists, call: Call, outcome: Outcome) -> Result<(), Fault> {
    let expected = lists.refusal(call).err();
    if expected.is_some() {
        ask(outcome.refusal == expected, Fault::Number)?;
        return nothing_came(outcome);
    }
    match outcome.refusal {
        None => Ok(()),
        Some(Refusal::BrokenCells) => ask(outcome.lamps == Lamps::none(), Fault::Lamps),
        Some(_) => Err(Fault::Number),
    }
}
