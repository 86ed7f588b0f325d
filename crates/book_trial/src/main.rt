// Works books by calls without pattern under several recognisers, each beside plain lists of the same rows, and prints
// for each whether the two agreed throughout.
#![tactic(auto)]

mod check;
mod draw;
mod fault;
mod lists;
mod met;
mod spoil;
mod tokens;
mod trial;

use crate::trial::{LEAST, Plan, run};
use monoid::recogniser::Recogniser;
use panels::lamps::{closed, first_collection, page};
use panels::panels::{panel_one, panel_two};

// Two books that live long.
const LONG: Plan = Plan {
    cells: 64,
    rounds: 2,
    calls: 3000,
    spoils: false,
};

// Many books whose cells are spoilt.
const SPOILT: Plan = Plan {
    cells: 16,
    rounds: 40,
    calls: 300,
    spoils: true,
};

// Works a trial under a recogniser, and writes how it ended.
fn report<R: Recogniser + Drop>(
    rt: &HostRuntime,
    name: &str,
    recogniser: R,
    plan: Plan,
) -> anyhow::Result<()> {
    let mut recogniser = recogniser;
    let (calls, ended) = run(rt.alloc(), &mut recogniser, plan);
    match ended {
        Err(fault) => println!(rt; "{name}: {fault} at call {calls}")?,
        Ok(()) => println!(rt;
            "{name}: {calls} calls agreed, each kind accepted and declined {LEAST} times or more"
        )?,
    }
    Ok(())
}

fn main(rt: HostRuntime) -> anyhow::Result<()> {
    report(&rt, "closed", closed(), LONG)?;
    report(&rt, "page", page(), LONG)?;
    report(&rt, "first collection", first_collection(), LONG)?;
    report(&rt, "panel 1", panel_one(), LONG)?;
    report(&rt, "panel 2", panel_two(), LONG)?;
    report(&rt, "panel 1 over spoilt cells", panel_one(), SPOILT)
}
