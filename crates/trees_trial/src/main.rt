// Works trees of rows by edits without pattern under several recognisers, each beside a plain list of the same rows, and
// prints for each whether the two agreed throughout.
#![tactic(auto)]

mod compare;
mod edit;
mod fault;
mod sheet;
mod trial;

use crate::trial::{EDITS, run};
use monoid::recogniser::Recogniser;
use panels::lamps::{closed, first_collection, page};
use panels::panels::panel_one;

// Works a trial under a recogniser, and writes how it ended.
fn report<R: Recogniser + Drop>(rt: &HostRuntime, name: &str, recogniser: R) -> anyhow::Result<()> {
    let (met, ended) = run(rt.alloc(), recogniser);
    let edits = met.edits;
    let lit = met.lit;
    let worst = met.worst;
    match ended {
        Err(fault) => println!(rt; "{name}: {fault} at edit {edits}")?,
        Ok(()) => println!(rt;
            "{name}: {EDITS} edits agreed, {lit} ranges lit, worst {} of {}",
            worst.spent, worst.bound
        )?,
    }
    Ok(())
}

fn main(rt: HostRuntime) -> anyhow::Result<()> {
    report(&rt, "closed", closed())?;
    report(&rt, "page", page())?;
    report(&rt, "first collection", first_collection())?;
    report(&rt, "panel 1", panel_one())
}
