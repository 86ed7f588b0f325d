// Runs many scripts, each under both panels with cells and output of a size of its own, and prints their listings.
#![tactic(auto)]

mod batch;

use crate::batch::next_case;
use anyhow::Context;
use panels::panels::{PanelOne, PanelTwo};
use std::io;
use std::io::Read;
use watch::writing::write_run;

fn main(rt: HostRuntime) -> anyhow::Result<()> {
    let mut batch = Vec::new(rt.alloc());
    rt.stdin()
        .read_to_end(&mut batch)
        .context("the batch could not be read from standard input")?;
    let mut out = io::writer(&rt);
    let mut rest = batch.as_slice();
    while let Some((case, after)) = next_case(rest) {
        write_run::<PanelOne, _>(case.script, case.cells, case.room, &mut out, rt.alloc())?;
        write_run::<PanelTwo, _>(case.script, case.cells, case.room, &mut out, rt.alloc())?;
        rest = after;
    }
    Ok(())
}
