// Runs a script of edits and questions on a book of sheets, under each panel of lamps in turn.
#![tactic(auto)]

use std::io;
use watch::program::list_script;

fn main(rt: HostRuntime) -> anyhow::Result<()> {
    list_script(&mut rt.stdin(), &mut io::writer(&rt), rt.alloc())?;
    Ok(())
}
