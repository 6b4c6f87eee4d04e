//! Worked examples, to read and to copy from: each module shows one use of the libraries or of a session, and
//! prints what it finds. Those behind the first take what it shows from there.
#![tactic(auto)]

mod asking;
mod collecting;
mod deciding;
mod editing;
mod frames;
mod functions;
mod linking;
mod refusing;
mod telling;

use anyhow::Result;
use cedar_evaluator::Extensions;
use std::alloc::Global;

/// How deep texts may nest, and evaluations may go.
const DEPTH: u32 = 256;

/// Shows each example that reads no file. Texts may call the functions of the table of extensions, but those of the
/// last, which makes a table of its own.
fn show_each(rt: &impl Print, alloc: Global, extensions: &Extensions<'_>) -> Result<()> {
    asking::show(rt, alloc, extensions)?;
    linking::show(rt, alloc, extensions)?;
    editing::show(rt, alloc)?;
    frames::show(rt, alloc, extensions)?;
    telling::show(rt, alloc, extensions)?;
    refusing::show(rt, alloc, extensions)?;
    collecting::show(rt, alloc, extensions)?;
    functions::show(rt, alloc)
}

fn main(rt: HostRuntime) -> Result<()> {
    let alloc = rt.alloc();
    let extensions = Extensions::all_available(alloc)?;
    show_each(&rt, alloc, &extensions)?;
    deciding::show(&rt, &extensions)
}
