//! The program `cedar_session`: answers the commands that stand on standard input, a line for each.
#![tactic(auto)]

use cedar_session::{Watched, program};
use std::env::{Env, FillError};
use std::io::{BufReader, BufWriter};
use std::process::ExitCode;

/// The status where there is no memory for a stream.
const NO_MEMORY: u8 = 4;

/// How many words stand behind the program's name. None of them, nor the name, need be UTF-8.
fn arguments(env: &impl Env) -> usize {
    let mut none = [0u8; 0];
    for count in 0..usize::MAX {
        if let Err(FillError::NotPresent) = env.arg(count + 1, &mut none) {
            return count;
        }
    }
    usize::MAX
}

fn main(rt: HostRuntime) -> ExitCode {
    let Ok(input) = BufReader::new(rt.alloc(), rt.stdin()) else {
        return ExitCode::from(NO_MEMORY);
    };
    let Ok(output) = BufWriter::new(rt.alloc(), rt.stdout()) else {
        return ExitCode::from(NO_MEMORY);
    };
    let mut reader = Watched::new(input);
    let mut writer = Watched::new(output);
    let status = program(
        rt.alloc(),
        arguments(&rt),
        &mut reader,
        &mut writer,
        &mut rt.stderr(),
    );
    ExitCode::from(status)
}
