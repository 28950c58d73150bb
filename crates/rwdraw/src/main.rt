//! The program `rwdraw`: it makes the policies that nodes decide by, and a canvas over standard output, and is one
//! call of `picture_cli`, whose root says what is drawn and said, and which status comes back. It stands on
//! `picture_cli`, `world_settings`, `admission_policy`, `lock_messages` and `lock_model`.
#![tactic(auto)]

use admission_policy::{FirstProblem, SecondProblem};
use lock_messages::MAX_NODES;
use picture_cli::SvgCanvas;
use std::process::ExitCode;
use std::{env, io};
use world_settings::{add_pair, no_policies};

/// Ends the program where there is no memory for policies.
fn end_without_memory(rt: &HostRuntime) -> ExitCode {
    ExitCode::from(picture_cli::end_without_memory(&mut rt.stderr()).status)
}

fn main(rt: HostRuntime) -> ExitCode {
    let alloc = rt.alloc();
    let mut policies = no_policies(alloc);
    for _ in 0..MAX_NODES {
        let Ok(first) = Box::new(alloc, FirstProblem) else {
            return end_without_memory(&rt);
        };
        let Ok(second) = Box::new(alloc, SecondProblem) else {
            return end_without_memory(&rt);
        };
        let Ok(()) = add_pair(&mut policies, first, second) else {
            return end_without_memory(&rt);
        };
    }
    let mut output = io::writer(&rt);
    let mut page = SvgCanvas::new(alloc, &mut output);
    let ended = picture_cli::run(
        alloc,
        env::args(&rt),
        policies,
        rt.stdin(),
        &mut page,
        &mut rt.stderr(),
    );
    ExitCode::from(ended.status)
}
