//! The program `rwvote`: it makes the policies that nodes decide by and the records of a run, and is one
//! call of `command_line`, whose contract says what is written, what is said on standard error, and which
//! status comes back. It stands on `command_line`, `world_settings`, `run_service`, `admission_policy`,
//! `stable_record`, `lock_messages` and `lock_model`.
#![tactic(auto)]

mod supplies;

use crate::supplies::{add_client, add_nodes, no_records};
use admission_policy::{FirstProblem, SecondProblem};
use lock_messages::{MAX_CLIENTS, MAX_NODES};
use lock_model::Problem;
use run_service::{Supplies, empty_client_record, empty_node_record};
use std::process::ExitCode;
use std::{env, io};
use world_settings::{add_pair, no_policies};

/// Ends the program where there is no memory for policies and records.
fn end_without_memory(rt: &HostRuntime) -> ExitCode {
    ExitCode::from(command_line::end_without_memory(&mut rt.stderr()).status)
}

fn main(rt: HostRuntime) -> ExitCode {
    let alloc = rt.alloc();
    let mut world = no_policies(alloc);
    let mut threads = no_policies(alloc);
    let mut records = no_records(alloc);
    // Only main may make boxes and hand them on, and it can't read the arguments first. So it makes the records of a run
    // too: 32 of nodes and 1,024 of clients, some 2,200 small requests for memory.
    for _ in 0..MAX_NODES {
        let Ok(first) = Box::new(alloc, FirstProblem) else {
            return end_without_memory(&rt);
        };
        let Ok(second) = Box::new(alloc, SecondProblem) else {
            return end_without_memory(&rt);
        };
        let Ok(()) = add_pair(&mut world, first, second) else {
            return end_without_memory(&rt);
        };
    }
    for _ in 0..MAX_NODES {
        let Ok(first) = Box::new(alloc, FirstProblem) else {
            return end_without_memory(&rt);
        };
        let Ok(second) = Box::new(alloc, SecondProblem) else {
            return end_without_memory(&rt);
        };
        let Ok(()) = add_pair(&mut threads, first, second) else {
            return end_without_memory(&rt);
        };
    }
    for _ in 0..MAX_NODES {
        let Ok(first) = empty_node_record(alloc, Problem::First) else {
            return end_without_memory(&rt);
        };
        let Ok(second) = empty_node_record(alloc, Problem::Second) else {
            return end_without_memory(&rt);
        };
        let Ok(first) = Box::new(alloc, first) else {
            return end_without_memory(&rt);
        };
        let Ok(second) = Box::new(alloc, second) else {
            return end_without_memory(&rt);
        };
        let Ok(()) = add_nodes(&mut records, first, second) else {
            return end_without_memory(&rt);
        };
    }
    for _ in 0..MAX_CLIENTS {
        let Ok(client) = empty_client_record(alloc) else {
            return end_without_memory(&rt);
        };
        let Ok(client) = Box::new(alloc, client) else {
            return end_without_memory(&rt);
        };
        let Ok(()) = add_client(&mut records, client) else {
            return end_without_memory(&rt);
        };
    }
    let supplies = Supplies {
        policies: threads,
        records,
    };
    let ended = command_line::run(
        rt,
        alloc,
        env::args(&rt),
        world,
        supplies,
        rt.stdin(),
        &mut io::writer(&rt),
        &mut rt.stderr(),
    );
    ExitCode::from(ended.status)
}
