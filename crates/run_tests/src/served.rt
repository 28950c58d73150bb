// Runs from the bytes of their settings to what is printed: the quiet, the empty and the hopeless one.

use crate::given::{client_records, node_records};
use crate::supplies::second_records;
use lock_messages::MAX_NODES;
use operator_cli::{Order, ServeFault};
use run_service::{Records, Supplies, serve_run};
use std::alloc::Global;
use std::sync::Wait;
use std::thread::Threads;
use test_outcomes::{Failure, Outcome, check_row};
use test_support::{Device, plain_pairs};
use world_settings::{Command, Policies};

/// Serves a run by these settings, which prints there; its status.
fn served<R: Threads + Wait + Copy + Send>(
    rt: R,
    alloc: Global,
    settings: &str,
    out: &mut Vec<u8>,
) -> Result<u8, Failure> {
    let for_world = Policies {
        pairs: plain_pairs(alloc, MAX_NODES)?,
    };
    let policies = Policies {
        pairs: plain_pairs(alloc, MAX_NODES)?,
    };
    let records = Records {
        first: node_records(alloc, &[Device::Memory; 16])?,
        second: second_records(alloc)?,
        clients: client_records(alloc, Device::Memory, 1_024)?,
    };
    let supplies = Supplies { policies, records };
    let order = Order {
        command: Command::Run { journal: false },
        policies: for_world,
    };
    match serve_run(
        rt,
        alloc,
        order,
        settings.as_bytes(),
        out,
        supplies,
        &mut None,
    ) {
        Ok(status) => Ok(status),
        Err(ServeFault::Memory | ServeFault::Write) => Err(Failure::Memory),
        Err(_) => Err(Failure::Wrong(0)),
    }
}

/// Ends the test unless just this was printed, with status 0.
fn is_printed(came: Result<u8, Failure>, out: &[u8], expected: &str) -> Outcome {
    check_row(came? == 0, 1)?;
    check_row(out == expected.as_bytes(), 2)
}

/// Ends the test unless these settings print this, with status 0.
pub(crate) fn prints<R: Threads + Wait + Copy + Send>(
    rt: R,
    alloc: Global,
    settings: &str,
    expected: &str,
) -> Outcome {
    let mut out = Vec::new(alloc);
    let came = served(rt, alloc, settings, &mut out);
    is_printed(came, out.as_slice(), expected)
}

/// All of seven actors rise; three events are for the attempt, six for each of two asks, two for the visit,
/// six for each of two releases.
const ONE_WISH: &str = "\
votes = [1, 1, 1]
read = 2
write = 2
problem = 1
clients = 4
wishes = ['c1 read a']
---
";

#[test]
fn a_quiet_run(rt: HostRuntime) -> Outcome {
    prints(rt, rt.alloc(), ONE_WISH, "entered 1\nevents 36\n")
}

const NO_WISH: &str = "\
votes = [1, 1, 1]
read = 2
write = 2
problem = 1
clients = 4
---
";

#[test]
fn an_empty_run(rt: HostRuntime) -> Outcome {
    prints(rt, rt.alloc(), NO_WISH, "entered 0\nevents 7\n")
}

const ALL_LOST: &str = "\
votes = [1]
read = 1
write = 1
problem = 1
clients = 1
lose = 1000
wishes = ['c1 read a']
---
";

/// Ends the test unless it is printed that nobody entered, and that c1 gave up, with status 1.
fn is_hopeless(came: Result<u8, Failure>, out: &[u8]) -> Outcome {
    check_row(came? == 1 && out.starts_with(b"entered 0\n"), 1)?;
    check_row(out.ends_with(b"\nc1 fault 913\n"), 2)
}

/// All is lost: the client gives up.
#[test]
fn a_hopeless_run(rt: HostRuntime) -> Outcome {
    let mut out = Vec::new(rt.alloc());
    let came = served(rt, rt.alloc(), ALL_LOST, &mut out);
    is_hopeless(came, out.as_slice())
}
