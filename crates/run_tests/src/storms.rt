// Runs in a storm of loss, repeats and delays.

use crate::gates::OpenGate;
use crate::rows::{Row, goes};
use stable_record::Leaves;
use std::alloc::Global;
use std::sync::Wait;
use std::thread::Threads;
use test_outcomes::{Failure, Outcome};
use test_support::Device;

/// Twenty wishes of each of eight clients on three resources.
const WISHES: u32 = 160;

/// The modes that take turns in a storm.
type Modes = [&'static str; 3];

const TWO_MODES: Modes = ["write", "read", "read"];

const THREE_MODES: Modes = ["write", "soften", "read"];

/// The text of a wish: clients, modes and names take turns.
fn text(alloc: Global, place: u32, modes: &Modes) -> Result<Vec<u8>, Failure> {
    let client = place % 8 + 1;
    let round = place / 8;
    let mode = match (round + client) % 3 {
        0 => modes[0],
        1 => modes[1],
        _ => modes[2],
    };
    let name = match (round + client / 2) % 3 {
        0 => "a",
        1 => "b",
        _ => "c",
    };
    let text = format!(in alloc; "c{client} {mode} {name}")?;
    Ok(text.into_bytes())
}

/// The text of a client's wish in a round; some wishes are to soften.
pub(crate) fn own_text(alloc: Global, client: u32, round: u32) -> Result<Vec<u8>, Failure> {
    let place = round.wrapping_mul(8).wrapping_add(client).wrapping_sub(1);
    text(alloc, place, &THREE_MODES)
}

/// So many wishes.
fn texts(alloc: Global, count: u32, modes: &Modes) -> Result<Vec<Vec<u8>>, Failure> {
    let mut texts = Vec::new(alloc);
    for place in 0..count {
        texts.push(text(alloc, place, modes)?)?;
    }
    Ok(texts)
}

/// The same, lent.
fn lent(alloc: Global, texts: &[Vec<u8>]) -> Result<Vec<&[u8]>, Failure> {
    let mut wishes = Vec::new(alloc);
    for text in texts {
        wishes.push(text.as_slice())?;
    }
    Ok(wishes)
}

/// Runs so many wishes with every record on this device. All are entered, and nobody ends by a fault.
fn storm<R: Threads + Wait + Copy + Send>(
    rt: R,
    alloc: Global,
    seed: u64,
    count: u32,
    modes: &Modes,
    device: Device,
) -> Outcome {
    let texts = texts(alloc, count, modes)?;
    let wishes = lent(alloc, &texts)?;
    let row = Row {
        votes: &[1, 1, 1],
        read: 2,
        write: 2,
        clients: 8,
        wishes: wishes.as_slice(),
        devices: &[device; 3],
        of_clients: device,
        weather: (seed, 200, 200, 200),
        entered: count,
        events: None,
        faults: &[],
        lines: &[],
        order: &[],
        number: seed as usize,
    };
    goes(rt, alloc, &row, &OpenGate)
}

/// Storms by five seeds.
fn storms<R: Threads + Wait + Copy + Send>(rt: R, alloc: Global, modes: &Modes) -> Outcome {
    for seed in 1..6u64 {
        storm(rt, alloc, seed, WISHES, modes, Device::Memory)?;
    }
    Ok(())
}

#[test]
fn a_storm_of_five_seeds(rt: HostRuntime) -> Outcome {
    storms(rt, rt.alloc(), &TWO_MODES)
}

#[test]
fn writers_that_soften(rt: HostRuntime) -> Outcome {
    storms(rt, rt.alloc(), &THREE_MODES)
}

/// Six wishes of each client.
const FEW_WISHES: u32 = 48;

/// Runs a storm with each record on a device that fails at every second keep, at every third, and so on.
fn fails<R: Threads + Wait + Copy + Send>(rt: R, alloc: Global, leaves: Leaves) -> Outcome {
    for every in 2..6u32 {
        let device = Device::Faulty(every, leaves, 0);
        storm(
            rt,
            alloc,
            u64::from(every),
            FEW_WISHES,
            &THREE_MODES,
            device,
        )?;
    }
    Ok(())
}

#[test]
fn records_that_fail_and_leave_the_old(rt: HostRuntime) -> Outcome {
    fails(rt, rt.alloc(), Leaves::Old)
}

#[test]
fn records_that_fail_and_leave_the_new(rt: HostRuntime) -> Outcome {
    fails(rt, rt.alloc(), Leaves::New)
}
