//! Texts that name the actors of one machine.

use lock_messages::{Actor, ClientId, NodeId};
use service_folders::Part;
use test_outcomes::{Failure, Outcome, check_row};

/// Texts that name actors, how many nodes they name, how many clients, and the sums of their numbers.
const TEXTS: [(&str, [u32; 4]); 8] = [
    ("n1", [1, 0, 1, 0]),
    ("c1024", [0, 1, 0, 1_024]),
    ("n1,c1-c16", [1, 16, 1, 136]),
    ("n1-n16,c1-c1024", [16, 1_024, 136, 524_800]),
    ("n2,n2,n1-n2", [2, 0, 3, 0]),
    ("c7-c7", [0, 1, 0, 7]),
    ("c3,c1", [0, 2, 0, 4]),
    ("n9-n10", [2, 0, 19, 0]),
];

/// Texts that name none.
const NO_TEXTS: [&str; 17] = [
    "", ",", "n1,", ",n1", "n0", "n17", "c0", "c1025", "n01", "n1 ", "n2-n1", "n1-c2", "n1-2",
    "n1-n2-n3", "N1", "1", "c1-",
];

/// How many nodes a part has, and the sum of their numbers.
fn node_counts(part: &Part) -> [u32; 2] {
    let mut counts = [0u32; 2];
    for number in 1..17u8 {
        if let Some(node) = NodeId::of(number) {
            if part.has(Actor::Node(node)) {
                counts[0] = counts[0].saturating_add(1);
                counts[1] = counts[1].saturating_add(u32::from(number));
            }
        }
    }
    counts
}

/// How many clients a part has, and the sum of their numbers.
fn client_counts(part: &Part) -> [u32; 2] {
    let mut counts = [0u32; 2];
    for number in 1..1_025u32 {
        if let Some(client) = ClientId::of(number) {
            if part.has(Actor::Client(client)) {
                counts[0] = counts[0].saturating_add(1);
                counts[1] = counts[1].saturating_add(number);
            }
        }
    }
    counts
}

#[test]
fn texts_that_name_actors() -> Outcome {
    for (row, (text, want)) in TEXTS.iter().enumerate() {
        let Some(part) = Part::read(text) else {
            return Err(Failure::NoAnswer(row));
        };
        let [nodes, sum] = node_counts(&part);
        let [clients, other_sum] = client_counts(&part);
        check_row([nodes, clients, sum, other_sum] == *want, row)?;
    }
    Ok(())
}

#[test]
fn texts_that_name_none() -> Outcome {
    for (row, text) in NO_TEXTS.iter().enumerate() {
        check_row(Part::read(text).is_none(), row)?;
    }
    Ok(())
}
