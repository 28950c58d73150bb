//! The number and the text of each fault.

use lossy_link::{LinkFault, WeatherFault};
use std::alloc::Global;
use test_outcomes::{Outcome, check_answers};

fn of_a_weather(alloc: Global, fault: WeatherFault, want: &str) -> Option<bool> {
    match format!(in alloc; "{} {fault}", fault.number()) {
        Ok(shown) => Some(shown.as_str() == want),
        Err(_) => None,
    }
}

fn of_a_link(alloc: Global, fault: LinkFault, want: &str) -> Option<bool> {
    match format!(in alloc; "{} {fault}", fault.number()) {
        Ok(shown) => Some(shown.as_str() == want),
        Err(_) => None,
    }
}

#[test]
fn texts_of_faults(rt: HostRuntime) -> Outcome {
    let alloc = rt.alloc();
    check_answers(&[
        of_a_weather(
            alloc,
            WeatherFault::OverThousand,
            "901 lose, twice and late are over 1000 together",
        ),
        of_a_link(
            alloc,
            LinkFault::Closed,
            "902 nothing comes over the link any more",
        ),
        of_a_link(alloc, LinkFault::Memory, "903 out of memory for a link"),
    ])
}
