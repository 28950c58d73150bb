// The texts of all faults of events, lines, settings and runs, with their numbers.

use lossy_link::WeatherFault;
use operator_cli::{LineFault, ServeFault};
use std::alloc::Global;
use std::fmt::Display;
use test_outcomes::{Outcome, check_row};
use vote_weights::BallotFault;
use world_model::StepFault;
use world_settings::SettingsFault;

/// Whether the number and the text of a fault are written so.
fn tells<F: Display + Drop>(alloc: Global, number: u16, fault: F, text: &str) -> Outcome {
    let told = format!(in alloc; "{number} {fault}")?;
    check_row(told.as_str() == text, number as usize)
}

const EVENTS: [(StepFault, &str); 14] = [
    (
        StepFault::UnknownActor,
        "601 there is no such node or client",
    ),
    (StepFault::Down, "602 the actor is down"),
    (StepFault::Up, "603 the actor is up"),
    (StepFault::WrongPhase, "604 the actor is in another phase"),
    (
        StepFault::NotStored,
        "605 what the actor would say isn't kept yet",
    ),
    (StepFault::NothingToSay, "606 the actor has nothing to say"),
    (
        StepFault::NoSuchMessage,
        "607 no message of this number was sent",
    ),
    (
        StepFault::NotAddressed,
        "608 the message is for another actor",
    ),
    (StepFault::NoQuorum, "609 the votes are not enough"),
    (
        StepFault::AttemptsSpent,
        "610 the client's attempts are spent",
    ),
    (StepFault::NothingTried, "611 nothing is being kept"),
    (StepFault::SentListFull, "612 the list of messages is full"),
    (StepFault::Memory, "613 there was no memory"),
    (
        StepFault::NoSuchPlace,
        "614 there is no ballot at this place",
    ),
];

#[test]
fn faults_of_events(rt: HostRuntime) -> Outcome {
    for (fault, text) in &EVENTS {
        tells(rt.alloc(), fault.number(), *fault, text)?;
    }
    Ok(())
}

const LINES: [(LineFault, &str); 5] = [
    (LineFault::Word, "801 no event or query has this word"),
    (LineFault::Actor, "802 no node or client is spelled so"),
    (
        LineFault::Number,
        "803 no message, ballot or problem has this number",
    ),
    (LineFault::Name, "804 no resource has this name"),
    (
        LineFault::Words,
        "805 words are missing or left over, or the line is too long",
    ),
];

#[test]
fn faults_of_lines(rt: HostRuntime) -> Outcome {
    for (fault, text) in &LINES {
        tells(rt.alloc(), fault.number(), *fault, text)?;
    }
    Ok(())
}

const SETTINGS: [(SettingsFault, &str); 8] = [
    (SettingsFault::NoDocument, "921 not a TOML document"),
    (
        SettingsFault::Value,
        "922 a value is missing or out of range",
    ),
    (SettingsFault::UnknownKey, "923 unknown key"),
    (
        SettingsFault::NoEnd,
        "924 no line --- within the first 65536 bytes",
    ),
    (SettingsFault::Memory, "925 out of memory for settings"),
    (
        SettingsFault::Ballot(BallotFault::NoNode),
        "201 the ballot has no node",
    ),
    (
        SettingsFault::Weather(WeatherFault::OverThousand),
        "901 lose, twice and late are over 1000 together",
    ),
    (
        SettingsFault::Wish(LineFault::Actor),
        "802 a wish: no node or client is spelled so",
    ),
];

#[test]
fn faults_of_settings(rt: HostRuntime) -> Outcome {
    for (fault, text) in &SETTINGS {
        tells(rt.alloc(), fault.number(), *fault, text)?;
    }
    Ok(())
}

const RUNS: [(ServeFault, &str); 3] = [
    (ServeFault::Read, "931 reading standard input failed"),
    (ServeFault::Write, "932 writing standard output failed"),
    (ServeFault::Memory, "933 out of memory"),
];

#[test]
fn faults_of_runs(rt: HostRuntime) -> Outcome {
    for (fault, text) in &RUNS {
        tells(rt.alloc(), fault.number(), *fault, text)?;
    }
    Ok(())
}
