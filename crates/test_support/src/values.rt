// The few values that tests name, and a test's rows. Where a value is not one, the test is wrong.

ghost use Rattle.std.specs.Prelude.{◌≡◌, IfOk};

use event_lines::read_event;
use lock_messages::{Attempt, ClientId, Mode, NodeId, ResourceName, Ticket};
use lossy_link::Weather;
use test_outcomes::{Failure, Outcome};
use world_model::Event;

/// The node of a number that a row has. For a number that stands in a test there is `node_id`.
pub fn node(number: u8) -> Result<NodeId, Failure>
    ensures { IfOk result (λ node. node ≡ number) }
{
    NodeId::of(number).ok_or(Failure::Wrong(0))
}

/// The client of a number that a row has. For a number that stands in a test there is `client_id`.
pub fn client(number: u32) -> Result<ClientId, Failure>
    ensures { IfOk result (λ client. client ≡ number) }
{
    ClientId::of(number).ok_or(Failure::Wrong(0))
}

/// The attempt of this number.
pub fn attempt(number: u64) -> Result<Attempt, Failure>
    ensures { IfOk result (λ attempt. attempt ≡ number) }
{
    Attempt::of(number).ok_or(Failure::Wrong(0))
}

/// The resource of this name.
pub fn resource(name: &[u8]) -> Result<ResourceName, Failure>
    ensures { IfOk result (λ resource. resource ≡ name.now) }
{
    ResourceName::of(name).ok_or(Failure::Wrong(0))
}

/// The ticket of a client, in its attempt of this number, for the resource of this name.
pub fn ticket(number: u32, of: u64, mode: Mode, name: &[u8]) -> Result<Ticket, Failure>
    ensures { IfOk result (λ t. t ≡ record { client = number; attempt = of; mode = mode; resource = name.now }) }
{
    Ok(Ticket {
        client: client(number)?,
        attempt: attempt(of)?,
        mode,
        resource: resource(name)?,
    })
}

/// The ticket of a client in its first attempt, for `a`.
pub fn first_ticket(number: u32, mode: Mode) -> Result<Ticket, Failure> {
    ticket(number, 1, mode, b"a")
}

/// The event of a line.
pub fn event(line: &str) -> Result<Event, Failure> {
    match read_event(line.as_bytes()) {
        Ok(event) => Ok(event),
        Err(_) => Err(Failure::Wrong(0)),
    }
}

/// The weather of a seed and the odds of loss, repeats and delays, of a thousand.
pub fn weather(odds: (u64, u16, u16, u16)) -> Result<Weather, Failure> {
    let (seed, lose, twice, late) = odds;
    match Weather::of(seed, lose, twice, late) {
        Ok(weather) => Ok(weather),
        Err(_) => Err(Failure::Wrong(0)),
    }
}

/// The outcome of a row: what is wrong in it is wrong in the row of this number.
pub fn in_row(outcome: Outcome, row: usize) -> Outcome {
    match outcome {
        Err(Failure::Wrong(_)) => Err(Failure::Wrong(row)),
        other => other,
    }
}
