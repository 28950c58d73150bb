// What the program is asked to do, and the policies that the nodes decide by.

use world_settings::{Command, Policies};

/// A command, and the policies that serve it.
#[derive(Drop)]
pub struct Order {
    pub command: Command,
    pub policies: Policies,
}
