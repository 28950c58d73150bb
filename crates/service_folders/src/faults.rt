// Why a service's directory can't be made, opened or used.

ghost use Rattle.std.specs.Prelude.{◌≡◌};
ghost use Rattle.service_folders.specs.Faults.{service_fault_number};

use file_plate::FileFault;
use thiserror::Error;
use world_settings::SettingsFault;

/// Why a service's directory can't be made, opened or used. Programs print the number.
#[derive(Clone, Copy, Debug, PartialEq, Eq, Error)]
pub enum ServiceFault {
    /// 961: the directory of a new service is there already and is not empty.
    #[error("the directory is not empty")]
    NotEmpty,
    /// 962: the directory, or a file in it, can't be made.
    #[error("the directory or a file in it can't be made")]
    Unwritable,
    /// 963: the directory has no settings that can be read, so it is no service's directory.
    #[error("not a service's directory: no settings.toml")]
    NoService,
    /// 964: the secret is missing, can't be read, or has less than 32 bytes.
    #[error("the secret is missing or too short")]
    NoSecret,
    /// 965: the service has no such node or client.
    #[error("the service has no such node or client")]
    NoActor,
    /// 966: a process uses each client of the service.
    #[error("each client is in use")]
    AllHeld,
    /// 967: the actor's inbox is missing or can't be opened.
    #[error("the inbox can't be opened")]
    NoInbox,
    /// 968: the actor's journal can't be opened.
    #[error("the journal can't be opened")]
    NoJournal,
    /// 969: the file for commands or answers can't be opened.
    #[error("the file for commands or answers can't be opened")]
    NoStreams,
    /// 970: the node runs, and did not take the problem in time.
    #[error("the node runs, and did not take the problem in time")]
    NotTaken,
    /// 941 to 947 or 404: the record of an actor can't be made or opened.
    #[error("a record: {0}")]
    Record(FileFault),
    /// The settings are refused, with the number that a script prints for them.
    #[error("settings: {0}")]
    Settings(SettingsFault),
    /// 933: out of memory.
    #[error("out of memory")]
    Memory,
}

impl ServiceFault {
    /// The number by which programs print the fault: 961 to 970 or 933, that of the record's file, or that of the
    /// settings.
    pub fn number(self) -> u16
        ensures { result ≡ service_fault_number self }
    {
        match self {
            ServiceFault::NotEmpty => 961,
            ServiceFault::Unwritable => 962,
            ServiceFault::NoService => 963,
            ServiceFault::NoSecret => 964,
            ServiceFault::NoActor => 965,
            ServiceFault::AllHeld => 966,
            ServiceFault::NoInbox => 967,
            ServiceFault::NoJournal => 968,
            ServiceFault::NoStreams => 969,
            ServiceFault::NotTaken => 970,
            ServiceFault::Record(fault) => fault.number(),
            ServiceFault::Settings(fault) => fault.number(),
            ServiceFault::Memory => 933,
        }
    }
}
