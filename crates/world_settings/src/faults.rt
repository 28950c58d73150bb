// What may be wrong with settings, each with its number.

ghost use Rattle.std.specs.Prelude.{◌≡◌};
ghost use Rattle.world_settings.specs.Faults.{settings_fault_number};

use event_lines::LineFault;
use lossy_link::WeatherFault;
use thiserror::Error;
use vote_weights::BallotFault;

/// Why settings are refused. Programs print the number.
#[derive(Clone, Copy, Debug, PartialEq, Eq, Error)]
pub enum SettingsFault {
    /// 924: no line that is exactly `---` begins within the first 65,536 bytes.
    #[error("no line --- within the first 65536 bytes")]
    NoEnd,
    /// 921: they are not a TOML document.
    #[error("not a TOML document")]
    NoDocument,
    /// 923: a key is not one of those that settings have.
    #[error("unknown key")]
    UnknownKey,
    /// 922: a required key is missing, or a value is of the wrong kind or out of range.
    #[error("a value is missing or out of range")]
    Value,
    /// 201 to 208: a ballot or the list of ballots is refused.
    #[error("{0}")]
    Ballot(BallotFault),
    /// 901: of a thousand packets more than a thousand would be lost, go twice or be late.
    #[error("{0}")]
    Weather(WeatherFault),
    /// 801 to 805: what is wrong with the first bad wish.
    #[error("a wish: {0}")]
    Wish(LineFault),
    /// 925: out of memory.
    #[error("out of memory for settings")]
    Memory,
}

impl SettingsFault {
    /// The number by which programs print the fault: 921 to 925, or that of the ballots (201 to 208), of
    /// the weather (901) or of the wish.
    pub fn number(self) -> u16
        ensures { result ≡ settings_fault_number self }
    {
        match self {
            SettingsFault::NoEnd => 924,
            SettingsFault::NoDocument => 921,
            SettingsFault::UnknownKey => 923,
            SettingsFault::Value => 922,
            SettingsFault::Ballot(fault) => fault.number(),
            SettingsFault::Weather(fault) => fault.number(),
            SettingsFault::Wish(fault) => fault.number(),
            SettingsFault::Memory => 925,
        }
    }
}
