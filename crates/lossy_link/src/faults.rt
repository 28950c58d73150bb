// Why a weather could not be made, or a link could not send or receive.

ghost use Rattle.std.specs.Prelude.{◌≡◌};
ghost use Rattle.lossy_link.specs.Faults.{weather_fault_number, link_fault_number};

use thiserror::Error;

/// Why a weather could not be made.
#[derive(Clone, Copy, Debug, PartialEq, Eq, Error)]
pub enum WeatherFault {
    /// 901: the parcels lost, gone twice and late are more than a thousand of a thousand.
    #[error("lose, twice and late are over 1000 together")]
    OverThousand,
}

impl WeatherFault {
    /// The fault's number, as programs print it.
    pub fn number(self) -> u16
        ensures { result ≡ weather_fault_number self }
    {
        match self {
            WeatherFault::OverThousand => 901,
        }
    }
}

/// Why a link could not be made, send or receive.
#[derive(Clone, Copy, Debug, PartialEq, Eq, Error)]
pub enum LinkFault {
    /// 902: nothing comes any more.
    #[error("nothing comes over the link any more")]
    Closed,
    /// 903: memory was refused.
    #[error("out of memory for a link")]
    Memory,
}

impl LinkFault {
    /// The fault's number, as programs print it.
    pub fn number(self) -> u16
        ensures { result ≡ link_fault_number self }
    {
        match self {
            LinkFault::Closed => 902,
            LinkFault::Memory => 903,
        }
    }
}
