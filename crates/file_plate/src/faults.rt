// Why a record's file could not be opened, made or read.

ghost use Rattle.std.specs.Prelude.{◌≡◌};
ghost use Rattle.file_plate.specs.FileFaults.{file_fault_number};

use thiserror::Error;

/// Why a record's file could not be opened or made.
#[derive(Clone, Copy, Debug, PartialEq, Eq, Error)]
pub enum FileFault {
    /// 941: another process has the file open as a record.
    #[error("another process holds the file")]
    Held,
    /// 942: there is no file of this name.
    #[error("there is no such file")]
    Missing,
    /// 943: the file hasn't the size of a record.
    #[error("the file has the wrong size for a record")]
    WrongSize,
    /// 944: the file holds no record.
    #[error("the file holds no record")]
    NotFormatted,
    /// 945: the file can't be opened, locked or read, or is no regular file.
    #[error("the file can't be opened, locked or read")]
    Unreadable,
    /// 946: the file, its name or its folder can't be written or synced.
    #[error("the file can't be written")]
    Unwritable,
    /// 947: there is a file of this name already.
    #[error("the file exists already")]
    Exists,
    /// 404: the bytes are more than `stable_record::MAX_RECORD_LEN`.
    #[error("the record is too long")]
    TooLong,
    /// 933: out of memory.
    #[error("out of memory")]
    Memory,
}

impl FileFault {
    /// The fault's number, as programs print it.
    pub fn number(self) -> u16
        ensures { result ≡ file_fault_number self }
    {
        match self {
            FileFault::Held => 941,
            FileFault::Missing => 942,
            FileFault::WrongSize => 943,
            FileFault::NotFormatted => 944,
            FileFault::Unreadable => 945,
            FileFault::Unwritable => 946,
            FileFault::Exists => 947,
            FileFault::TooLong => 404,
            FileFault::Memory => 933,
        }
    }
}
