// Words that are wrong in a way that `clap` does not see.

ghost use Rattle.std.specs.Prelude.{◌≡◌};
ghost use Rattle.service_words.specs.Misuses.{misuse_text};

/// Why the words of a command are wrong.
#[derive(Clone, Copy, Debug, PartialEq, Eq)]
pub enum Misuse {
    /// The number of a node is not 1 to 16.
    NodeNumber,
    /// The number of a client is not 1 to 1,024.
    ClientNumber,
    /// A client has neither one word nor two.
    ClientWords,
    /// The problem is neither 1 nor 2.
    Problem,
    /// The seconds are not a number of at least 1.
    Seconds,
    /// Both flags of the journal are there.
    TwoJournals,
    /// `--pipes` is there, and a file of commands or answers is missing.
    PipesAlone,
    /// A file of commands or answers is there without `--pipes`.
    FilesAlone,
}

impl Misuse {
    /// What a program says of these words.
    pub fn text(self) -> &'static str
        ensures { result.now ≡ misuse_text self }
    {
        match self {
            Misuse::NodeNumber => {
                "error: the number of a node is 1 to 16\n\nFor more information, try '--help'.\n"
            }
            Misuse::ClientNumber => {
                "error: the number of a client is 1 to 1024\n\nFor more information, try '--help'.\n"
            }
            Misuse::ClientWords => {
                "error: give a directory, and before it a client's number or nothing\n\nFor more information, try '--help'.\n"
            }
            Misuse::Problem => {
                "error: a problem is 1 or 2\n\nFor more information, try '--help'.\n"
            }
            Misuse::Seconds => {
                "error: the seconds are a number of at least 1\n\nFor more information, try '--help'.\n"
            }
            Misuse::TwoJournals => {
                "error: give --no-journal or --sync-journal, not both\n\nFor more information, try '--help'.\n"
            }
            Misuse::PipesAlone => {
                "error: --pipes needs --commands and --answers\n\nFor more information, try '--help'.\n"
            }
            Misuse::FilesAlone => {
                "error: --commands and --answers need --pipes\n\nFor more information, try '--help'.\n"
            }
        }
    }
}
