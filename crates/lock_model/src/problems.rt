// The two problems of readers and writers.

ghost use Rattle.std.specs.Prelude.{◌≡◌};
ghost use Rattle.lock_model.specs.ExactStations.{admits_reader};

/// Which readers wait (Courtois, Heymans and Parnas 1971). In both a writer is alone.
#[derive(Clone, Copy, Debug, PartialEq, Eq)]
pub enum Problem {
    /// Problem 1: a reader waits only where a writer holds the resource.
    First,
    /// Problem 2: a reader waits also where a writer waits for it.
    Second,
}

impl Problem {
    /// Whether a reader is admitted to a resource that a writer holds or not, and that a writer
    /// waits for or not.
    pub fn admits_reader(self, writer_holds: bool, writer_waits: bool) -> bool
        ensures { result ≡ admits_reader self writer_holds writer_waits }
    {
        match self {
            Problem::First => !writer_holds,
            Problem::Second => !writer_holds && !writer_waits,
        }
    }
}
