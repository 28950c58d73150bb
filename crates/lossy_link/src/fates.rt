/// What the weather does to a parcel.
#[derive(Clone, Copy, Debug, PartialEq, Eq)]
pub enum Fate {
    /// It doesn't arrive.
    Lost,
    /// It arrives, and once more.
    Twice,
    /// It is held, and goes after the next parcel of its link.
    Late,
    /// It goes as it is.
    Plain,
}
