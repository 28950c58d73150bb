/// What a keep that failed left on the device.
#[derive(Clone, Copy, Debug, PartialEq, Eq)]
pub enum Leaves {
    /// The bytes that were kept before.
    Old,
    /// The bytes that were to be kept.
    New,
}
