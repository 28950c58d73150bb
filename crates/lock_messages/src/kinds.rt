// The kinds of messages, as frames number them.

ghost use Rattle.std.specs.Prelude.{◌≡◌};
ghost use Rattle.lock_messages.specs.Frames.{kind_number, version_of};

/// The version of every frame but those of softening.
pub(crate) const VERSION: u8 = 1;

/// The version of the frames of softening, whose kinds version 1 doesn't have.
pub(crate) const SOFTENING_VERSION: u8 = 2;

/// What a message is, without what it says.
#[derive(Clone, Copy)]
pub(crate) enum Kind {
    Request,
    Release,
    Grant,
    Busy,
    Over,
    Done,
    Muddled,
    Soften,
    Softened,
}

impl Kind {
    pub(crate) fn number(self) -> u8
        ensures { result ≡ kind_number self }
    {
        match self {
            Kind::Request => 1,
            Kind::Release => 2,
            Kind::Grant => 3,
            Kind::Busy => 4,
            Kind::Over => 5,
            Kind::Done => 6,
            Kind::Muddled => 7,
            Kind::Soften => 8,
            Kind::Softened => 9,
        }
    }

    pub(crate) fn version(self) -> u8
        ensures { result ≡ version_of self }
    {
        match self {
            Kind::Request
            | Kind::Release
            | Kind::Grant
            | Kind::Busy
            | Kind::Over
            | Kind::Done
            | Kind::Muddled => VERSION,
            Kind::Soften | Kind::Softened => SOFTENING_VERSION,
        }
    }
}
