// Who looks on as a command is served.

ghost use Rattle.std.specs.Prelude.{◌≡◌};

use journal_audit::{Unwatched, Watcher};
use world_settings::{Settings, SettingsFault};

/// Looks on as a command is served, and sees its settings and then what each line came to, as a `Watcher` does. It
/// can't change what is answered and printed. Settings are no lines, so they aren't among what it heard.
pub trait Onlooker: Watcher {
    /// The settings are refused, before that is printed. This is their text, as far as it was read.
    fn see_refused(&mut self, head: &[u8], fault: SettingsFault)
        ensures { Self.heard self.new ≡ Self.heard self.old };

    /// The settings are these, and this is their text, up to the line of dashes.
    fn see_settings(&mut self, head: &[u8], settings: &Settings)
        ensures { Self.heard self.new ≡ Self.heard self.old };
}

impl Onlooker for Unwatched {
    fn see_refused(&mut self, _head: &[u8], _fault: SettingsFault) {}

    fn see_settings(&mut self, _head: &[u8], _settings: &Settings) {}
}
