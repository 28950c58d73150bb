//! A law of what is told. The function computes nothing: its contract is the law.

ghost use Rattle.picture_cli.specs.Drawing.{TellsAsAnAudit};

/// What is told of an input that was drawn, and the status, are what an audit prints of it and ends with, but that
/// nothing is told where the status is 0; or memory was refused for the settings.
pub fn tells_as_an_audit()
    ensures { TellsAsAnAudit }
{}
