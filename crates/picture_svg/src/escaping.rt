// Texts in XML.

ghost use Rattle.std.specs.Prelude.{◌≡◌, ◌++◌, OnOk, string_bytes};
ghost use Rattle.picture_svg.specs.Escaping.{escaped, escaped_byte};

use std::alloc::AllocError;

/// Adds what stands for a byte.
fn push_byte(out: &mut String, byte: u8) -> Result<(), AllocError>
    ensures { OnOk result (string_bytes out.new ≡ string_bytes out.old ++ escaped_byte byte) }
{
    match byte {
        b'<' => out.push_str("&lt;"),
        b'>' => out.push_str("&gt;"),
        b'&' => out.push_str("&amp;"),
        b'"' => out.push_str("&quot;"),
        b'\'' => out.push_str("&#39;"),
        b' '..=b'~' => out.push(byte as char),
        _ => out.push_str("?"),
    }
}

/// Adds what stands for a text between two tags, or in quotes: a letter, a digit or another sign for
/// itself, the five that XML knows by the name that it has for each, and for any other byte a question mark.
///
/// # Errors
///
/// Memory was refused. What was added then is not promised.
pub fn push_escaped(out: &mut String, text: &[u8]) -> Result<(), AllocError>
    ensures { OnOk result (string_bytes out.new ≡ string_bytes out.old ++ escaped text.now) }
{
    for byte in text {
        push_byte(out, *byte)?;
    }
    Ok(())
}
