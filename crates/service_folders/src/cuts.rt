// Texts, cut at a byte.

ghost use Rattle.std.specs.Prelude.{◌≡◌, ◌∷◌, ◌<◌, length, IfSome};
ghost use Rattle.std.specs.List.{position, slice_split};
ghost use Rattle.service_folders.specs.Cuts.{is_byte, split_behind};

/// The index of the first such byte.
fn place_of(text: &[u8], mark: u8) -> Option<usize>
    ensures { result ≡ position (is_byte mark) text.now }
{
    text.iter().position(|byte| *byte == mark)
}

/// The bytes before the first such byte, and those after it.
pub fn cut(text: &[u8], mark: u8) -> (&[u8], Option<&[u8]>)
    ensures pieces { slice_split (is_byte mark) text.now ≡ result.0.now ∷ split_behind mark result.1 }
    ensures shorter { IfSome result.1 (λ rest. length rest.now < length text.now) }
{
    match place_of(text, mark) {
        None => (text, None),
        Some(at) => (&text[..at], Some(&text[at + 1..])),
    }
}
