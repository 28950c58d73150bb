// What a program says of wrong words.

ghost use Rattle.service_words.specs.Misuses.{misuse_text};
ghost use Rattle.program_ends.specs.Endings.{EndsSaying};

use program_ends::{Ended, say};
use service_words::Misuse;
use std::io::Write;

/// Says why words are wrong, with status 2.
pub fn refuse_words<E: Write>(misuse: Misuse, errors: &mut E) -> Ended
    ensures { EndsSaying 2 (misuse_text misuse) (E.contents errors.old) (E.contents errors.new) result }
{
    say(2, misuse.text(), errors)
}
