// Wishes: what a client is to do, as a text.

ghost use Rattle.std.specs.Prelude.{◌≡◌};
ghost use Rattle.event_lines.specs.Wishes.{wish_of, client_among, wish_among};

use crate::LineFault;
use crate::words::{MAX_LINE_LEN, client_of, name_of, place_of, three_or_four, wish_mode_of};
use lock_messages::{ClientId, MAX_CLIENTS, Mode, ResourceName};

/// The most wishes that settings have, and so those of one run and of each client in it. The number is this
/// service's own choice: it follows from no other limit, and none follows from it.
pub const MAX_WISHES: usize = 4_096;

/// That a client is to use a resource once, in this mode and by the ballot at this place. It may wish to
/// begin as a writer and to go on as a reader.
#[derive(Clone, Copy, Debug, PartialEq, Eq)]
pub struct Wish {
    pub client: ClientId,
    pub mode: Mode,
    /// Whether the client softens while it is inside. Then the mode is `Write`, with which it enters.
    pub soften: bool,
    pub resource: ResourceName,
    /// Which places there are, from 1 on, the list of ballots says.
    pub place: u8,
}

/// What a text wishes: `c1 read a` by the ballot at place 1, `c1 read a b2` by the one at place 2, and so on
/// to `b8`. Place 1 has no word, by our own rule, so that each wish has one text. The mode is `read`, `write`
/// or `soften`: `c1 soften a` asks as a writer does, and softens once it is inside. That this is a mode is our
/// own rule, and of wishes alone: in a line `soften` is none.
///
/// # Errors
///
/// A text over `MAX_LINE_LEN` bytes is `Words` (805). Else its words stand between its spaces, and the
/// first that applies is answered: there are other than three or four words (`Words`, 805), and then from
/// the left the client (`Actor`, 802), the mode (`Word`, 801) or the name (`Name`, 804) is none, or the
/// fourth word is no place from 2 to 8 (`Number`, 803).
pub fn read_wish(text: &[u8]) -> Result<Wish, LineFault>
    ensures { result ≡ wish_of text.now }
{
    read_wish_among(MAX_CLIENTS as u16, text)
}

/// The client of a word, where there are so many clients.
fn client_among(clients: u16, word: &[u8]) -> Result<ClientId, LineFault>
    ensures { result ≡ client_among clients word.now }
{
    let client = client_of(word)?;
    if client.get() > u32::from(clients) {
        return Err(LineFault::Actor);
    }
    Ok(client)
}

/// What a text wishes where there are so many clients: `read_wish`, but that the word of another
/// client is none.
///
/// # Errors
///
/// Those of `read_wish`, in the same order; a client behind the last one is `Actor` (802) too. Whether a
/// list has a ballot at the place is judged elsewhere.
#[tactic(auto, unfolding(crate::specs::Wishes::wish_among))]
pub fn read_wish_among(clients: u16, text: &[u8]) -> Result<Wish, LineFault>
    ensures { result ≡ wish_among clients text.now }
{
    if MAX_LINE_LEN < text.len() {
        return Err(LineFault::Words);
    }
    let (first, second, third, fourth) = three_or_four(Some(text))?;
    let client = client_among(clients, first)?;
    let (mode, soften) = wish_mode_of(second)?;
    Ok(Wish {
        client,
        mode,
        soften,
        resource: name_of(third)?,
        place: place_of(fourth)?,
    })
}
