// Where messages were said, in the order of their numbers.

ghost use Rattle.std.specs.Prelude.{◌≡◌};
ghost use Rattle.world_model.specs.ExactWorlds.{numbered};
ghost use Rattle.run_picture.specs.Pictures.{came, is_lost, is_wanted, number_in, message_in};

use crate::Place;
use crate::lasting::is_seen;
use lock_messages::Message;
use world_model::{Effect, Event};

/// Where a message was said, whether it is drawn, and whether it was taken or heard since.
#[derive(Clone, Copy, Debug)]
pub struct Said {
    pub place: Place,
    pub wanted: bool,
    pub came: bool,
}

/// The message of this number, counted from 1.
pub(crate) fn said_at(said: &[Said], number: u32) -> Option<Said>
    ensures { result ≡ numbered said.now number }
{
    if number == 0 {
        return None;
    }
    let index = number as usize - 1;
    if index >= said.len() {
        return None;
    }
    Some(said[index])
}

/// Whether the message of this number was said, and is drawn.
pub(crate) fn is_wanted(said: &[Said], number: u32) -> bool
    ensures { result ≡ is_wanted (numbered said.now number) }
{
    match said_at(said, number) {
        Some(one) => one.wanted,
        None => false,
    }
}

/// The number of the message that is taken or heard in the event.
pub(crate) fn number_in(event: &Event) -> Option<u32>
    ensures { result ≡ number_in event.now }
{
    match *event {
        Event::Take(_, number) | Event::Hear(_, number) => Some(number),
        Event::Begin(..) | Event::Try(_) | Event::Kept(_) | Event::SayTo(..) | Event::Say(_) => {
            None
        }
        Event::Enter(_) | Event::Leave(_) | Event::Soften(_) => None,
        Event::Fall(_) | Event::Rise(..) | Event::Switch(..) => None,
    }
}

/// The message that the effect says was taken or heard.
pub(crate) fn message_in(effect: &Effect) -> Option<Message>
    ensures { result ≡ message_in effect.now }
{
    match *effect {
        Effect::Took(message, _) => Some(message),
        Effect::Heard(message, _) => Some(message),
        Effect::Chose(_) | Effect::Tried | Effect::Kept | Effect::Sent(..) => None,
        Effect::Said { .. } | Effect::Inside | Effect::Outside | Effect::Softened => None,
        Effect::Down | Effect::Up | Effect::Switched(_) => None,
    }
}

/// Notes that the message of this number, if there is one, was taken or heard.
pub(crate) fn note_came(said: &mut Vec<Said>, number: Option<u32>)
    ensures { said.new.items ≡ came number said.old.items }
{
    let Some(number) = number else {
        return;
    };
    let Some(one) = said_at(said.as_slice(), number) else {
        return;
    };
    said[number as usize - 1] = Said { came: true, ..one };
}

/// Whether the message never came, and was said in what is drawn, which ends here.
pub(crate) fn is_lost(one: &Said, end: &Place) -> bool
    ensures { result ≡ is_lost one.now end.now }
{
    !one.came && one.wanted && one.place.height > 0 && is_seen(&one.place, end)
}
