// What stands between an actor and the channels: its weather, and a parcel that is held.

ghost use Rattle.std.specs.Prelude.{◌≡◌, OnOk, OnErr, IfOk, IsOkUnless};
ghost use Rattle.lossy_link.specs.Passages.{same_actor, nudge_to, nudge_of, handed, held_after, mails_of, mail_of};
ghost use Rattle.lossy_link.specs.Weathers.{next_fate, after_fate};

use crate::{Fate, LinkFault, Parcel, Post, Weather};
use lock_messages::{Actor, ClientId, NodeId};

/// A post with its address.
#[derive(Clone, Drop)]
pub(crate) struct Mail {
    pub(crate) to: Actor,
    pub(crate) post: Post,
}

/// The mails that one parcel brings about, in the order in which they go.
#[derive(Drop)]
pub(crate) struct Departure {
    pub(crate) first: Option<Mail>,
    pub(crate) second: Option<Mail>,
    pub(crate) late: Option<Mail>,
}

/// An actor's weather, and the late parcel that is held for it.
#[derive(Drop)]
pub(crate) struct Passage {
    pub(crate) actor: Actor,
    pub(crate) weather: Weather,
    pub(crate) late: Option<Mail>,
}

/// Whether two actors are one.
pub(crate) fn is_same(one: Actor, other: Actor) -> bool
    ensures { result ≡ same_actor one other }
{
    one == other
}

/// The nudge to a client that names a node.
fn nudge_to(client: ClientId, node: NodeId) -> Mail
    ensures { result ≡ nudge_to client node }
{
    Mail {
        to: Actor::Client(client),
        post: Post::Nudge(node),
    }
}

/// The nudge for a parcel between these two: to its client, and it names its node.
fn nudge(from: &Actor, to: &Actor) -> Option<Mail>
    ensures { result ≡ nudge_of from.now to.now }
{
    match *from {
        Actor::Node(node) => match *to {
            Actor::Node(_) => None,
            Actor::Client(client) => Some(nudge_to(client, node)),
        },
        Actor::Client(client) => match *to {
            Actor::Node(node) => Some(nudge_to(client, node)),
            Actor::Client(_) => None,
        },
    }
}

impl Passage {
    /// What a parcel for an actor brings about, by the next fate. Where memory was refused for the
    /// second of two parcels, nothing goes and what was held stays.
    pub(crate) fn depart(&mut self, to: Actor, parcel: Parcel) -> Result<Departure, LinkFault>
        ensures actor { self.new.actor ≡ self.old.actor }
        ensures weather { self.new.weather ≡ after_fate self.old.weather }
        ensures handed { IfOk result (λ d. mails_of d ≡ handed (next_fate self.old.weather) self.old.actor to parcel self.old.late) }
        ensures held { OnOk result (self.new.late ≡ held_after (next_fate self.old.weather) (mail_of to parcel)) }
        ensures stays { OnErr result (self.new.late ≡ self.old.late) }
        ensures twice { OnErr result (next_fate self.old.weather ≡ Fate.Twice) }
        ensures memory { IsOkUnless result LinkFault.Memory }
    {
        let mail = Mail {
            to,
            post: Post::Parcel(parcel),
        };
        match self.weather.fate() {
            Fate::Lost => Ok(Departure {
                first: nudge(&self.actor, &to),
                second: None,
                late: self.late.take(),
            }),
            Fate::Twice => {
                let Ok(copy) = mail.clone() else {
                    return Err(LinkFault::Memory);
                };
                Ok(Departure {
                    first: Some(mail),
                    second: Some(copy),
                    late: self.late.take(),
                })
            }
            Fate::Late => Ok(Departure {
                first: nudge(&self.actor, &to),
                second: None,
                late: self.late.replace(mail),
            }),
            Fate::Plain => Ok(Departure {
                first: Some(mail),
                second: None,
                late: self.late.take(),
            }),
        }
    }
}
