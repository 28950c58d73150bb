// Links between threads, over channels.

ghost use Rattle.std.specs.Prelude.{◌≡◌, false, ◌+◌, ◌<◌, ◌≤◌, min, map, None, Some, [], ◌∷◌, ◌++◌, OnOk, OnErr, IfOk, IsOkUnless, vec_len};
ghost use Rattle.std.specs.List.{range_with_len};
ghost use Rattle.lossy_link.specs.ChannelLinks.{actor_at, place_among, link_at, after_handing, HandsPart, after_sending, SendsPart, after_telling, Receives};
ghost use Rattle.lossy_link.specs.Passages.{mails_of};
ghost use Rattle.lossy_link.specs.Weathers.{after_fate};

use crate::passages::{Departure, Mail, Passage, is_same};
use crate::rests::{Delivery, Moving, Rests};
use crate::{Link, LinkFault, Parcel, Post, Weather};
use crossbeam_channel::{Receiver, SendError, Sender, TryRecvError, unbounded};
use lock_messages::{Actor, ClientId, MAX_CLIENTS, MAX_NODES, NodeId};
use std::alloc::{AllocError, Global};
use std::collections::VecDeque;
use std::marker::Model;
use std::sync::Wait;

/// An actor's link to the actors of other threads: its inbox, and the inboxes of the others.
///
/// Each parcel that is sent meets the link's own weather. A late one is held, and goes after the next
/// parcel of the link, whatever becomes of that; one that is still held when the link is dropped is
/// lost. For a lost or late one its client gets a nudge that names its node. A node's link reaches the
/// clients, a client's the nodes, and each reaches its own actor: what goes there waits in the link
/// itself, and is received first.
///
/// The links that were made together come to rest once each actor that has not dropped its link waits
/// in `receive` and nothing lies in their inboxes: then nobody could wake another any more, and each
/// `receive` ends by 902. A late parcel that a link holds wakes nobody. An actor that does something
/// else, whatever it may be, does not rest.
/// Its calls need the handle Wait: crossbeam_channel puts each message into a queue under a lock, for one push or pop.
pub struct ChannelLink<R: Wait + Copy> {
    rt: R,
    passage: Passage,
    own: VecDeque<Post>,
    inbox: Receiver<Delivery>,
    others: Vec<Sender<Delivery>>,
    rests: Rests,
    // none while the actor waits in `receive`
    moving: Option<Moving>,
    // whether `receive` has answered 902
    closed: bool,
}

impl<R: Wait + Copy> Model for ChannelLink<R> {
    ghost use Rattle.lossy_link.specs.ChannelLinks.{Channeled};

    ghost Value = { Channeled };

    ghost view = { λ l. record { actor = l.passage.actor; climate = l.passage.weather; held = l.passage.late; own = l.own.items; closed = l.closed } };
}

/// Puts something into an inbox. For an actor that has ended it does nothing.
fn put<R: Wait>(rt: &R, inbox: &Sender<Delivery>, delivery: Delivery) -> Result<(), LinkFault>
    ensures memory { IsOkUnless result LinkFault.Memory }
{
    match inbox.send(rt, delivery) {
        Ok(()) => Ok(()),
        Err(SendError::Disconnected(_)) => Ok(()),
        Err(SendError::OutOfMemory(_)) => Err(LinkFault::Memory),
    }
}

/// Tells the others that all links are at rest. It takes no memory: their inboxes are empty then, and
/// have room for one delivery from the start.
fn tell_rest<R: Wait>(rt: &R, others: &[Sender<Delivery>]) {
    for inbox in others {
        let _ = put(rt, inbox, Delivery::Rest);
    }
}

/// An inbox, and the end that sends to it. It has room for one delivery.
fn inbox_with_room<R: Wait>(
    rt: &R,
    alloc: Global,
) -> Result<(Sender<Delivery>, Receiver<Delivery>), AllocError> {
    let (sender, inbox) = unbounded(alloc)?;
    if put(rt, &sender, Delivery::Rest).is_err() || inbox.recv(rt).is_err() {
        return Err(AllocError);
    }
    Ok((sender, inbox))
}

/// The channels of so many actors: the ends that send, and the inboxes.
fn channels<R: Wait>(
    rt: &R,
    alloc: Global,
    count: usize,
) -> Result<(Vec<Sender<Delivery>>, Vec<Receiver<Delivery>>), AllocError>
    ensures { IfOk result (λ ends. (vec_len ends.0 ≡ count) × (vec_len ends.1 ≡ count)) }
{
    let mut senders = Vec::with_capacity(alloc, count)?;
    let mut inboxes = Vec::with_capacity(alloc, count)?;
    for _i in 0..count {
        let (sender, inbox) = inbox_with_room(rt, alloc)?;
        senders.push(sender)?;
        inboxes.push(inbox)?;
    }
    Ok((senders, inboxes))
}

/// Ends of their own for those that send to the same inboxes.
fn copies(
    alloc: Global,
    senders: &[Sender<Delivery>],
) -> Result<Vec<Sender<Delivery>>, AllocError> {
    let mut all = Vec::with_capacity(alloc, senders.len())?;
    for sender in senders {
        all.push(sender.clone()?)?;
    }
    Ok(all)
}

/// The actor at a place; nodes stand before clients.
fn actor_at(nodes: u8, place: u32) -> Actor
    requires nodes { nodes ≤ MAX_NODES }
    requires place { place < nodes + MAX_CLIENTS }
    ensures { result ≡ actor_at nodes place }
{
    let before = u32::from(nodes);
    if place < before {
        let Some(node) = NodeId::of((place + 1) as u8) else {
            unreachable!()
        };
        return Actor::Node(node);
    }
    let Some(client) = ClientId::of(place - before + 1) else {
        unreachable!()
    };
    Actor::Client(client)
}

/// The place of an actor among those that a link of this actor reaches over channels: nodes reach
/// clients, and clients reach nodes.
fn place_among(of: &Actor, to: &Actor) -> Option<usize>
    ensures { result ≡ place_among of.now to.now }
{
    match *of {
        Actor::Node(_) => match *to {
            Actor::Node(_) => None,
            Actor::Client(client) => Some(client.get() as usize - 1),
        },
        Actor::Client(_) => match *to {
            Actor::Node(node) => Some(usize::from(node.get()) - 1),
            Actor::Client(_) => None,
        },
    }
}

impl<R: Wait + Copy> ChannelLink<R> {
    /// The links of so many nodes and clients, nodes first; of no more than `MAX_NODES` and
    /// `MAX_CLIENTS`, since there are no others. The link at a place, counted from 0, has the weather
    /// at that place. A node's inbox is closed once all clients' links are dropped, and a client's
    /// once all nodes' links are; all are closed once they have come to rest. 903: memory was refused.
    pub fn all(
        rt: R,
        alloc: Global,
        nodes: u8,
        clients: u16,
        weather: &Weather,
    ) -> Result<Vec<ChannelLink<R>>, LinkFault>
        ensures links { let first = min nodes MAX_NODES in let count = first + min clients MAX_CLIENTS in
            IfOk result (λ links. links.items ≡ map (link_at first weather.now) (range_with_len 0 count)) }
        ensures memory { IsOkUnless result LinkFault.Memory }
    {
        let nodes = nodes.min(MAX_NODES);
        let clients = u32::from(clients).min(MAX_CLIENTS);
        match ChannelLink::opened(rt, alloc, nodes, clients, weather) {
            Ok(links) => Ok(links),
            Err(AllocError) => Err(LinkFault::Memory),
        }
    }

    /// The link of an actor, before anything was sent.
    fn new(
        rt: R,
        alloc: Global,
        passage: Passage,
        inbox: Receiver<Delivery>,
        others: Vec<Sender<Delivery>>,
        rests: Rests,
    ) -> Result<ChannelLink<R>, AllocError>
        ensures { IfOk result (λ link. link ≡ record { actor = passage.actor; climate = passage.weather; held = passage.late; own = []; closed = false }) }
    {
        let moving = rests.one_more()?;
        Ok(ChannelLink {
            rt,
            passage,
            own: VecDeque::new(alloc),
            inbox,
            others,
            rests,
            moving: Some(moving),
            closed: false,
        })
    }

    /// The links of so many nodes and clients.
    fn opened(
        rt: R,
        alloc: Global,
        nodes: u8,
        clients: u32,
        weather: &Weather,
    ) -> Result<Vec<ChannelLink<R>>, AllocError>
        requires nodes { nodes ≤ MAX_NODES }
        requires clients { clients ≤ MAX_CLIENTS }
        ensures { IfOk result (λ links. links.items ≡ map (link_at nodes weather.now) (range_with_len 0 (nodes + clients))) }
    {
        let count = usize::from(nodes) + clients as usize;
        let (senders, inboxes) = channels(&rt, alloc, count)?;
        let rests = Rests::new(alloc)?;
        let (to_nodes, to_clients) = senders.split_at(usize::from(nodes));
        let mut links = Vec::with_capacity(alloc, count)?;
        for inbox in inboxes {
            let place = links.len() as u32;
            let actor = actor_at(nodes, place);
            let others = match actor {
                Actor::Node(_) => copies(alloc, to_clients)?,
                Actor::Client(_) => copies(alloc, to_nodes)?,
            };
            let passage = Passage {
                actor,
                weather: weather.at(place),
                late: None,
            };
            let link = ChannelLink::new(rt, alloc, passage, inbox, others, rests.shared()?)?;
            links.push(link)?;
        }
        Ok(links)
    }

    /// Keeps a post for the link's own actor.
    fn keep(&mut self, post: Post) -> Result<(), LinkFault>
        ensures kept { OnOk result (self.new ≡ record { actor = self.old.actor; climate = self.old.climate; held = self.old.held; own = self.old.own ++ post ∷ []; closed = self.old.closed }) }
        ensures unchanged { OnErr result (self.new ≡ self.old) }
        ensures memory { IsOkUnless result LinkFault.Memory }
    {
        if self.own.push_back(post).is_err() {
            return Err(LinkFault::Memory);
        }
        Ok(())
    }

    /// Puts a post into an inbox, and counts it. For an actor that has ended it does nothing.
    fn post(&self, inbox: &Sender<Delivery>, post: Post) -> Result<(), LinkFault>
        ensures memory { IsOkUnless result LinkFault.Memory }
    {
        let Ok(moving) = self.rests.one_more() else {
            return Err(LinkFault::Memory);
        };
        put(&self.rt, inbox, Delivery::Post(post, moving))
    }

    /// Puts a post into the inbox of an actor that the link reaches over a channel.
    fn put_out(&self, to: &Actor, post: Post) -> Result<(), LinkFault>
        ensures memory { IsOkUnless result LinkFault.Memory }
    {
        let Some(place) = place_among(&self.passage.actor, to) else {
            return Ok(());
        };
        match self.others.get(place) {
            Some(inbox) => self.post(inbox, post),
            None => Ok(()),
        }
    }

    /// Hands a mail over to its actor, past the weather.
    fn hand_over(&mut self, mail: Mail) -> Result<(), LinkFault>
        ensures own { OnOk result (self.new ≡ after_handing self.old (mail ∷ [])) }
        ensures unchanged { OnErr result (self.new ≡ self.old) }
        ensures memory { IsOkUnless result LinkFault.Memory }
    {
        let Mail { to, post } = mail;
        if is_same(to, self.passage.actor) {
            self.keep(post)
        } else {
            self.put_out(&to, post)
        }
    }

    /// Hands the mails of a departure over, in order, up to the first that is refused.
    #[tactic(auto, using(crate::proofs::LinkFacts::refused_first, crate::proofs::LinkFacts::refused_second))]
    fn hand_all(&mut self, departure: Departure) -> Result<(), LinkFault>
        ensures own { OnOk result (self.new ≡ after_handing self.old (mails_of departure)) }
        ensures part { OnErr result (HandsPart self.old (mails_of departure) self.new) }
        ensures actor { self.new.actor ≡ self.old.actor }
        ensures climate { self.new.climate ≡ self.old.climate }
        ensures closed { self.new.closed ≡ self.old.closed }
        ensures memory { IsOkUnless result LinkFault.Memory }
    {
        let Departure {
            first,
            second,
            late,
        } = departure;
        if let Some(mail) = first {
            self.hand_over(mail)?;
        }
        if let Some(mail) = second {
            self.hand_over(mail)?;
        }
        if let Some(mail) = late {
            self.hand_over(mail)?;
        }
        Ok(())
    }

    /// Puts a post into the inbox of each of the others, also behind one that has no memory for it.
    fn tell_others(&self, post: &Post) -> Result<(), LinkFault>
        ensures memory { IsOkUnless result LinkFault.Memory }
    {
        let mut told = Ok(());
        for inbox in &self.others {
            let one = match post.clone() {
                Ok(copy) => self.post(inbox, copy),
                Err(_) => Err(LinkFault::Memory),
            };
            told = told.and(one);
        }
        told
    }

    /// The next post of the inbox, for which it may wait. None: no post comes any more.
    fn next_delivered(&mut self) -> Option<Post>
        ensures unchanged { self.new ≡ self.old }
    {
        match self.inbox.try_recv(&self.rt) {
            Ok(Delivery::Post(post, _)) => Some(post),
            Ok(Delivery::Rest) => None,
            Err(TryRecvError::Empty) => self.awaited(),
            Err(TryRecvError::Disconnected) => None,
        }
    }

    /// The next post of the inbox, for which the actor rests. It moves again by the post that comes.
    fn awaited(&mut self) -> Option<Post>
        ensures unchanged { self.new ≡ self.old }
    {
        if self.moving.take().is_some_and(Moving::was_last) {
            tell_rest(&self.rt, &self.others);
            return None;
        }
        match self.inbox.recv(&self.rt) {
            Ok(Delivery::Post(post, moving)) => {
                self.moving = Some(moving);
                Some(post)
            }
            Ok(Delivery::Rest) => {
                tell_rest(&self.rt, &self.others);
                None
            }
            Err(_) => None,
        }
    }
}

impl<R: Wait + Copy> Drop for ChannelLink<R> {
    /// What lies in the inbox moves nobody any more, and then the actor does not either.
    fn drop(self) {
        let Self {
            rt,
            passage: _passage,
            own: _own,
            inbox,
            others,
            rests: _rests,
            moving,
            closed: _closed,
        } = self;
        drop(inbox);
        if moving.is_some_and(Moving::was_last) {
            tell_rest(&rt, &others);
        }
    }
}

impl<R: Wait + Copy> Link for ChannelLink<R> {
    ghost coming = { λ _. None };

    ghost given = { λ _. None };

    ghost refused = { λ _. None };

    /// Sends a parcel through the link's weather, and what was held behind it. It waits for no other
    /// actor. 903: memory was refused; either nothing went of a parcel that goes twice, and what was held
    /// stays, or a beginning of what should go went, perhaps none of it, and what was held is lost.
    fn send(&mut self, to: Actor, parcel: Parcel) -> Result<(), LinkFault>
        ensures sent { OnOk result (self.new ≡ after_sending self.old to parcel) }
        ensures part { OnErr result (SendsPart self.old to parcel self.new) }
        ensures actor { self.new.actor ≡ self.old.actor }
        ensures climate { self.new.climate ≡ after_fate self.old.climate }
        ensures closed { self.new.closed ≡ self.old.closed }
        ensures memory { IsOkUnless result LinkFault.Memory }
    {
        let departure = self.passage.depart(to, parcel)?;
        self.hand_all(departure)
    }

    /// Puts the post into every client's inbox, past the weather; over a client's link, it waits in
    /// the link for its own client alone. It waits for no other actor. 903: memory was refused for one
    /// client or more; the others are told.
    fn tell_all(&mut self, post: Post) -> Result<(), LinkFault>
        ensures told { OnOk result (self.new ≡ after_telling self.old post) }
        ensures unchanged { OnErr result (self.new ≡ self.old) }
        ensures memory { IsOkUnless result LinkFault.Memory }
    {
        match self.passage.actor {
            Actor::Node(_) => self.tell_others(&post),
            Actor::Client(_) => self.keep(post),
        }
    }

    /// The first post that waits in the link or, where none does, in the inbox, for which it may wait.
    /// 902: the inbox is empty, and all links that reach it are dropped or all links have come to rest;
    /// from then on nothing comes but what the link itself holds for its actor. It takes no memory.
    fn receive(&mut self) -> Result<Post, LinkFault>
        ensures own { Receives self.old.own self.old.closed result self.new.own self.new.closed }
        ensures kept { (self.new.actor ≡ self.old.actor) × (self.new.climate ≡ self.old.climate) × (self.new.held ≡ self.old.held) }
        ensures closed { IsOkUnless result LinkFault.Closed }
    {
        if let Some(post) = self.own.pop_front() {
            return Ok(post);
        }
        if self.closed {
            return Err(LinkFault::Closed);
        }
        match self.next_delivered() {
            Some(post) => Ok(post),
            None => {
                self.closed = true;
                Err(LinkFault::Closed)
            }
        }
    }
}
