// A link over lines.

ghost use Rattle.std.specs.Prelude.{◌≡◌, Some, None, [], false, IfOk, OnErr, IsOkUnless};
ghost use Rattle.lossy_link.specs.Links.{one_more};
ghost use Rattle.line_link.specs.Carried.{IsCarried, Repeats, line_for};

use crate::arrivals::Arrivals;
use crate::carriers::{Carrier, Taken};
use crate::letters::{Letter, Letters};
use crate::limits::Limit;
use crate::pauses::Pauses;
use crate::timers::Idle;
use event_lists::EventList;
use frame_lines::{Secret, write_frame};
use lock_messages::{Actor, NodeId};
use lossy_link::{Link, LinkFault, Parcel, Post, Sending};
use std::alloc::Global;
use std::marker::Model;
use std::sync::Wait;
use std::time::Clock;

/// An actor's link over a carrier of lines.
///
/// Contracts see the secret, what was given to the link and to its carrier, and whether it ran out of memory in a call.
/// They do not see what comes.
#[derive(Drop)]
pub struct LineLink<R: Wait + Clock + Copy, C: Carrier + Drop> {
    rt: R,
    alloc: Global,
    carrier: C,
    secret: Secret,
    letters: Letters,
    arrivals: Arrivals,
    own: Actor,
    opened: EventList<C, Actor>,
    made: EventList<Sending, Actor>,
    is_refused: bool,
}

impl<R: Wait + Clock + Copy, C: Carrier + Drop> Model for LineLink<R, C> {
    ghost use Rattle.line_link.specs.Carried.{IsCarried, LinedLink, AreAmong, lined_of, lines_given, sendings};

    ghost Value = { LinedLink };

    ghost view = { λ l. lined_of C.given l.carrier l.secret l.opened.items l.made.items l.is_refused };

    ghost invariant = { λ l. IsCarried (lined_of C.given l.carrier l.secret l.opened.items l.made.items l.is_refused) × AreAmong l.letters (lines_given l.secret (sendings l.made.items)) };
}

/// Gives the carrier the line of a frame, and returns it. The only fault is running out of memory (903). Then nothing is
/// given.
fn put_frame<C: Carrier>(
    alloc: Global,
    carrier: &mut C,
    secret: &Secret,
    to: &Actor,
    frame: &[u8],
) -> Result<Letter, LinkFault>
    ensures given { IfOk result (λ letter. C.given carrier.new ≡ one_more (C.given carrier.old) letter) }
    ensures line { IfOk result (λ letter. letter ≡ line_for secret.now to.now frame.now) }
    ensures none { OnErr result (C.given carrier.new ≡ C.given carrier.old) }
    ensures memory { IsOkUnless result LinkFault.Memory }
{
    let Ok(line) = write_frame(alloc, secret, *to, frame) else {
        return Err(LinkFault::Memory);
    };
    carrier.put(*to, line.as_bytes());
    Ok(Letter { to: *to, line })
}

/// Puts the line to a node again that was put to it last, if it is kept.
fn put_again<C: Carrier>(carrier: &mut C, letters: &Letters, node: NodeId)
    ensures { Repeats letters.now (C.given carrier.old) (C.given carrier.new) }
{
    let Some(letter) = letters.to(node) else {
        return;
    };
    carrier.put(letter.to, letter.line.as_bytes());
}

/// Does what is to be done while nothing comes: it brings a post that waits for its turn, or one of its own, puts a line
/// again, or sleeps.
fn idle<R: Wait + Clock, C: Carrier>(
    rt: &R,
    carrier: &mut C,
    letters: &Letters,
    arrivals: &mut Arrivals,
) -> Option<Post>
    ensures { Repeats letters.now (C.given carrier.old) (C.given carrier.new) }
{
    if let Some(post) = arrivals.waiting() {
        return Some(post);
    }
    match arrivals.idle(rt) {
        Idle::Bring(post) => Some(post),
        Idle::Again(node) => {
            put_again(carrier, letters, node);
            None
        }
        Idle::Sleep => {
            arrivals.pause(rt);
            None
        }
    }
}

/// Waits for a line of a frame for the actor, or for what the link brings by itself.
#[tactic(auto, using(crate::proofs::CarriedFacts::repeats_on, crate::specs::Carried::none))]
fn next_post<R: Wait + Clock, C: Carrier>(
    rt: &R,
    carrier: &mut C,
    letters: &Letters,
    arrivals: &mut Arrivals,
) -> Result<Post, LinkFault>
    ensures given { Repeats letters.now (C.given carrier.old) (C.given carrier.new) }
    ensures closed { IsOkUnless result LinkFault.Closed }
{
    arrivals.begin();
    for _ in rt.forever() {
        let found = match carrier.take(&mut arrivals.line) {
            Taken::Closed => return arrivals.waiting().ok_or(LinkFault::Closed),
            Taken::Line => arrivals.post(rt),
            Taken::Nothing => idle(rt, carrier, letters, arrivals),
        };
        if let Some(post) = found {
            return Ok(post);
        }
    }
    unreachable!()
}

impl<R: Wait + Clock + Copy, C: Carrier + Drop> LineLink<R, C> {
    /// The link of this actor under a secret, which is given twice: for what is sent and for what comes.
    ///
    /// The link of a client puts lines again that are not answered, and brings that a node is silent. When the limit is
    /// over it brings nudges. A node's link does none of this, and needs no limit.
    pub fn over(
        rt: R,
        alloc: Global,
        own: Actor,
        secrets: (Secret, Secret),
        carrier: C,
        pauses: Pauses,
        limit: Option<Limit>,
    ) -> LineLink<R, C>
        ensures { result ≡ record { block = secrets.0; before = C.given carrier; now = C.given carrier; given = []; refused = false } }
    {
        let (secret, incoming) = secrets;
        let opened = EventList::new().and(&carrier, &own);
        LineLink {
            rt,
            alloc,
            carrier,
            secret,
            letters: Letters::new(alloc),
            arrivals: Arrivals::new(alloc, own, incoming, pauses, limit),
            own,
            opened,
            made: EventList::new(),
            is_refused: false,
        }
    }

    /// How many lines that came were dropped.
    pub fn dropped(&self) -> u64 {
        self.arrivals.dropped()
    }

    /// Shows that the carrier was given the lines of what was given to the link, in order, and otherwise only lines that
    /// it was already given. It computes nothing.
    pub fn tell(&self)
        ensures { IsCarried self.now }
    {
        let _is_refused = self.is_refused;
    }
}

impl<R: Wait + Clock + Copy, C: Carrier + Drop> Link for LineLink<R, C> {
    ghost coming = { λ _. None };

    ghost given = { λ l. Some l.given };

    ghost refused = { λ l. Some l.refused };

    /// Sends the frame as one line. It does not say whether the line comes.
    fn send(&mut self, to: Actor, parcel: Parcel) -> Result<(), LinkFault> {
        match put_frame(
            self.alloc,
            &mut self.carrier,
            &self.secret,
            &to,
            parcel.frame.as_slice(),
        ) {
            Ok(letter) => {
                let sending = Sending::Sent(to, parcel);
                self.made = self.made.and(&sending, &self.own);
                self.letters.keep(letter);
            }
            Err(_) => {
                self.is_refused = true;
                return Err(LinkFault::Memory);
            }
        }
        self.arrivals.sent(&self.rt, &to);
        Ok(())
    }

    /// Sends nothing, because a nudge is no message, and the word that a node is gone must not come late.
    fn tell_all(&mut self, post: Post) -> Result<(), LinkFault> {
        let sending = Sending::Told(post);
        self.made = self.made.and(&sending, &self.own);
        Ok(())
    }

    /// Waits for a line of a frame for this actor. The number of its parcel means nothing.
    fn receive(&mut self) -> Result<Post, LinkFault> {
        let rt = self.rt;
        next_post(&rt, &mut self.carrier, &self.letters, &mut self.arrivals)
    }

    /// Whether a post waits for its turn. At a client none does.
    fn has_more(&self) -> bool {
        self.arrivals.has_more()
    }
}
