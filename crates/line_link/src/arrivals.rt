// What comes for an actor over lines, and what its link does while nothing comes.

use crate::backlogs::Backlog;
use crate::limits::Limit;
use crate::pauses::Pauses;
use crate::posts::post_in;
use crate::timers::{Idle, Timers};
use frame_lines::{Inlet, Secret};
use lock_messages::{Actor, decode};
use lossy_link::Post;
use std::alloc::Global;
use std::thread;
use std::time::{Clock, Duration};

/// The lines that come for an actor, and the times of its waits.
#[derive(Drop)]
pub(crate) struct Arrivals {
    alloc: Global,
    inlet: Inlet,
    pub(crate) line: Vec<u8>,
    pauses: Pauses,
    // The next sleep.
    sleep: Duration,
    // What waits for its turn. It is used for a node alone.
    backlog: Backlog,
    // None for a node.
    timers: Option<Timers>,
    limit: Option<Limit>,
}

impl Arrivals {
    /// Nothing has come for this actor.
    pub(crate) fn new(
        alloc: Global,
        own: Actor,
        secret: Secret,
        pauses: Pauses,
        limit: Option<Limit>,
    ) -> Arrivals {
        Arrivals {
            alloc,
            inlet: Inlet::of(alloc, secret, own),
            line: Vec::new(alloc),
            pauses,
            sleep: pauses.first_after(Duration::ZERO),
            backlog: Backlog::new(alloc),
            timers: match own {
                Actor::Node(_) => None,
                Actor::Client(_) => Some(Timers::new(pauses)),
            },
            limit,
        }
    }

    /// How many lines were dropped.
    pub(crate) fn dropped(&self) -> u64 {
        self.inlet.dropped()
    }

    /// A wait begins, as patient as the limit says by now.
    pub(crate) fn begin(&mut self) {
        if let (Some(timers), Some(limit)) = (&mut self.timers, &self.limit) {
            self.pauses = timers.begin(limit.times());
        }
        let waited = self.waited();
        self.sleep = self.pauses.first_after(waited);
    }

    /// Something was sent to an actor.
    pub(crate) fn sent<R: Clock>(&mut self, rt: &R, to: &Actor) {
        if let Actor::Node(node) = *to
            && let Some(timers) = &mut self.timers
        {
            timers.sent(rt, node);
        }
    }

    /// The post of the line that came, if it is one for this actor. If memory runs out, the line is lost.
    fn post_of_line(&mut self) -> Option<Post> {
        match post_in(self.alloc, &mut self.inlet, self.line.as_slice()) {
            Ok(found) => found,
            Err(_) => None,
        }
    }

    /// What the line that came brings now. A client takes its post at once. A node lets it wait for its turn, so that it also
    /// sees what has come after it.
    pub(crate) fn post<R: Clock>(&mut self, rt: &R) -> Option<Post> {
        let found = self.post_of_line();
        if self.timers.is_some() {
            if let Some(post) = &found {
                self.note(rt, post);
            }
            return found;
        }
        self.backlog.look();
        if let Some(post) = found {
            self.backlog.add(post);
        }
        if self.backlog.is_full() {
            self.backlog.next()
        } else {
            None
        }
    }

    /// Whether a post waits for its turn.
    pub(crate) fn has_more(&self) -> bool {
        self.backlog.has_more()
    }

    /// The next post that waits for its turn, if one does.
    pub(crate) fn waiting(&mut self) -> Option<Post> {
        self.backlog.next()
    }

    /// Notes that a node has answered, if the post is a message.
    fn note<R: Clock>(&mut self, rt: &R, post: &Post) {
        if let Post::Parcel(parcel) = post
            && let Some(timers) = &mut self.timers
            && let Ok(message) = decode(parcel.frame.as_slice())
        {
            timers.heard(rt, message.node());
            if let Some(limit) = &self.limit {
                limit.note_answer(rt, message.node());
            }
        }
    }

    /// How long it is until something is to be done, if it is known.
    fn left<R: Clock>(&self, rt: &R) -> Duration {
        let left = match &self.timers {
            Some(timers) => Duration::from_micros(timers.left()),
            None => Duration::MAX,
        };
        match &self.limit {
            Some(limit) => limit.left(rt).unwrap_or(Duration::MAX).min(left),
            None => left,
        }
    }

    /// For how long an awaited node has been awaited, if one is.
    fn waited(&self) -> Duration {
        match &self.timers {
            Some(timers) => Duration::from_micros(timers.waited()),
            None => Duration::ZERO,
        }
    }

    /// How long it is until an awaited node may answer soon, if one is awaited.
    fn early(&self) -> Duration {
        match &self.timers {
            Some(timers) => Duration::from_micros(timers.early()),
            None => Duration::ZERO,
        }
    }

    /// Sleeps for longer than last time, and until an awaited node may answer soon, but only until something is to be done.
    pub(crate) fn pause<R: Clock>(&mut self, rt: &R) {
        let early = self.early();
        thread::sleep(rt, self.left(rt).min(self.sleep.max(early)));
        self.sleep = self
            .pauses
            .after(self.sleep.max(self.pauses.first_after(early)));
    }

    /// Whether the client is to stop waiting.
    fn is_over<R: Clock>(&self, rt: &R) -> bool {
        match &self.limit {
            Some(limit) => limit.is_over(rt),
            None => false,
        }
    }

    /// What to do while nothing comes. At the limit it sleeps shortly, and brings a nudge.
    pub(crate) fn idle<R: Clock>(&mut self, rt: &R) -> Idle {
        let is_over = self.is_over(rt);
        let Some(timers) = &mut self.timers else {
            return Idle::Sleep;
        };
        if !is_over {
            return timers.due(rt);
        }
        thread::sleep(rt, self.pauses.first_after(Duration::ZERO));
        match timers.next_nudged() {
            Some(node) => Idle::Bring(Post::Nudge(node)),
            None => Idle::Sleep,
        }
    }
}
