// The work of the service's clients: workers and watchers.

ghost use Rattle.std.specs.Prelude.{◌≡◌};
ghost use Rattle.lock_model.specs.Ballots.{HasPlace};

use crate::sites::{AT_WORK, STEPS, Site, TARGETS};
use event_recorders::{RunFault, SharedRecorder};
use lock_messages::{Mode, ResourceName};
use lock_session::{OwnRecord, Session};
use lossy_link::Link;
use node_threads::Work;
use std::alloc::Global;
use std::sync::{Mutex, Wait};
use std::thread;

/// How many nudges an attempt may have.
const NUDGES: u32 = 1_000;

/// The rollout. Its site goes from thread to thread under a mutex of its own, for no longer than one looks or notes
/// something; who may work on a target is said by the service's locks.
#[derive(Drop)]
pub(crate) struct Rollout {
    pub(crate) site: Mutex<Site>,
}

/// Comes to a target, under the target's lock; whether just these steps are done there. If they are, and there is a
/// next one, that is done by who comes.
fn visit<W: Wait, S: OwnRecord, R: SharedRecorder, L: Link>(
    rt: &W,
    alloc: Global,
    session: &mut Session<S, R, L>,
    site: &Mutex<Site>,
    target: usize,
    steps: usize,
) -> Result<bool, RunFault>
    requires { HasPlace session.old.ballots 1 }
    ensures ballots { session.new.ballots ≡ session.old.ballots }
    ensures client { session.new.client ≡ session.old.client }
{
    let name = TARGETS.get(target).copied().unwrap_or("");
    let Some(name) = ResourceName::of(name.as_bytes()) else {
        return Ok(false);
    };
    let works = steps < STEPS.len();
    let mode = if works { Mode::Write } else { Mode::Read };
    match session.enter(rt, alloc, mode, name, 1, NUDGES) {
        Ok(guard) => {
            let are_done = site.lock(rt).has(target, steps);
            if are_done && works {
                site.lock(rt).set(target, AT_WORK);
                // Here the step is done, for as long as it takes, with no mutex.
                thread::yield_now();
                site.lock(rt).set(target, steps + 1);
            }
            guard.leave(rt, alloc)?;
            Ok(are_done)
        }
        Err(fault) => Err(fault),
    }
}

/// Comes to one target after the other, again to one at which these steps aren't done yet, unless somebody has given
/// up; whether it came to an end.
fn go_round<W: Wait, S: OwnRecord, R: SharedRecorder, L: Link>(
    rt: &W,
    alloc: Global,
    session: &mut Session<S, R, L>,
    site: &Mutex<Site>,
    steps: usize,
) -> Result<bool, RunFault>
    requires { HasPlace session.old.ballots 1 }
    ensures { session.new.client ≡ session.old.client }
{
    let mut target = 0;
    for _ in rt.forever() {
        if target >= TARGETS.len() || site.lock(rt).gave_up > 0 {
            break;
        }
        if visit(rt, alloc, session, site, target, steps)? {
            target += 1;
        } else {
            thread::yield_now();
        }
    }
    Ok(target >= TARGETS.len())
}

impl Work for Rollout {
    /// The first clients are workers: each does the step of its number, behind those before it. The others watch, and
    /// wait for all steps.
    fn work<W: Wait, S: OwnRecord, R: SharedRecorder, L: Link>(
        &self,
        rt: &W,
        alloc: Global,
        session: &mut Session<S, R, L>,
    ) {
        // By the first ballot, which there always is.
        if session.ballots().count() < 1 {
            return;
        }
        let steps = STEPS.len().min(session.client().get() as usize - 1);
        let ended = go_round(rt, alloc, session, &self.site, steps);
        self.site.lock(rt).note(ended == Ok(true));
    }
}
