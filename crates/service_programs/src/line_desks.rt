// A desk whose commands are lines, and whose answers are lines.

use crate::client_programs::LifeFault;
use crate::command_lines::{LAST_WAIT, Patience};
use crate::ends::{end_life, end_unreadable};
use actor_lives::{Asked, Desk, Refusal};
use client_commands::{Entry, Waiting, read_command};
use crossbeam_channel::{Receiver, RecvTimeoutError};
use event_recorders::Recorder;
use line_streams::write_text;
use lock_messages::{Actor, NodeId, Ticket};
use lock_session::{OwnRecord, Session, SessionGuard};
use lossy_link::Link;
use program_ends::Ended;
use std::alloc::{AllocError, Global};
use std::io::Write;
use std::sync::Wait;
use std::thread;
use std::time::{Clock, Duration};

/// What is said of a line that is no command.
const USAGE: &[u8] =
    b"usage: read NAME [bP] [within MS] | write NAME [bP] [within MS] | try read NAME [bP] | try write NAME [bP] | soften | leave | status\n";

/// How many milliseconds the client waits for a command before it says a release again.
const MOMENT: u64 = 500;

/// How many milliseconds it waits between two attempts if too few nodes answer.
const BETWEEN_ATTEMPTS: u64 = 100;

/// How many milliseconds it waits for answers to releases: between commands, and when it leaves or ends.
const SHORT_RELEASE: u64 = 30;

const LONG_RELEASE: u64 = 700;

/// How many milliseconds an attempt may last while a node has not answered a release.
const SHORT_ATTEMPT: u64 = 1_000;

/// Each attempt in vain doubles how long the client waits in the next one, up to so many times as long. So clients that ask
/// more than the nodes can keep do not only ask again and again.
const MOST_PATIENT: u32 = 16;

/// The earlier of two times, of which each may be missing.
fn earlier(first: Option<Duration>, second: Option<Duration>) -> Option<Duration> {
    match (first, second) {
        (Some(first), Some(second)) => Some(first.min(second)),
        (Some(only), None) | (None, Some(only)) => Some(only),
        (None, None) => None,
    }
}

/// Takes commands from lines that a thread reads, and writes each answer as a line.
#[derive(Drop)]
pub(crate) struct LineDesk<R: Wait + Clock + Copy, W: Write + Drop, E: Write + Drop> {
    pub(crate) rt: R,
    pub(crate) alloc: Global,
    /// The client.
    pub(crate) actor: Actor,
    pub(crate) lines: Receiver<Vec<u8>>,
    pub(crate) answers: W,
    pub(crate) errors: E,
    pub(crate) patience: Patience,
    /// When the command's time is over, by the clock, if it ever is.
    pub(crate) until: Option<Duration>,
    /// How many times as long as at first the client waits, since attempts were in vain.
    pub(crate) times: u32,
    /// Whether an answer could not be written, or memory ran out.
    pub(crate) is_broken: bool,
}

impl<R: Wait + Clock + Copy, W: Write + Drop, E: Write + Drop> LineDesk<R, W, E> {
    /// Writes an answer. If that fails the desk is broken: the client leaves and ends.
    fn say(&mut self, text: &str) {
        if write_text(&mut self.answers, text.as_bytes()).is_err()
            || self.answers.flush().is_err()
        {
            self.is_broken = true;
        }
    }

    /// Says how the client's life ended, on both writers if it ended by a fault.
    pub(crate) fn end(mut self, lived: Result<bool, LifeFault>) -> Ended {
        match lived {
            Ok(_) => end_life(self.alloc, self.actor, None, &mut self.errors),
            Err(LifeFault::Run(fault)) => {
                self.tell_fault(fault.number());
                end_life(self.alloc, self.actor, Some(fault), &mut self.errors)
            }
            Err(LifeFault::Unreadable(number)) => {
                end_unreadable(self.alloc, self.actor, number, &mut self.errors)
            }
        }
    }

    /// The answer to `status`: what the client holds, and how many seconds ago each node last answered.
    fn status_line(&self, held: Option<Ticket>, nodes: u8) -> Result<String, AllocError> {
        let mut line = match held {
            None => String::from_str(self.alloc, "status outside")?,
            Some(ticket) => {
                let (mode, resource) = (ticket.mode, ticket.resource);
                let attempt = ticket.attempt;
                format!(in self.alloc; "status inside {mode} {resource} attempt {attempt}")?
            }
        };
        for number in 1..=nodes {
            let Some(node) = NodeId::of(number) else {
                break;
            };
            match self.patience.limit.since_answer(&self.rt, node) {
                None => write!(line, ", {node} never")?,
                Some(ago) => {
                    let (whole, tenth) = (ago.as_secs(), ago.subsec_millis() / 100);
                    write!(line, ", {node} {whole}.{tenth}")?;
                }
            }
        }
        line.push('\n')?;
        Ok(line)
    }

    /// Answers with the number of a fault.
    fn tell_fault(&mut self, number: u16) {
        match format!(in self.alloc; "fault {number}\n") {
            Ok(text) => self.say(text.as_str()),
            Err(_) => self.is_broken = true,
        }
    }

    /// What the clock reads after so long from now, if it can be read.
    fn after(&self, most: Duration) -> Option<Duration> {
        Some(self.rt.monotonic().ok()?.saturating_add(most))
    }

    /// How long it is until the command's time is over, if it ever is and the clock can be read.
    fn left(&self) -> Option<Duration> {
        let now = self.rt.monotonic().ok()?;
        Some(self.until?.saturating_sub(now))
    }

    /// Waits so many times as long from now on.
    fn wait_longer(&mut self, times: u32) {
        self.times = times.min(MOST_PATIENT);
        self.patience.limit.set_times(self.times);
    }

    /// So many milliseconds, as many times as the client is patient.
    fn patient(&self, milliseconds: u64) -> Duration {
        Duration::from_millis(milliseconds.saturating_mul(u64::from(self.times)))
    }

    /// Whether no command is left and none will come.
    fn is_last(&self) -> bool {
        self.patience.is_ended() && self.lines.is_empty()
    }

    /// The command of a line.
    fn asked(&mut self, line: &[u8]) -> Asked {
        if self.is_last() {
            self.patience.begin_last_wait(&self.rt);
        }
        match read_command(self.alloc, line) {
            Ok(Some(command)) => Asked::Command(command),
            Ok(None) => Asked::Unknown,
            Err(_) => {
                self.is_broken = true;
                Asked::Ended
            }
        }
    }
}

impl<R: Wait + Clock + Copy, W: Write + Drop, E: Write + Drop> Desk for LineDesk<R, W, E> {
    fn next<T: Wait>(&mut self, rt: &T, waits: bool) -> Asked {
        let _ = rt;
        if self.is_broken {
            return Asked::Ended;
        }
        if waits {
            return match self.lines.recv(&self.rt) {
                Ok(line) => self.asked(&line),
                Err(_) => Asked::Ended,
            };
        }
        match self
            .lines
            .recv_timeout(&self.rt, Duration::from_millis(MOMENT))
        {
            Ok(line) => self.asked(&line),
            Err(RecvTimeoutError::Timeout) => Asked::Nothing,
            Err(RecvTimeoutError::Disconnected) => Asked::Ended,
        }
    }

    fn begin_wait(&mut self, waiting: Waiting) {
        if waiting == Waiting::Never {
            self.wait_longer(1);
        }
        self.until = match waiting {
            Waiting::Within(milliseconds) => {
                self.after(Duration::from_millis(u64::from(milliseconds)))
            }
            Waiting::Long | Waiting::Never => None,
        };
    }

    fn begin_attempt(&mut self, is_short: bool) {
        if self.is_last() {
            let last = self.after(Duration::from_millis(LAST_WAIT));
            self.until = earlier(self.until, last);
        }
        let short = if is_short {
            Some(self.patient(SHORT_ATTEMPT))
        } else {
            None
        };
        match earlier(self.left(), short) {
            Some(most) => self.patience.limit.set_deadline(&self.rt, most),
            None => self.patience.limit.clear_deadline(),
        }
    }

    fn begin_release(&mut self, is_long: bool) {
        let most = if is_long {
            Duration::from_millis(LONG_RELEASE)
        } else {
            Duration::from_millis(SHORT_RELEASE)
        };
        self.patience.limit.set_deadline(&self.rt, most);
    }

    fn end_wait(&mut self) {
        self.patience.limit.clear_deadline();
    }

    fn is_over(&self) -> bool {
        self.patience.limit.is_over(&self.rt) || self.left() == Some(Duration::ZERO)
    }

    fn pause<T: Wait>(&mut self, rt: &T) {
        let _ = rt;
        let pause = self.patient(BETWEEN_ATTEMPTS);
        thread::sleep(&self.rt, self.left().unwrap_or(pause).min(pause));
        self.wait_longer(self.times.saturating_mul(2));
    }

    fn inside<S: OwnRecord, K: Recorder, L: Link>(
        &mut self,
        entry: &Entry,
        guard: &SessionGuard<'_, S, K, L>,
    ) {
        let _ = entry;
        let _ = guard;
        self.wait_longer(1);
        self.say("inside\n");
    }

    fn softened<S: OwnRecord, K: Recorder, L: Link>(&mut self, guard: &SessionGuard<'_, S, K, L>) {
        let _ = guard;
        self.say("softened\n");
    }

    fn outside<S: OwnRecord, K: Recorder, L: Link>(&mut self, session: &Session<S, K, L>) {
        let _ = session;
        self.say("outside\n");
    }

    fn status<S: OwnRecord, K: Recorder, L: Link>(&mut self, session: &Session<S, K, L>) {
        let nodes = session.ballots().nodes();
        match self.status_line(session.ticket(), nodes) {
            Ok(line) => self.say(line.as_str()),
            Err(_) => self.is_broken = true,
        }
    }

    fn refused<S: OwnRecord, K: Recorder, L: Link>(
        &mut self,
        refusal: Refusal,
        session: &Session<S, K, L>,
    ) {
        let _ = session;
        match refusal {
            Refusal::Busy => self.say("busy\n"),
            Refusal::Late => self.say("late\n"),
            Refusal::Fault(number) => self.tell_fault(number),
        }
    }

    fn unknown(&mut self) {
        self.say("unknown\n");
        let _ = write_text(&mut self.errors, USAGE);
    }
}
