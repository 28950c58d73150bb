// Whole sessions beside a node, as rows: what fails, what is called, and what each call answers.

ghost use Rattle.std.specs.Prelude.{◌≡◌, ◌∷◌, []};
ghost use Rattle.book_recorders.specs.Sharing.{log_of};
ghost use Rattle.stable_record.specs.Records.{client_record_of};
ghost use Rattle.session_tests.specs.Fresh.{IsNew, one_node};

use crate::calls::{Answer, Call, Says, play};
use crate::neighbours::Neighbour;
use crate::plates::on_a_plate;
use crate::refusing::{Refusal, Refusing};
use crate::worlds::{Berths, ballots, book, give_berths, world};
use book_recorders::{BookName, BookRecorder, Logs, Named};
use book_support::{journal_of, of_book};
use event_recorders::{RunFault, SharedRecorder};
use history_book::{Book, BookFault};
use lock_messages::{Actor, ClientId, MAX_ATTEMPT, Mode, NodeId};
use lock_session::{OwnRecord, Session, TryFault};
use lossy_link::{Link, LinkFault, Post};
use stable_record::client_bytes;
use std::alloc::Global;
use std::marker::Brand;
use std::sync::{Mutex, Wait};
use test_outcomes::{Failure, Outcome, check_row, client_id, node_id};
use test_support::{Device, Match, in_memory, on_a_faulty_device, resource, text_of, told};
use vote_weights::BallotList;
use world_machine::World;
use world_model::{Age, Effect, Event};

/// What a session meets, what is called, what each call answers, and what stands in the end.
#[derive(Clone, Copy)]
pub(crate) struct Row<'a> {
    /// On what the record of c1 lies.
    pub(crate) device: Device,
    /// Which event of c1 is refused, by its number from 1 on.
    pub(crate) refused: Option<(u32, Refusal)>,
    /// Which parcel of c1 is not taken, by its number from 1 on.
    pub(crate) lost: Option<(u32, LinkFault)>,
    /// How often the node nudges before each answer.
    pub(crate) nudges: u32,
    /// Whether the node is gone.
    pub(crate) gone: bool,
    /// Whether c2 is inside `a` to write.
    pub(crate) beside: bool,
    /// Whether c1 rises, or by which fault it doesn't.
    pub(crate) rises: Result<(), RunFault>,
    pub(crate) calls: &'a [(Call, Says)],
    /// By which fault its session is over, if it is.
    pub(crate) over: RunFault,
    /// How many are inside `a` in the end, as the session itself tells.
    pub(crate) inside: usize,
    /// The steps of all, apart by commas or line ends.
    pub(crate) journal: &'a str,
    /// How often the device of the record has failed.
    pub(crate) failures: u64,
    /// The attempt that a restart finds, if it finds any.
    pub(crate) found: Option<u64>,
}

/// Nothing fails; what is called, the journal and the attempt are a row's own.
pub(crate) const PLAIN: Row<'static> = Row {
    device: Device::Memory,
    refused: None,
    lost: None,
    nudges: 0,
    gone: false,
    beside: false,
    rises: Ok(()),
    calls: &[],
    over: RunFault::Memory,
    inside: 0,
    journal: "rise n1 old\nrise c1 old\n",
    failures: 0,
    found: Some(0),
};

impl Row<'_> {
    /// The call at a place, and what it is to answer.
    pub(crate) fn call(&self, at: usize) -> Option<(Call, Answer)> {
        let (call, says) = *self.calls.get(at)?;
        let answer = match says {
            Says::Done => Ok(()),
            Says::Busy => Err(TryFault::Busy),
            Says::Ends(fault) => Err(TryFault::Ended(fault)),
            Says::Over => Err(TryFault::Ended(self.over)),
        };
        Some((call, answer))
    }

    /// Whether memory is wanting in it.
    fn wants_memory(&self) -> bool {
        matches!(self.refused, Some((_, Refusal::Memory)))
            || matches!(self.lost, Some((_, LinkFault::Memory)))
    }

    /// Ends the test unless this holds: as wrong or, in a row that wants memory itself, by want of memory, since there
    /// more may have been refused, and the same was answered.
    fn or_memory(&self, holds: bool, number: usize) -> Outcome {
        if !holds && self.wants_memory() {
            return Err(Failure::Memory);
        }
        check_row(holds, number)
    }
}

/// How a session ended: whether it rose, what its calls came to, and what its record came to.
#[derive(Clone, Copy)]
struct Ended {
    risen: Result<(), RunFault>,
    played: Outcome,
    kept: Outcome,
}

/// The node rises, and goes where the row says so; and there c2 enters to write beside it.
fn prepare<B: BookName, K: Logs, R: Wait + Copy>(
    other: &mut BookRecorder<'_, B, K, R>,
    link: &mut Neighbour<'_, B, K, R>,
    row: &Row<'_>,
) -> Outcome {
    if link.rise().is_err() || (row.gone && link.go().is_err()) {
        return Err(Failure::Memory);
    }
    if !row.beside {
        return Ok(());
    }
    let client = client_id(2);
    let who = Actor::Client(client);
    let events = [
        Event::Rise(who, Age::Old),
        Event::Begin(client, Mode::Write, resource(b"a")?, 1),
        Event::Try(who),
        Event::Kept(who),
        Event::SayTo(client, node_id(1)),
        Event::Hear(client, 2),
        Event::Enter(client),
    ];
    match log_all(other, link, &events) {
        Ok(()) => Ok(()),
        Err(fault) => Err(of_book(fault)),
    }
}

/// Logs these events of a client, and lets the node of the link take what it sends by them.
fn log_all<B: BookName, K: Logs, R: Wait + Copy>(
    client: &mut BookRecorder<'_, B, K, R>,
    link: &mut Neighbour<'_, B, K, R>,
    events: &[Event],
) -> Result<(), BookFault> {
    for event in events {
        if let Effect::Sent(number, _) = client.log_event(*event)? {
            link.turn(number)?;
        }
    }
    Ok(())
}

/// Ends the test unless a record, once its session is done, has failed and is found as the row says.
fn is_kept<S: OwnRecord>(stable: &mut S, row: &Row<'_>) -> Outcome {
    let has_failed = stable.failures() == row.failures;
    let is_found = match (stable.reopen(), row.found) {
        (Ok(bytes), Some(attempt)) if attempt <= MAX_ATTEMPT => {
            bytes.as_slice() == client_bytes(attempt).as_slice()
        }
        (Err(_), Some(_)) => return Err(Failure::Memory),
        (Err(_), None) => true,
        _ => false,
    };
    check_row(has_failed, 102)?;
    row.or_memory(is_found, 103)
}

/// Ends the test unless the parts of a session that has not risen are as they were handed in: the recorder logs
/// the first event of c1, and the link brings that its node is gone.
fn are_as_handed_in<B: BookName, K: Logs, R: Wait + Copy>(
    client: ClientId,
    recorder: &mut BookRecorder<'_, B, K, R>,
    link: &mut Neighbour<'_, B, K, R>,
) -> Outcome {
    if let Err(fault) = recorder.log_event(Event::Rise(Actor::Client(client), Age::Old)) {
        return Err(of_book(fault));
    }
    check_row(matches!(link.receive(), Ok(Post::Gone(_))), 1)
}

/// Makes a row's calls, and asks who is inside then.
fn make<W: Wait, S: OwnRecord, R: SharedRecorder, L: Link>(
    rt: &W,
    alloc: Global,
    session: &mut Session<S, R, L>,
    row: &Row<'_>,
) -> Outcome {
    let name = resource(b"a")?;
    play(rt, alloc, session, row)?;
    match session.inside(&name) {
        Ok(tickets) => row.or_memory(tickets.len() == row.inside, 104),
        Err(fault) => Err(of_book(fault)),
    }
}

/// How a session ended, and the recorder and the link that it was given. (A tuple of them is dear to prove.)
#[derive(Drop)]
struct Back<R: Drop, L: Drop> {
    ended: Ended,
    recorder: R,
    link: L,
}

/// A session of c1 with these parts: it makes a row's calls, or doesn't rise.
fn begin<W: Wait, S: OwnRecord, R: SharedRecorder + Drop, L: Link + Drop>(
    rt: &W,
    alloc: Global,
    ballots: BallotList,
    client: ClientId,
    stable: S,
    recorder: R,
    link: L,
    row: &Row<'_>,
) -> Back<R, L>
    requires client { client ≡ 1 }
    requires log { IsNew 1 ballots (R.Recorder.own_log recorder) }
    requires found { S.StableRecord.finds stable ≡ client_record_of 0 ∷ [] }
{
    match Session::rise(client, ballots, stable, recorder, link) {
        Ok(session) => {
            let mut session = session;
            let played = make(rt, alloc, &mut session, row);
            let (mut stable, recorder, link) = session.into_parts();
            let ended = Ended {
                risen: Ok(()),
                played,
                kept: is_kept(&mut stable, row),
            };
            Back {
                ended,
                recorder,
                link,
            }
        }
        Err(back) => {
            let mut stable = back.stable;
            let ended = Ended {
                risen: Err(back.fault),
                played: Ok(()),
                kept: is_kept(&mut stable, row),
            };
            Back {
                ended,
                recorder: back.recorder,
                link: back.link,
            }
        }
    }
}

/// c1's session, with this record, in the book under this lock.
fn run_over<S: OwnRecord, B: BookName, K: Logs, R: Wait + Copy>(
    rt: R,
    alloc: Global,
    ballots: BallotList,
    client: ClientId,
    node: NodeId,
    stable: S,
    lock: &Mutex<Named<B, K>>,
    berths: Berths,
    row: &Row<'_>,
) -> Result<Ended, Failure>
    requires node { berths.node.table ≡ B.table }
    requires one { berths.one.table ≡ B.table }
    requires two { berths.two.table ≡ B.table }
    requires client { client ≡ 1 }
    requires log { IsNew 1 ballots (log_of berths.one) }
    requires found { S.StableRecord.finds stable ≡ client_record_of 0 ∷ [] }
{
    let Berths {
        node: beside,
        one,
        two,
    } = berths;
    let beside = BookRecorder::of(rt, lock, beside);
    let mut link = Neighbour::of(alloc, node, beside, row.nudges, row.lost);
    let mut other = BookRecorder::of(rt, lock, two);
    prepare(&mut other, &mut link, row)?;
    let (number, refusal) = row.refused.unwrap_or((0, Refusal::Full));
    let recorder = Refusing {
        inner: BookRecorder::of(rt, lock, one),
        number,
        refusal,
    };
    let Back {
        ended,
        mut recorder,
        mut link,
    } = begin(&rt, alloc, ballots, client, stable, recorder, link, row);
    if ended.risen.is_err() && row.rises.is_err() {
        are_as_handed_in(client, &mut recorder.inner, &mut link)?;
    }
    Ok(ended)
}

/// The same in this book, which comes back.
fn run<S: OwnRecord, B: BookName, K: Logs + Drop, R: Wait + Copy>(
    rt: R,
    alloc: Global,
    ballots: BallotList,
    client: ClientId,
    node: NodeId,
    stable: S,
    book: K,
    berths: Berths,
    row: &Row<'_>,
) -> (K, Result<Ended, Failure>)
    requires book { (K.book book).table ≡ B.table }
    requires node { berths.node.table ≡ B.table }
    requires one { berths.one.table ≡ B.table }
    requires two { berths.two.table ≡ B.table }
    requires client { client ≡ 1 }
    requires log { IsNew 1 ballots (log_of berths.one) }
    requires found { S.StableRecord.finds stable ≡ client_record_of 0 ∷ [] }
{
    let lock = Mutex::new(Named::<B, K>::of(book));
    let ended = run_over(rt, alloc, ballots, client, node, stable, &lock, berths, row);
    (lock.into_inner().into_book(), ended)
}

/// Ends the test unless a session ended, and logged, as the row says.
fn is_right(ended: Ended, journal: &[u8], row: &Row<'_>) -> Outcome {
    if ended.risen != row.rises && ended.risen == Err(RunFault::Memory) {
        return Err(Failure::Memory);
    }
    check_row(ended.risen == row.rises, 99)?;
    ended.played?;
    let found = told(text_of(journal)?, "", row.journal);
    check_row(found != Match::Else, 100)?;
    row.or_memory(found == Match::All, 101)?;
    ended.kept
}

/// Ends the test unless the book's journal is sound, and a session ended, and logged, as the row says. A plate in
/// memory fails too where memory is refused to it, which can't be told from its own failing.
fn judge(
    alloc: Global,
    opening: World,
    book: &Book,
    ended: Result<Ended, Failure>,
    row: &Row<'_>,
) -> Outcome
    requires { Unit {0} }
{
    let journal = journal_of(alloc, book, opening)?;
    match (is_right(ended?, &journal, row), row.device) {
        (Err(_), Device::Plate(_)) => Err(Failure::Memory),
        (judged, _) => judged,
    }
}

/// Ends the test unless the session of c1, with this record beside this node, goes as a row says.
fn goes_with<S: OwnRecord, R: Wait + Copy>(
    rt: R,
    alloc: Global,
    ballots: BallotList,
    client: ClientId,
    node: NodeId,
    stable: S,
    row: &Row<'_>,
) -> Outcome
    requires ballots { ballots ≡ one_node }
    requires client { client ≡ 1 }
    requires found { S.StableRecord.finds stable ≡ client_record_of 0 ∷ [] }
{
    let mut book = book(alloc, ballots)?;
    let berths = give_berths(ballots, &mut book)?;
    let (book, ended) = run::<S, Brand, Book, R>(
        rt, alloc, ballots, client, node, stable, book, berths, row,
    );
    let opening = world(alloc, ballots)?;
    judge(alloc, opening, &book, ended, row)
}

/// Ends the test unless c1's session goes as a row says, and the journal is sound, and just the row's.
pub(crate) fn goes<R: Wait + Copy>(rt: R, alloc: Global, row: &Row<'_>) -> Outcome {
    let (client, node) = (client_id(1), node_id(1));
    let ballots = ballots()?;
    let bytes = client_bytes(0);
    match row.device {
        Device::Memory => {
            let stable = in_memory(alloc, &bytes)?;
            goes_with(rt, alloc, ballots, client, node, stable, row)
        }
        Device::Faulty(every, leaves, bad) => {
            let stable = on_a_faulty_device(alloc, &bytes, every, leaves, bad)?;
            goes_with(rt, alloc, ballots, client, node, stable, row)
        }
        Device::Plate(fuse) => {
            let stable = on_a_plate(alloc, &bytes, fuse)?;
            goes_with(rt, alloc, ballots, client, node, stable, row)
        }
    }
}

/// Ends the test unless it goes so in each of these rows.
pub(crate) fn all_go<R: Wait + Copy>(rt: R, alloc: Global, rows: &[Row<'_>]) -> Outcome {
    for row in rows {
        goes(rt, alloc, row)?;
    }
    Ok(())
}
