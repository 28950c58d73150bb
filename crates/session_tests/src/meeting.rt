//! Two sessions over one book and one node, in one thread, whose guards are asked whether they meet.

ghost use Rattle.std.specs.Prelude.{◌≡◌, IfOk, IsOkUnless};
ghost use Rattle.book_recorders.specs.Sharing.{log_of};
ghost use Rattle.session_tests.specs.Fresh.{IsNew};

use crate::neighbours::Neighbour;
use crate::worlds::{Berths, ballots, book, frame_for, give_berths, world};
use book_recorders::{BookName, BookRecorder, Logs, Named};
use book_support::{journal_of, of_book};
use event_recorders::{Recorder, SharedRecorder};
use history_book::Book;
use lock_messages::{Actor, Mode, NodeId};
use lock_session::Session;
use lossy_link::{Link, LinkFault, Parcel, Post};
use stable_record::{MemoryRecord, client_bytes};
use std::alloc::Global;
use std::marker::Brand;
use std::sync::{Mutex, Wait};
use test_outcomes::{Failure, Outcome, check_row, node_id};
use test_support::{client, in_memory, resource};
use vote_weights::BallotList;
use world_machine::World;

/// How many nudges are enough.
const NUDGES: u32 = 1_000;

/// A link to the node beside, which another session's link leads to too. Each session is answered before the other
/// one sends; what comes to it is framed for its client.
#[derive(Drop)]
struct Shared<'v, 'a, B: BookName, K: Logs, R: Wait + Copy> {
    rt: R,
    alloc: Global,
    client: u32,
    inner: &'v Mutex<Neighbour<'a, B, K, R>>,
}

impl<B: BookName, K: Logs, R: Wait + Copy> Shared<'_, '_, B, K, R> {
    /// The parcel of this number. Where there is no memory for its frame nothing comes any more.
    fn framed(&self, number: u32) -> Result<Post, LinkFault>
        ensures { IsOkUnless result LinkFault.Closed }
    {
        match frame_for(self.alloc, self.client) {
            Ok(frame) => Ok(Post::Parcel(Parcel { number, frame })),
            Err(_) => Err(LinkFault::Closed),
        }
    }
}

impl<B: BookName, K: Logs, R: Wait + Copy> Link for Shared<'_, '_, B, K, R> {
    ghost use Rattle.std.specs.Prelude.{None};

    ghost coming = { λ _. None };

    ghost given = { λ _. None };

    ghost refused = { λ _. None };

    fn send(&mut self, to: Actor, parcel: Parcel) -> Result<(), LinkFault> {
        self.inner.lock(&self.rt).send(to, parcel)
    }

    fn tell_all(&mut self, post: Post) -> Result<(), LinkFault> {
        self.inner.lock(&self.rt).tell_all(post)
    }

    fn receive(&mut self) -> Result<Post, LinkFault> {
        match self.inner.lock(&self.rt).receive() {
            Ok(Post::Parcel(parcel)) => self.framed(parcel.number),
            other => other,
        }
    }
}

/// The session of a client that has logged nothing.
fn risen<R: Recorder + Drop, L: Link + Drop>(
    alloc: Global,
    ballots: BallotList,
    number: u32,
    recorder: R,
    link: L,
) -> Result<Session<MemoryRecord, R, L>, Failure>
    requires { IsNew number ballots (R.own_log recorder) }
    ensures { IfOk result (λ s. s.ballots ≡ ballots) }
{
    let client = client(number)?;
    let stable = in_memory(alloc, &client_bytes(0))?;
    match Session::rise(client, ballots, stable, recorder, link) {
        Ok(session) => Ok(session),
        Err(_) => Err(Failure::Memory),
    }
}

/// Whether the guards of both meet where one reads `a` and the other this resource.
fn meet<W: Wait, R: SharedRecorder, L: Link>(
    rt: &W,
    alloc: Global,
    one: &mut Session<MemoryRecord, R, L>,
    two: &mut Session<MemoryRecord, R, L>,
    other: &[u8],
) -> Result<bool, Failure> {
    let (name, other) = (resource(b"a")?, resource(other)?);
    if one.ballots().count() < 1 || two.ballots().count() < 1 {
        return Err(Failure::Wrong(0));
    }
    let Ok(guard) = one.enter(rt, alloc, Mode::Read, name, 1, NUDGES) else {
        return Err(Failure::Memory);
    };
    let Ok(beside) = two.enter(rt, alloc, Mode::Read, other, 1, NUDGES) else {
        return Err(Failure::Memory);
    };
    let (mut guard, mut beside) = (guard, beside);
    match guard.meets(&mut beside) {
        Ok(met) => Ok(met),
        Err(fault) => Err(of_book(fault)),
    }
}

/// The same of both sessions, if they rose.
fn meet_risen<W: Wait, R: SharedRecorder, L: Link>(
    rt: &W,
    alloc: Global,
    one: &mut Result<Session<MemoryRecord, R, L>, Failure>,
    two: &mut Result<Session<MemoryRecord, R, L>, Failure>,
    other: &[u8],
) -> Result<bool, Failure> {
    match (one, two) {
        (Ok(one), Ok(two)) => meet(rt, alloc, one, two, other),
        _ => Err(Failure::Memory),
    }
}

/// The same in the book under this lock.
fn meet_over<B: BookName, K: Logs, R: Wait + Copy>(
    rt: R,
    alloc: Global,
    ballots: BallotList,
    node: NodeId,
    lock: &Mutex<Named<B, K>>,
    berths: Berths,
    other: &[u8],
) -> Result<bool, Failure>
    requires node { berths.node.table ≡ B.table }
    requires one { berths.one.table ≡ B.table }
    requires two { berths.two.table ≡ B.table }
    requires log { IsNew 1 ballots (log_of berths.one) }
    requires beside { IsNew 2 ballots (log_of berths.two) }
{
    let Berths {
        node: beside,
        one,
        two,
    } = berths;
    let mut beside = Neighbour::of(alloc, node, BookRecorder::of(rt, lock, beside), 0, None);
    let has_risen = beside.rise().is_ok();
    let inner = &Mutex::new(beside);
    let (one, two) = (
        BookRecorder::of(rt, lock, one),
        BookRecorder::of(rt, lock, two),
    );
    let mut one = risen(
        alloc,
        ballots,
        1,
        one,
        Shared {
            rt,
            alloc,
            client: 1,
            inner,
        },
    );
    let mut two = risen(
        alloc,
        ballots,
        2,
        two,
        Shared {
            rt,
            alloc,
            client: 2,
            inner,
        },
    );
    if !has_risen {
        return Err(Failure::Memory);
    }
    meet_risen(&rt, alloc, &mut one, &mut two, other)
}

/// The same in this book, which comes back.
fn meet_in<B: BookName, K: Logs + Drop, R: Wait + Copy>(
    rt: R,
    alloc: Global,
    ballots: BallotList,
    node: NodeId,
    book: K,
    berths: Berths,
    other: &[u8],
) -> (K, Result<bool, Failure>)
    requires book { (K.book book).table ≡ B.table }
    requires node { berths.node.table ≡ B.table }
    requires one { berths.one.table ≡ B.table }
    requires two { berths.two.table ≡ B.table }
    requires log { IsNew 1 ballots (log_of berths.one) }
    requires beside { IsNew 2 ballots (log_of berths.two) }
{
    let lock = Mutex::new(Named::<B, K>::of(book));
    let met = meet_over(rt, alloc, ballots, node, &lock, berths, other);
    (lock.into_inner().into_book(), met)
}

/// Ends the test unless a reader of `a` and a reader of this resource meet, or don't, as is expected; the journal is
/// sound.
fn readers_meet<R: Wait + Copy>(rt: R, alloc: Global, other: &[u8], expected: bool) -> Outcome {
    let node = node_id(1);
    let ballots = ballots()?;
    let mut book = book(alloc, ballots)?;
    let berths = give_berths(ballots, &mut book)?;
    let (book, met) = meet_in::<Brand, Book, R>(rt, alloc, ballots, node, book, berths, other);
    let opening = world(alloc, ballots)?;
    is_met(alloc, opening, &book, met, expected)
}

/// Ends the test unless this was met, and the book's journal is sound.
fn is_met(
    alloc: Global,
    opening: World,
    book: &Book,
    met: Result<bool, Failure>,
    expected: bool,
) -> Outcome
    requires { Unit {0} }
{
    journal_of(alloc, book, opening)?;
    check_row(met? == expected, 1)
}

#[test]
fn two_readers_of_one_resource_meet(rt: HostRuntime) -> Outcome {
    readers_meet(rt, rt.alloc(), b"a", true)
}

#[test]
fn readers_of_two_resources_do_not_meet(rt: HostRuntime) -> Outcome {
    readers_meet(rt, rt.alloc(), b"b", false)
}
