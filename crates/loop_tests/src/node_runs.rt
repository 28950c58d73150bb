// How n1 is run beside others.

ghost use Rattle.std.specs.Prelude.{◌≡◌};
ghost use Rattle.book_recorders.specs.Sharing.{log_of};
ghost use Rattle.loop_tests.specs.Fresh.{IsNewNode};

use crate::records::record_on;
use crate::runs::{Answer, Beside, Run};
use crate::scripts::{Others, Scripted};
use crate::watches::{Watch, Watched};
use crate::worlds::{CLIENTS, ballots, opened};
use book_recorders::{BookName, BookRecorder, Logs, Named};
use book_support::journal_of;
use event_recorders::Recorder;
use history_book::{Berth, Book};
use lock_messages::Actor;
use lock_model::Problem;
use lossy_link::{Link, ListLink};
use node_loop::run_node;
use std::alloc::Global;
use std::marker::Brand;
use std::sync::{Arc, Mutex, Wait};
use test_outcomes::{Failure, client_id, node_id};
use test_support::{new_world, nothing_kept, plain_pair};

/// Runs n1, which has kept nothing, over this link.
#[tactic(auto, using(crate::proofs::Ready::node_ready))]
fn play<W: Wait, R: Recorder, L: Link>(
    rt: &W,
    alloc: Global,
    problem: Problem,
    run: &Run<'_>,
    recorder: &mut R,
    link: &mut L,
    watch: &Arc<Watch>,
) -> Result<Answer, Failure>
    requires log { IsNewNode problem (R.own_log recorder.old) }
{
    let node = node_id(1);
    let nothing = nothing_kept(alloc, problem)?;
    let stable = record_on(alloc, run.device, nothing.as_slice(), watch)?;
    let policies = plain_pair();
    let gate: &Watch = watch;
    match run_node(rt, alloc, node, stable, policies, recorder, link, gate) {
        Ok(()) => Ok(Ok(0)),
        Err(fault) => Ok(Err((0, fault))),
    }
}

/// Runs n1 once others have logged their lines, while they log more of them.
fn play_beside<B: BookName, K: Logs, W: Wait + Copy, R: Recorder>(
    rt: W,
    alloc: Global,
    problem: Problem,
    run: &Run<'_>,
    recorder: &mut R,
    others: &mut Others<'_, B, K, W>,
    link: &mut ListLink,
    watch: &Arc<Watch>,
) -> Result<Answer, Failure>
    requires log { IsNewNode problem (R.own_log recorder.old) }
{
    let Beside::Lines(lines) = run.beside else {
        return Err(Failure::Wrong(0));
    };
    others.log(run.before)?;
    let mut link = Scripted::of(others, link, lines, run.parcels);
    let answer = play(&rt, alloc, problem, run, recorder, &mut link, watch);
    match link.logged {
        Ok(()) => answer,
        Err(failure) => Err(failure),
    }
}

/// Runs n1 so in the book under this lock.
fn run_under<B: BookName, K: Logs, W: Wait + Copy>(
    rt: W,
    alloc: Global,
    problem: Problem,
    lock: &Mutex<Named<B, K>>,
    own: Berth,
    others: (Berth, Berth, Berth, Berth),
    run: &Run<'_>,
    link: &mut ListLink,
    watch: &Arc<Watch>,
) -> Result<Answer, Failure>
    requires own { own.table ≡ B.table }
    requires first { others.0.table ≡ B.table }
    requires second { others.1.table ≡ B.table }
    requires third { others.2.table ≡ B.table }
    requires fourth { others.3.table ≡ B.table }
    requires log { IsNewNode problem (log_of own) }
{
    let mut others = Others::of(rt, lock, others);
    let mut recorder = Watched {
        inner: BookRecorder::of(rt, lock, own),
        room: run.room,
        watch,
    };
    play_beside(
        rt,
        alloc,
        problem,
        run,
        &mut recorder,
        &mut others,
        link,
        watch,
    )
}

/// Runs n1 so in this book; answers the book.
fn run_beside<B: BookName, K: Logs + Drop, W: Wait + Copy>(
    rt: W,
    alloc: Global,
    problem: Problem,
    book: K,
    own: Berth,
    others: (Berth, Berth, Berth, Berth),
    run: &Run<'_>,
    link: &mut ListLink,
    watch: &Arc<Watch>,
    answer: &mut Result<Answer, Failure>,
) -> K
    requires book { (K.book book).table ≡ B.table }
    requires own { own.table ≡ B.table }
    requires first { others.0.table ≡ B.table }
    requires second { others.1.table ≡ B.table }
    requires third { others.2.table ≡ B.table }
    requires fourth { others.3.table ≡ B.table }
    requires log { IsNewNode problem (log_of own) }
{
    let lock = Mutex::new(Named::<B, K>::of(book));
    *answer = run_under(rt, alloc, problem, &lock, own, others, run, link, watch);
    lock.into_inner().into_book()
}

/// Lets n1, under this problem, go to its end in the book of all, and writes the journal.
#[tactic(auto, using(crate::proofs::Ready::node_log))]
pub(crate) fn end_of_node<R: Wait + Copy>(
    rt: R,
    alloc: Global,
    problem: Problem,
    run: &Run<'_>,
    link: &mut ListLink,
    watch: &Arc<Watch>,
    journal: &mut Vec<u8>,
) -> Result<Answer, Failure> {
    let ballots = ballots()?;
    let (node, other) = (node_id(1), Actor::Client(client_id(1)));
    let (book, own, others) = opened(alloc, ballots, problem, Actor::Node(node), other)?;
    let mut answer = Err(Failure::NoAnswer(0));
    let book = run_beside::<Brand, Book, R>(
        rt,
        alloc,
        problem,
        book,
        own,
        others,
        run,
        link,
        watch,
        &mut answer,
    );
    let world = new_world(alloc, ballots, problem, CLIENTS)?;
    *journal = journal_of(alloc, &book, world)?;
    answer
}
