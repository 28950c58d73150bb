// How c1 is run, alone or beside others.

ghost use Rattle.std.specs.Prelude.{◌≡◌, ◌≤◌};
ghost use Rattle.lock_messages.specs.declared.ids.TheConstants.{MAX_ATTEMPT};
ghost use Rattle.book_recorders.specs.Alone.{IsAlone};
ghost use Rattle.book_recorders.specs.Sharing.{log_of};
ghost use Rattle.loop_tests.specs.Clients.{IsClientOf};
ghost use Rattle.loop_tests.specs.Fresh.{two_nodes};

use crate::clients::wishes;
use crate::neighbours::Neighbour;
use crate::openings::{own_book, resumed};
use crate::records::record_on;
use crate::runs::{Answer, Beside, Run};
use crate::scripts::{Others, Scripted};
use crate::watches::{Watch, Watched};
use crate::worlds::{CLIENTS, ballots, opened};
use book_recorders::{BookName, BookRecorder, Logs, Named, OwnBookRecorder};
use book_support::journal_of;
use client_loop::run_client;
use event_recorders::Recorder;
use history_book::{Berth, Book};
use lock_messages::{Actor, MAX_ATTEMPT};
use lock_model::Problem;
use lossy_link::{Link, ListLink};
use stable_record::client_bytes;
use std::alloc::Global;
use std::marker::Brand;
use std::sync::{Arc, Mutex, Wait};
use test_outcomes::{Failure, client_id, node_id};
use test_support::new_world;
use vote_weights::BallotList;

/// Runs c1, which has made this attempt last, over this link.
#[tactic(auto, using(crate::proofs::Ready::placed))]
fn play<W: Wait, R: Recorder, L: Link>(
    rt: &W,
    alloc: Global,
    ballots: BallotList,
    attempt: u64,
    run: &Run<'_>,
    recorder: &mut R,
    link: &mut L,
    watch: &Arc<Watch>,
) -> Result<Answer, Failure>
    requires ballots { ballots ≡ two_nodes }
    requires log { IsClientOf ballots attempt (R.own_log recorder.old) }
    requires attempt { attempt ≤ MAX_ATTEMPT }
{
    let client = client_id(1);
    let stable = record_on(alloc, run.device, &client_bytes(attempt), watch)?;
    let wishes = wishes(alloc, run.wishes)?;
    let gate: &Watch = watch;
    Ok(run_client(
        rt, alloc, client, ballots, &wishes, stable, recorder, link, gate,
    ))
}

/// Runs c1 so in a book of its own; answers the book.
fn run_alone<K: Logs + Drop, W: Wait>(
    rt: &W,
    alloc: Global,
    ballots: BallotList,
    own: (K, Berth),
    attempt: u64,
    run: &Run<'_>,
    link: &mut ListLink,
    watch: &Arc<Watch>,
    answer: &mut Result<Answer, Failure>,
) -> K
    requires ballots { ballots ≡ two_nodes }
    requires alone { IsAlone (K.book own.0) own.1 }
    requires log { IsClientOf ballots attempt (log_of own.1) }
    requires attempt { attempt ≤ MAX_ATTEMPT }
{
    let (book, berth) = own;
    let mut recorder = Watched {
        inner: OwnBookRecorder::over(book, berth),
        room: run.room,
        watch,
    };
    *answer = play(rt, alloc, ballots, attempt, run, &mut recorder, link, watch);
    let Watched { inner, .. } = recorder;
    inner.into_book()
}

/// Lets c1, which has made this attempt last, go to its end in a book of its own, and writes the journal.
pub(crate) fn end_alone<R: Wait + Copy>(
    rt: R,
    alloc: Global,
    attempt: u64,
    run: &Run<'_>,
    link: &mut ListLink,
    watch: &Arc<Watch>,
    journal: &mut Vec<u8>,
) -> Result<Answer, Failure> {
    if attempt > MAX_ATTEMPT {
        return Err(Failure::Wrong(0));
    }
    let ballots = ballots()?;
    let own = own_book(alloc, ballots, attempt)?;
    let mut answer = Err(Failure::NoAnswer(0));
    let book = run_alone::<Book, R>(
        &rt,
        alloc,
        ballots,
        own,
        attempt,
        run,
        link,
        watch,
        &mut answer,
    );
    *journal = journal_of(alloc, &book, resumed(alloc, ballots, attempt)?)?;
    answer
}

/// Runs c1 while others log lines, each before a post comes.
fn play_scripted<B: BookName, K: Logs, W: Wait + Copy, R: Recorder>(
    rt: W,
    alloc: Global,
    ballots: BallotList,
    run: &Run<'_>,
    lines: &[&str],
    recorder: &mut R,
    others: &mut Others<'_, B, K, W>,
    link: &mut ListLink,
    watch: &Arc<Watch>,
) -> Result<Answer, Failure>
    requires ballots { ballots ≡ two_nodes }
    requires log { IsClientOf ballots 0 (R.own_log recorder.old) }
{
    let mut link = Scripted::of(others, link, lines, run.parcels);
    let answer = play(&rt, alloc, ballots, 0, run, recorder, &mut link, watch);
    match link.logged {
        Ok(()) => answer,
        Err(failure) => Err(failure),
    }
}

/// Runs c1 once others have logged their lines, in the book of all.
fn play_beside<B: BookName, K: Logs, W: Wait + Copy, R: Recorder>(
    rt: W,
    alloc: Global,
    ballots: BallotList,
    run: &Run<'_>,
    recorder: &mut R,
    others: &mut Others<'_, B, K, W>,
    link: &mut ListLink,
    watch: &Arc<Watch>,
) -> Result<Answer, Failure>
    requires ballots { ballots ≡ two_nodes }
    requires log { IsClientOf ballots 0 (R.own_log recorder.old) }
{
    others.log(run.before)?;
    match run.beside {
        Beside::Lines(lines) => play_scripted(
            rt, alloc, ballots, run, lines, recorder, others, link, watch,
        ),
        Beside::Node(node, gone, nudges, goes) => {
            let nodes = (test_support::node(node)?, test_support::node(gone)?);
            let mut link = Neighbour::of(alloc, others, link, nodes, nudges, goes)?;
            play(&rt, alloc, ballots, 0, run, recorder, &mut link, watch)
        }
    }
}

/// Runs c1 so in the book under this lock.
fn run_under<B: BookName, K: Logs, W: Wait + Copy>(
    rt: W,
    alloc: Global,
    ballots: BallotList,
    lock: &Mutex<Named<B, K>>,
    own: Berth,
    others: (Berth, Berth, Berth, Berth),
    run: &Run<'_>,
    link: &mut ListLink,
    watch: &Arc<Watch>,
) -> Result<Answer, Failure>
    requires ballots { ballots ≡ two_nodes }
    requires own { own.table ≡ B.table }
    requires first { others.0.table ≡ B.table }
    requires second { others.1.table ≡ B.table }
    requires third { others.2.table ≡ B.table }
    requires fourth { others.3.table ≡ B.table }
    requires log { IsClientOf ballots 0 (log_of own) }
{
    let mut others = Others::of(rt, lock, others);
    let mut recorder = Watched {
        inner: BookRecorder::of(rt, lock, own),
        room: run.room,
        watch,
    };
    play_beside(
        rt,
        alloc,
        ballots,
        run,
        &mut recorder,
        &mut others,
        link,
        watch,
    )
}

/// Runs c1 so in this book; answers the book.
fn run_beside<B: BookName, K: Logs + Drop, W: Wait + Copy>(
    rt: W,
    alloc: Global,
    ballots: BallotList,
    book: K,
    own: Berth,
    others: (Berth, Berth, Berth, Berth),
    run: &Run<'_>,
    link: &mut ListLink,
    watch: &Arc<Watch>,
    answer: &mut Result<Answer, Failure>,
) -> K
    requires ballots { ballots ≡ two_nodes }
    requires book { (K.book book).table ≡ B.table }
    requires own { own.table ≡ B.table }
    requires first { others.0.table ≡ B.table }
    requires second { others.1.table ≡ B.table }
    requires third { others.2.table ≡ B.table }
    requires fourth { others.3.table ≡ B.table }
    requires log { IsClientOf ballots 0 (log_of own) }
{
    let lock = Mutex::new(Named::<B, K>::of(book));
    *answer = run_under(rt, alloc, ballots, &lock, own, others, run, link, watch);
    lock.into_inner().into_book()
}

/// Lets c1 go to its end in the book of all, and writes the journal.
#[tactic(auto, using(crate::proofs::Ready::client_log))]
pub(crate) fn end_beside<R: Wait + Copy>(
    rt: R,
    alloc: Global,
    run: &Run<'_>,
    link: &mut ListLink,
    watch: &Arc<Watch>,
    journal: &mut Vec<u8>,
) -> Result<Answer, Failure> {
    let ballots = ballots()?;
    let (client, other) = (client_id(1), Actor::Node(node_id(1)));
    let problem = Problem::First;
    let (book, own, others) = opened(alloc, ballots, problem, Actor::Client(client), other)?;
    let mut answer = Err(Failure::NoAnswer(0));
    let book = run_beside::<Brand, Book, R>(
        rt,
        alloc,
        ballots,
        book,
        own,
        others,
        run,
        link,
        watch,
        &mut answer,
    );
    let world = new_world(alloc, ballots, problem, CLIENTS)?;
    *journal = journal_of(alloc, &book, world)?;
    answer
}
