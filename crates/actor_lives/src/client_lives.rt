// A client's life.

ghost use Rattle.std.specs.Prelude.{◌≡◌, ◌≤◌, ◌∷◌, [], OnOk, IfErr};
ghost use Rattle.lock_messages.specs.declared.ids.Actor.TheVariants as who;
ghost use Rattle.stable_record.specs.Records.{client_record_of};
ghost use Rattle.lossy_link.specs.Links.{all_more};
ghost use Rattle.world_model.specs.Openings.{down_client};
ghost use Rattle.world_model.specs.Parts.{ClientPart};
ghost use Rattle.client_loop.specs.Sendings.{sent_of, ToldUnlessMemory};
ghost use Rattle.actor_lives.specs.Lives.{IsLogOf, KeepsJournal};

use crate::desks::Desk;
use crate::serving::serve_client;
use event_recorders::RunFault;
use lock_messages::{ClientId, MAX_ATTEMPT};
use lock_session::Session;
use lossy_link::Link;
use own_recorders::{OwnClient, OwnRecorder};
use session_files::SessionFile;
use std::alloc::Global;
use std::io::Write;
use std::sync::Wait;
use vote_weights::BallotList;

/// How a client's life ended, its recorder and its link.
#[derive(Drop)]
pub struct ClientEnd<W: Write + Drop, L: Link> {
    /// A fault is 911, 914, 915 or 916. Without a fault the commands ended. Then it says whether each node has answered
    /// the last release.
    pub ended: Result<bool, RunFault>,
    pub recorder: OwnRecorder<OwnClient, W>,
    pub link: L,
}

/// Runs a client's life: it rises with the attempt that its record holds, releases what its last life held, and obeys
/// the commands of the desk until they end.
///
/// The caller owes a record in which a restart finds just this attempt, which is at most `MAX_ATTEMPT`, and 0 for none.
///
/// The end tells a fault that ended the session: the record's file failed (911), out of memory (914), the journal can't
/// be written (915), or no attempt is left or no change of the record can be numbered (916).
#[tactic(auto, using(crate::proofs::Steps::living))]
pub fn run_client_life<T: Wait, W: Write + Drop, L: Link, D: Desk>(
    rt: &T,
    alloc: Global,
    client: ClientId,
    ballots: BallotList,
    attempt: u64,
    stable: SessionFile,
    journal: W,
    link: L,
    desk: &mut D,
) -> ClientEnd<W, L>
    requires attempt { attempt ≤ MAX_ATTEMPT }
    requires found { stable.record.finds ≡ client_record_of attempt ∷ [] }
    ensures whose { IsLogOf (who.Client client) ballots (ClientPart (down_client attempt)) result.recorder.log }
    ensures kept { KeepsJournal result.recorder }
    ensures sent { OnOk result.ended (L.given result.link ≡ all_more (L.given link) (sent_of result.recorder.log)) }
    ensures faulted { IfErr result.ended (λ f. ToldUnlessMemory f result.recorder.log (L.given link) (L.given result.link)) }
{
    let actor = OwnClient::opened(client, attempt, ballots);
    let recorder = OwnRecorder::over(alloc, actor, journal);
    let mut session = match Session::rise(client, ballots, stable, recorder, link) {
        Ok(session) => session,
        Err(back) => {
            back.recorder.tell();
            return ClientEnd {
                ended: Err(back.fault),
                recorder: back.recorder,
                link: back.link,
            };
        }
    };
    let ended = serve_client(rt, alloc, &mut session, desk);
    let (_, recorder, link) = session.into_parts();
    recorder.tell();
    ClientEnd {
        ended,
        recorder,
        link,
    }
}
