// One node.

ghost use Rattle.std.specs.Prelude.{◌≡◌, ◌↔◌, true, not, length, IsTrue, IfOk, IfErr, OnOk, OnErr, IsOkUnless};
ghost use Rattle.lock_messages.specs.Messages.{is_for_node};
ghost use Rattle.lock_model.specs.ExactDecisions.{Changes, changes, same_problem};
ghost use Rattle.stable_record.specs.declared.node_records.NodeRecord.{NodeRecord};
ghost use Rattle.stable_record.specs.Lines.{Indexes};
ghost use Rattle.stable_record.specs.Records.{IsNodeRecord, node_record_of};
ghost use Rattle.voter_core.specs.Voters.{phase_in, replies_in, record_of, risen, taken, switched, Allows, AllowsSwitch, kept, spoken, IsRecordOf, IsRefusedFor};

use crate::deciding::{
    decide, freed_by, is_caused, room_for, same_problem, stays_a_record, switches_to_a_record,
};
use crate::phases::phase_after;
use crate::rising::read_record;
use crate::settling::settle_all;
use crate::{Phase, VoterFault};
use admission_policy::Pair;
use lock_messages::{Message, NodeId};
use lock_model::Problem;
use stable_record::{IndexedRecord, NodeRecord, ResourceIndex, node_bytes};
use std::alloc::{AllocError, Global};
use std::marker::Model;
use std::mem;

/// One node: its number, its station, its policies, and what it is about.
///
/// Contracts see the number, the station as a problem and entries in order, and the phase with its
/// replies. They do not see the policies, which decide nothing: that of the station's present problem is
/// asked, and is told what became of readers.
#[derive(Drop)]
pub struct NodeCore {
    alloc: Global,
    id: NodeId,
    station: NodeRecord,
    index: ResourceIndex,
    policies: Pair,
    about: Phase,
    told: Vec<Message>,
}

impl Model for NodeCore {
    ghost use Rattle.voter_core.specs.Voters.{Voter, IsIndexed, state_of};

    ghost Value = { Voter };

    ghost view = { λ c. record { node = c.id; problem = c.station.problem; entries = c.station.entries; state = state_of c.about c.told.items } };

    ghost invariant = { λ c. IsIndexed c.station c.index };
}

impl NodeCore {
    /// The node with this number, at rest, with the station that its record has, of whichever problem.
    ///
    /// A refusal hands the policies back: 501 where the bytes are no node record, with the first fault
    /// that reading them meets; 503 where memory was refused, which may come before it.
    pub fn rise(
        alloc: Global,
        node: NodeId,
        bytes: &[u8],
        policies: Pair,
    ) -> Result<NodeCore, (Pair, VoterFault)>
        requires { Unit {0} }
        // The station is the record's, its problem too.
        ensures risen { IfOk result (λ core. (r : NodeRecord) × IsRecordOf bytes.now r × (core ≡ risen node r)) }
        ensures refused { IfErr result (λ back. (back.0 ≡ policies) × IsRefusedFor bytes.now back.1) }
        // A record is refused for memory alone.
        ensures only { (r : NodeRecord) → IsRecordOf bytes.now r → IfErr result (λ back. back.1 ≡ VoterFault.Memory) }
    {
        let station = match read_record(alloc, bytes) {
            Ok(station) => station,
            Err(fault) => return Err((policies, fault)),
        };
        let Ok(station) = IndexedRecord::of(alloc, station) else {
            return Err((policies, VoterFault::Memory));
        };
        Ok(NodeCore::rise_with(alloc, node, station, policies))
    }

    /// The node with this number, at rest, with this station and its index. It takes no memory.
    ///
    /// The caller owes that the station is a record that can be kept and read again: one that
    /// `read_node` answered, that of a core (`record`), or a copy of either; one without entries is.
    pub fn rise_with(
        alloc: Global,
        node: NodeId,
        station: IndexedRecord,
        policies: Pair,
    ) -> NodeCore
        requires { IsNodeRecord station }
        ensures { result ≡ risen node station }
    {
        let (station, index) = station.into_parts();
        NodeCore {
            alloc,
            id: node,
            station,
            index,
            policies,
            about: Phase::Idle,
            told: Vec::new(alloc),
        }
    }

    /// Puts the node back at rest with the station that its record has, as a restart does; the policies
    /// stay. What it was about is lost, and so is a problem that was not kept.
    ///
    /// A refusal changes nothing: 501 and 503 as in `rise`.
    pub fn restart(&mut self, bytes: &[u8]) -> Result<(), VoterFault>
        requires { Unit {0} }
        ensures risen { OnOk result ((r : NodeRecord) × IsRecordOf bytes.now r × (self.new ≡ risen self.old.node r)) }
        ensures refused { IfErr result (λ fault. (self.new ≡ self.old) × IsRefusedFor bytes.now fault) }
        ensures only { (r : NodeRecord) → IsRecordOf bytes.now r → IfErr result (λ fault. fault ≡ VoterFault.Memory) }
    {
        let station = match read_record(self.alloc, bytes) {
            Ok(station) => station,
            Err(fault) => return Err(fault),
        };
        let Ok(station) = IndexedRecord::of(self.alloc, station) else {
            return Err(VoterFault::Memory);
        };
        self.restart_with(station);
        Ok(())
    }

    /// Puts the node back at rest with this station; the policies stay. What it was about is lost. It
    /// takes no memory.
    ///
    /// The caller owes that the station is a record, as in `rise_with`.
    pub fn restart_with(&mut self, station: IndexedRecord)
        requires { IsNodeRecord station }
        ensures { self.new ≡ risen self.old.node station }
    {
        let (station, index) = station.into_parts();
        self.station = station;
        self.index = index;
        self.about = Phase::Idle;
        self.told = Vec::new(self.alloc);
    }

    /// The node's station, as a record; from `take` on the decided one. It can be kept and read
    /// again.
    pub fn record(&self) -> &NodeRecord
        ensures station { result.now ≡ record_of self.now }
        ensures good { IsNodeRecord result.now }
    {
        &self.station
    }

    /// The tickets of the node's station by resource; from `take` on of the decided one.
    pub fn index(&self) -> &ResourceIndex
        ensures { Indexes result.now self.now.entries }
    {
        &self.index
    }

    /// The node's number.
    pub fn node(&self) -> NodeId
        ensures { result ≡ self.now.node }
    {
        self.id
    }

    /// What the node is about.
    pub fn phase(&self) -> Phase
        ensures phase { result ≡ phase_in self.now.state }
        ensures station { IsNodeRecord (record_of self.now) }
    {
        let _station = &self.station;
        self.about
    }

    /// Takes a message, and answers whether it changes the node's record. If it does, the record has
    /// to be kept before the node replies (Decided); else the replies may be said at once (Stored).
    ///
    /// A `Request` asks for the node's vote. A `Release` ends its client's attempts up to the one that
    /// it names. A `Soften` is of one attempt: a writer's ticket that holds by it is a reader's from now
    /// on, and one that waits goes, while the floor stays; any other stays as it is, and an unknown
    /// client gets no entry.
    ///
    /// The caller owes that the node is idle (`phase`) and that the message is for it
    /// (`Message::is_for_node`, of `node`). The rules are those of problems 1 and 2 (Courtois, Heymans and
    /// Parnas 1971), for the node's own vote; attempts, floors, softening and the order of entries are
    /// our own. The policy of the present problem is told once of each new reader's ticket, and of nothing
    /// else; the other is told nothing (tested: no clause sees policies). The only error
    /// is want of memory (503), and then nothing has changed. Where a ticket ends or is softened, those
    /// that wait for its resource are asked one after the other, each by look-ups; no others are, and the
    /// replies take room for these alone. Two things cost more: where a new ticket's entry moves behind the
    /// others, these move up by one place each, and a client without an entry is looked for among all of them.
    pub fn take(&mut self, message: &Message) -> Result<bool, VoterFault>
        requires idle { phase_in self.old.state ≡ Phase.Idle }
        requires for_node { is_for_node message.now self.old.node ≡ true }
        ensures exact { OnOk result (self.new ≡ taken self.old message.now) }
        ensures changes { IfOk result (λ b. b ≡ changes self.old.problem self.old.entries message.now) }
        ensures changed { IfOk result (λ b. IsTrue b ↔ Changes self.old.problem self.old.entries message.now) }
        // It is a decision that the node may take, and the station after it is lawful and caused.
        ensures allowed { OnOk result (Allows self.old message.now self.new) }
        ensures memory { IsOkUnless result VoterFault.Memory }
        ensures unchanged { OnErr result (self.new ≡ self.old) }
    {
        stays_a_record(&self.station, self.id, message);
        is_caused(&self.station);
        let freed = freed_by(&self.station.entries, message);
        let Ok(mut replies) = room_for(self.alloc, &self.index, freed) else {
            return Err(VoterFault::Memory);
        };
        let problem = self.station.problem;
        let entries = &mut self.station.entries;
        let index = &mut self.index;
        let policies = &mut self.policies;
        let Ok(changed) = decide(
            policies,
            problem,
            entries,
            index,
            self.alloc,
            message,
            &mut replies,
        ) else {
            return Err(VoterFault::Memory);
        };
        self.told = replies;
        self.about = phase_after(changed);
        Ok(changed)
    }

    /// Takes this problem from now on, whatever the node's was, and answers whether it is another one. If
    /// it is, the record has to be kept before the node replies (Decided); else what there is to say may
    /// be said at once (Stored). The replies are the Grants of the tickets that settling made holders, in
    /// the order of the entries, perhaps none.
    ///
    /// All tickets settle under the problem, each in its turn, so no one waits without a cause; nobody
    /// who holds is sent away (our own; the problems are those of Courtois, Heymans and Parnas 1971). The
    /// policies are told nothing (in no clause, as in `take`). The caller owes that the node is idle (`phase`).
    /// The only error is want of memory (503), which is asked for the replies, and then nothing has changed.
    pub fn switch(&mut self, problem: Problem) -> Result<bool, VoterFault>
        requires { phase_in self.old.state ≡ Phase.Idle }
        ensures exact { OnOk result (self.new ≡ switched self.old problem) }
        ensures answer { IfOk result (λ b. b ≡ not (same_problem self.old.problem problem)) }
        // It is a switch that the node may take, and the station after it is lawful and caused.
        ensures allowed { OnOk result (AllowsSwitch self.old problem self.new) }
        ensures memory { IsOkUnless result VoterFault.Memory }
        ensures unchanged { OnErr result (self.new ≡ self.old) }
    {
        switches_to_a_record(&self.station, self.id, problem);
        let mut replies = Vec::new(self.alloc);
        if replies.reserve(self.station.entries.len()).is_err() {
            return Err(VoterFault::Memory);
        }
        let policies = &self.policies;
        let entries = &mut self.station.entries;
        let index = &mut self.index;
        settle_all(policies, problem, self.id, entries, index, &mut replies);
        let changed = !same_problem(self.station.problem, problem);
        self.station.problem = problem;
        self.told = replies;
        self.about = phase_after(changed);
        Ok(changed)
    }

    /// The bytes of the node's record; from `take` on of the decided one. The only error is want of
    /// memory (503).
    pub fn next_bytes(&self, alloc: Global) -> Result<Vec<u8>, VoterFault>
        ensures bytes { IfOk result (λ bytes. bytes.items ≡ node_record_of (record_of self.now)) }
        ensures memory { IsOkUnless result VoterFault.Memory }
    {
        match node_bytes(alloc, &self.station) {
            Ok(bytes) => Ok(bytes),
            Err(_) => Err(VoterFault::Memory),
        }
    }

    /// The decided record is kept, and the replies may be said. It takes no memory.
    ///
    /// The caller owes that the node is Decided (`phase`), and that the bytes of `next_bytes` are
    /// kept.
    pub fn kept(&mut self)
        requires { phase_in self.old.state ≡ Phase.Decided }
        ensures { self.new ≡ kept self.old }
    {
        self.about = Phase::Stored;
    }

    /// How many replies `speak` will give; 0 while the node is idle. It takes no memory.
    pub fn replies(&self) -> usize
        ensures { result ≡ length (replies_in self.now.state) }
    {
        match self.about {
            Phase::Idle => 0,
            Phase::Decided | Phase::Stored => self.told.as_slice().len(),
        }
    }

    /// The replies, the sender's first, and the node is idle again. It takes no memory.
    ///
    /// The caller owes that the node is Stored (`phase`).
    pub fn speak(&mut self) -> Vec<Message>
        requires { phase_in self.old.state ≡ Phase.Stored }
        ensures replies { result.items ≡ replies_in self.old.state }
        ensures idle { self.new ≡ spoken self.old }
    {
        self.about = Phase::Idle;
        mem::replace(&mut self.told, Vec::new(self.alloc))
    }

    /// A copy of the node with policies of its own: the same number, station and replies, and it is about
    /// the same. What it asks and tells are these policies, and no longer those of the node (in no clause). The
    /// only error is want of memory (503), and then these are dropped.
    ///
    /// It costs what a copy of the record costs, and of its index and the replies.
    pub fn copy(&self, policies: Pair) -> Result<NodeCore, VoterFault>
        requires { Unit {0} }
        ensures same { IfOk result (λ copy. copy ≡ self.now) }
        ensures memory { IsOkUnless result VoterFault.Memory }
    {
        let alloc = self.alloc;
        let Ok(copy) = IndexedRecord::copy_of(alloc, &self.station) else {
            return Err(VoterFault::Memory);
        };
        let Ok(told) = self.told.clone() else {
            return Err(VoterFault::Memory);
        };
        let (record, index) = copy.into_parts();
        Ok(NodeCore {
            alloc,
            id: self.id,
            station: record,
            index,
            policies,
            about: self.about,
            told,
        })
    }

    /// The policies, where the node falls: all but its record is lost. It takes no memory.
    pub fn fall(self) -> Pair
        requires { Unit {0} }
    {
        let NodeCore { policies, .. } = self;
        policies
    }
}
