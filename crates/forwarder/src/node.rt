ghost use Rattle.std.specs.Prelude.{◌≡◌, ◌++◌, false, List, length, drop, Err, IfOk, IfErr, IsTrue, OnErr, IsOk, MatchOption, slice_get};
ghost use Rattle.key_files.specs.KeyFile.{NamedKey};
ghost use Rattle.info_rules.specs.Rule.{PlainRule};
ghost use Rattle.ndn_tlv.specs.Element.{Field};
ghost use Rattle.content_store.specs.Store.{IsStore};
ghost use Rattle.pit_fib.specs.Fib.{LeadsTo};
ghost use Rattle.pit_fib.specs.Pit.{record_count};
ghost use Rattle.forwarder.specs.Event.{plain, Send};
ghost use Rattle.forwarder.specs.Node.{AsksNoMemory, IsStep};
ghost use Rattle.forwarder.specs.Parts.{first_node, is_bad_prefix as is_bad_prefix_of, parts_fault};
ghost use Rattle.forwarder.specs.Headline.{Headline, IsNodeRun};
ghost use Rattle.forwarder.specs.Policy.{HasSameTables, Policy, first_policy};
ghost use Rattle.forwarder.specs.Runs.{Run, Start, Then, BringsKeysApart, IsRun, Stands};
ghost use Rattle.forwarder.specs.DataSends.{BringsOctets};
ghost use Rattle.forwarder.specs.State.{IsSound};
ghost use Rattle.forwarder.specs.Verdict.{verdict_of};

use crate::event::{Event, RulesAndKeys, Scope};
use crate::open_faces::OpenFaces;
use crate::outbox::Outbox;
use crate::state::State;
use crate::verdict::Verdict;
use content_store::{Store, StoreFault};
use info_rules::Rules;
use key_files::KeyBook;
use mgmt_core::Tables;
use ndn_names::NameBuf;
use ndn_names::component_type::GENERIC;
use ndn_tlv::Memory;
use pit_fib::{Fib, Pit, StrategyTable};
use replay_guard::Guard;
use repo_core::Repo;
use std::alloc::{AllocError, Global};
use std::marker::Model;
use thiserror::Error;

/// The parts that a node is made of.
#[derive(Drop)]
pub struct NodeParts {
    /// The rules that decide which commands and Data are allowed.
    pub rules: Rules,
    /// The keys that the rules refer to.
    pub keys: KeyBook,
    /// The repository's prefix, which must not be empty and must not begin with `/localhost`.
    pub repo: NameBuf,
    /// The number of Data that the cache can hold, which must be from 1 to 65,536.
    pub cache: u32,
}

/// Why a node cannot be made. If there are several faults, `Node::new` returns the fault that comes
/// first in this list.
#[derive(Clone, Copy, Debug, PartialEq, Eq, Error)]
pub enum NodeFault {
    #[error("the repository's prefix is empty, or begins with /localhost")]
    BadRepoPrefix,
    #[error("the cache's capacity is not from 1 to 65536")]
    BadCapacity,
    #[error("out of memory")]
    Memory,
}

/// A forwarder with a cache and a repository.
#[derive(Drop)]
pub struct Node {
    state: State,
}

impl Model for Node {
    ghost use Rattle.forwarder.specs.Node.{NodeState};
    ghost use Rattle.forwarder.specs.State.{IsSound, state_of};
    ghost use Rattle.std.specs.Coded.{codes};
    ghost use Rattle.content_store.specs.Store.{IsStore, state_code as store_code};
    ghost use Rattle.repo_core.specs.Repo.{held_code};
    ghost use Rattle.repo_core.specs.Objects.{AreObjects};
    ghost use Rattle.forwarder.specs.Coded.{routes_code, choices_code, guard_code, pending_code};

    ghost Value = { NodeState };

    ghost coded = { Prim.hlevel (codes, routes_code, choices_code, guard_code, pending_code, held_code, store_code) };

    ghost view = { λ n. state_of n.state };

    ghost invariant = { λ n. IsSound (state_of n.state) × AreObjects n.state.repo.held.objects
        × IsStore n.state.tables.store };
}

impl From<AllocError> for NodeFault {
    ghost use Rattle.std.specs.Prelude.{◌≡◌};
    ghost use Rattle.forwarder.specs.declared.node.NodeFault.TheVariants.{Memory};

    ghost from_gives = { λ _ fault. fault ≡ Memory };

    fn from(_error: AllocError) -> NodeFault {
        NodeFault::Memory
    }
}

/// Returns whether a name cannot be the repository's prefix.
fn is_bad_prefix(repo: &NameBuf) -> bool
    ensures { result ≡ is_bad_prefix_of repo.now }
{
    match repo.view().component(0) {
        None => true,
        Some(first) => first.kind == GENERIC && first.value == b"localhost".as_slice(),
    }
}

impl Node {
    /// Returns a node without faces.
    ///
    /// If there are several faults, returns the fault that comes first in `NodeFault`.
    pub fn new(alloc: Global, parts: NodeParts) -> Result<Node, NodeFault>
        ensures ok { IfOk result
            (λ node. node ≡ first_node parts.rules parts.keys parts.repo parts.cache) }
        ensures fault { MatchOption (parts_fault parts.repo parts.cache)
            (IfErr result (λ fault. fault ≡ NodeFault.Memory))
            (λ fault. result ≡ Err fault) }
    {
        if is_bad_prefix(&parts.repo) {
            return Err(NodeFault::BadRepoPrefix);
        }
        let store = match Store::new(alloc, parts.cache as usize) {
            Ok(store) => store,
            Err(StoreFault::BadCapacity) => return Err(NodeFault::BadCapacity),
            Err(StoreFault::Memory) => return Err(NodeFault::Memory),
        };
        let Ok(repo) = Repo::new(alloc, parts.repo) else {
            return Err(NodeFault::Memory);
        };
        let state = State {
            alloc,
            now: 0,
            table_number: 0,
            rules: parts.rules,
            keys: parts.keys,
            faces: OpenFaces::new(),
            pit: Pit::new(alloc),
            tables: Tables::new(alloc, Fib::new(alloc), StrategyTable::new(alloc), store),
            guard: Guard::new(alloc),
            repo,
        };
        Ok(Node { state })
    }

    /// Returns the rules that decide commands and Data. The clauses `sound` and `store` are true of
    /// every node.
    pub fn rules(&self) -> &Rules
        ensures exact { result.now ≡ self.now.policy.rules }
        ensures sound { IsSound self.now }
        ensures store { IsStore self.now.cache }
    {
        &self.state.rules
    }

    /// Returns the keys that the rules refer to. No two keys have the same name, as `KeyBook::len`
    /// ensures for every key book.
    pub fn keys(&self) -> &KeyBook
        ensures { result.now ≡ self.now.policy.keys }
    {
        &self.state.keys
    }

    /// Returns the greatest moment of the events that were handled, in milliseconds since 1970.
    /// Returns 0 before the first event.
    pub fn now(&self) -> u64
        ensures { result ≡ self.now.policy.now }
    {
        self.state.now
    }

    /// Returns the number and the scope of the open face at index `i`, or `None` if `i` or fewer
    /// faces are open. The open faces are in rising order of their numbers. At most 64 faces are
    /// open.
    pub fn open_face(&self, i: usize) -> Option<(u64, Scope)>
        ensures { result ≡ slice_get self.now.policy.faces i }
    {
        self.state.faces.entry(i)
    }

    /// Returns whether closing the face may lose something: whether a pending Interest came from
    /// the face, or the face may have a next hop or a route. If the result is false, the face has
    /// neither. Takes constant time.
    pub fn holds(&self, face: u64) -> bool
        ensures asks { result ≡ false → record_count self.now.pending face ≡ 0 }
        ensures leads { result ≡ false → LeadsTo self.now.policy.routes face → ⊥ }
    {
        self.state.pit.records_of(face) > 0 || self.state.tables.fib.may_lead_to(face)
    }

    /// Returns whether two nodes agree in the time, the repository's prefix, the open faces, the
    /// routes, the strategies, the replay guard, the stored Data and the pending inserts. The
    /// rules, the keys, and the version of the lists of routes and strategies are not compared. The
    /// contract says only what a result `true` means.
    pub fn has_same_tables(&self, other: &Node) -> Result<bool, Memory>
        ensures { IfOk result
            (λ same. IsTrue same → HasSameTables self.now.policy other.now.policy) }
    {
        self.state.has_same_tables(&other.state)
    }

    /// Handles one event (NFD Developer's Guide, "Forwarding"): returns the verdict, and appends
    /// the sends to the outbox.
    ///
    /// The rules and keys of an event `NewRules` replace the old rules and keys, and are in force
    /// from the next event on. Apart from this, the event `NewRules` only advances time, as each
    /// event does.
    ///
    /// If memory runs out, the node and the outbox are unchanged. These events need no memory: face changes, ticks, new rules, packets on faces that are not open, octets that
    /// hold no packet, packets out of scope (`DropReason::Scope`), and Interests with HopLimit 0. A
    /// Data that the rules do not allow needs no memory, unless the first rule that applies to the
    /// Data has a hyper-relation.
    pub fn step(
        &mut self,
        event: Event<&[u8], RulesAndKeys>,
        outbox: &mut Outbox,
    ) -> Result<Verdict, Memory>
        // One step, from received octets to sent octets.
        ensures answered { IfOk result
            (λ verdict. (sends : List Send) × (outbox.new ≡ outbox.old ++ sends)
            × IsStep self.old (plain event.entry)
            (record { verdict = verdict_of verdict; sends = sends }) self.new) }
        // Let the node agree with a valid run that starts from a policy with the time 0. If this
        // event and its answer are appended to the run, the longer run is valid, and the node after
        // the step agrees with the longer run.
        ensures run { IfOk result (λ verdict. let sends = drop (length outbox.old) outbox.new in
            (first : Policy) (past : Run) → first.now ≡ 0 → IsRun first past
            → Stands first past self.old
            → IsRun first (Then past (plain event.entry)
            (record { verdict = verdict_of verdict; sends = sends }))
            × Stands first (Then past (plain event.entry)
            (record { verdict = verdict_of verdict; sends = sends })) self.new) }
        // The headline is true of each run of a node that this event and its answer extend.
        ensures headline { IfOk result (λ verdict.
            let sends = drop (length outbox.old) outbox.new in (rules : List PlainRule) (keys : List NamedKey) (repo : List Field) (past : Run)
            → IsNodeRun (first_policy rules keys repo) past
            → Stands (first_policy rules keys repo) past self.old
            → IsNodeRun (first_policy rules keys repo) (Then past (plain event.entry)
            (record { verdict = verdict_of verdict; sends = sends }))
            × Headline (first_policy rules keys repo) (Then past (plain event.entry)
            (record { verdict = verdict_of verdict; sends = sends })) self.new.policy) }
        ensures memory { OnErr result ((self.new ≡ self.old)
            × (outbox.new ≡ outbox.old)) }
        ensures without_memory { AsksNoMemory self.old (plain event.entry) → IsOk result }
        // The cache is within its capacity, and has each Data once and as it was received, even if
        // memory ran out.
        ensures store { IsStore self.new.cache }
        // The clauses `octets` and `keys` are true of every event.
        ensures octets { BringsOctets (plain event.entry) }
        ensures keys { BringsKeysApart (plain event.entry) }
    {
        match event {
            Event::Packet { face, now, octets } => {
                self.state.receive(face, now, octets, &mut outbox.sends)
            }
            Event::FaceUp { face, scope, now } => Ok(self.state.open(face, scope, now)),
            Event::FaceDown { face, now } => Ok(self.state.close(face, now)),
            Event::Tick { now } => {
                self.state.pass_time(now);
                Ok(Verdict::Passed)
            }
            Event::NewRules { rules, now } => {
                Ok(self.state.replace_rules(rules.rules, rules.keys, now))
            }
        }
    }
}
