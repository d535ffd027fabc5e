// A node's turns, after what ctsim's sim/paxos_pipeline.rs does with one node: `prepare_round`
// with the initiator, `process_round` with each node that took part.
ghost use Rattle.std.specs.Prelude.{◌≡◌, ◌<◌, ◌≤◌};
ghost use Rattle.config.specs.Limits.{set_bits, max_terms};
ghost use Rattle.protocol.specs.Paxos.{vote};
ghost use Rattle.protocol.specs.Turns.{nack, with_proposal, announce, take_data, take_piggyback};
ghost use Rattle.protocol.specs.View.{Kept, Step, TermsBelow, MayInitiate, last_below, may_propose, proposal_below, back_below, Announces, Initiates, Takes};

use crate::bits::union_of;
use crate::state::PaxosState;
use network::units::{NodeId, Term};
use phy::packet::{Packet, Piggyback};

// What the initiator's turn gives beside its state: the packet, and the set of terms newly committed.
#[derive(Clone, Copy)]
pub struct Announced {
    pub packet: Packet,
    pub newly: u64,
}

// What a participant's turn gives beside its state: the set of terms newly committed, and the NACKed
// term with its data if the node holds it.
#[derive(Clone, Copy)]
pub struct Participation {
    pub newly: u64,
    pub recovery: Option<Piggyback>,
}

// The set of one node alone. That its number is below SET_BITS is asked here and in the turns: a type of such numbers would ask
// it of each caller where the number is made, as NodeId holds any.
fn vote_of(node: NodeId) -> u64
    requires { node.0 < set_bits }
    ensures { result ≡ vote node.0 }
{
    1u64 << node.0
}

// The NACK for a gap: its term, where that is above 0.
fn nack_of(gap: Option<Term>) -> Option<Term>
    ensures { result ≡ nack gap }
{
    gap.filter(|t| t.0 != 0)
}

impl PaxosState {
    // Commits up to the greatest pending quorum and builds the packet.
    fn announce(
        &mut self,
        node: NodeId,
        n: usize,
        current: Term,
        nack: Option<Term>,
        data: Option<Term>,
        piggyback: Option<Piggyback>,
    ) -> Announced
        requires { Kept max_terms self.old × (node.0 < set_bits) × (2 ≤ n) }
        ensures { Announces (announce node.0 n current.0 nack «data» piggyback) self.old result self.new }
    {
        let newly = self.commit_to(self.greatest_quorum(node, n));
        let packet = Packet {
            current_term: current,
            last_accepted_term: self.last_accepted,
            flags_bitmap: union_of(self.votes_of(current), vote_of(node)),
            nack_term: nack,
            sender: node,
            proposal_data: data,
            piggyback: piggyback,
        };
        Announced { packet, newly }
    }

    // A new proposal, if one is made, becomes pending with the node's own vote.
    fn propose(&mut self, node: NodeId, proposal: Option<Term>)
        requires { may_propose proposal self.old × (node.0 < set_bits) }
        ensures { Step (λ c. last_below c proposal) (with_proposal proposal node.0) self.old self.new }
    {
        if let Some(term) = proposal {
            self.hold(term, vote_of(node), proposal);
        }
    }

    // The initiator's turn: `counter` is the number of proposals made before it, `proposes` says whether
    // one is left to be made, and `piggyback` is what the round before it has set. `proposes` and no `Option<Term>`: the term
    // could only be the counter's, which the contract would have to ask.
    pub fn initiator_turn(
        &mut self,
        node: NodeId,
        n: usize,
        counter: u64,
        proposes: bool,
        piggyback: Option<Piggyback>,
    ) -> Announced
        requires { MayInitiate node.0 n counter proposes self.old }
        ensures { Initiates node.0 n counter proposes piggyback self.old result self.new }
    {
        let nack = nack_of(self.detect_gap(Term(counter)));
        let proposal = proposes.then_some(Term(counter));
        self.propose(node, proposal);
        let current = proposal.unwrap_or(Term(counter.saturating_sub(1)));
        self.announce(node, n, current, nack, proposal, piggyback)
    }

    // Proposal data becomes pending.
    fn take_data(&mut self, term: Term, votes: u64, d: Option<Term>)
        requires { Kept max_terms self.old × proposal_below max_terms term.0 d }
        ensures { Step (λ c. proposal_below c term.0 d) (take_data term.0 votes d) self.old self.new }
    {
        if let Some(u) = d {
            self.hold_new(term, votes, Some(u));
        }
    }

    // A piggyback's data becomes pending.
    fn take_piggyback(&mut self, votes: u64, piggyback: Option<Piggyback>)
        requires { Kept max_terms self.old × back_below max_terms piggyback }
        ensures { Step (λ c. back_below c piggyback) (take_piggyback votes piggyback) self.old self.new }
    {
        if let Some(again) = piggyback {
            self.hold_new(again.term, votes, again.data);
        }
    }

    // A participant's turn: what a node does with the packet that it holds after the flood. The flags
    // and then the own vote are merged in one pass, as their union.
    pub fn participant_turn(&mut self, node: NodeId, packet: Packet) -> Participation
        requires { Kept max_terms self.old × TermsBelow max_terms packet × (node.0 < set_bits) }
        ensures { Takes node.0 packet self.old result self.new }
    {
        let current = packet.current_term;
        let last = packet.last_accepted_term;
        let flags = packet.flags_bitmap;
        let nack = packet.nack_term;
        let data = packet.proposal_data;
        let piggyback = packet.piggyback;
        let own = vote_of(node);
        let seen = union_of(flags, own);
        let newly = self.commit_to(last);
        self.take_data(current, flags, data);
        self.merge_votes_up_to(current, seen);
        let recovery = self.recover(nack);
        self.take_piggyback(own, piggyback);
        Participation { newly, recovery }
    }
}
