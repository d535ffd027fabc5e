// The nodes' part of a round, after ctsim's sim/paxos_pipeline.rs.
ghost use Rattle.std.specs.Prelude.{◌≡◌, ◌<◌};
ghost use Rattle.config.specs.Limits.{max_terms, count_bound};
ghost use Rattle.protocol.specs.View.{last_below};
ghost use Rattle.pipeline.specs.Round.{latest};
ghost use Rattle.pipeline.specs.View.{with_start, MayPrepare, Prepares, MayTake, TakesTurn, MayProcess, Processes, replaced};

use super::carry::Carry;
use super::records::History;
use network::graph::full_set;
use network::members::members_of;
use network::units::{NodeId, Slot, Term};
use phy::packet::{Packet, Piggyback};
use protocol::state::PaxosState;

// What the rounds carry after `prepare_round`, and the packet to be flooded.
#[derive(Clone, Copy)]
pub struct PreparedRound {
    pub carry: Carry,
    pub packet: Packet,
}

// Where a proposal is made now, its slot is kept.
fn keep_start(history: &mut History, proposal: Option<Term>, slot: Slot)
    requires { last_below max_terms proposal }
    ensures { history.new ≡ with_start proposal «slot» history.old }
{
    if let Some(term) = proposal {
        history.starts[term.0 as usize] = slot;
    }
}

// `prepare_round`: the initiator's turn, the record of what it newly commits, and its packet. The states and the history stay two
// borrows, here and below: in a struct of borrows each contract would need a clause more, that they are still those.
pub fn prepare_round(
    x: Carry,
    states: &mut [PaxosState],
    history: &mut History,
    n: usize,
    proposals: u64,
    initiator: NodeId,
    slot: Slot,
) -> PreparedRound
    requires { MayPrepare n proposals initiator x states.old history.old }
    ensures { Prepares n proposals initiator slot x states.old history.old result states.new history.new }
{
    let counter = x.counter;
    let proposes = counter < proposals;
    let turn = states[initiator.0].initiator_turn(initiator, n, counter, proposes, x.piggyback);
    let packet = turn.packet;
    keep_start(history, proposes.then_some(Term(counter)), slot);
    let recorded = history.record_all(x.recorded, turn.newly, slot);
    let carry = Carry {
        counter: counter + u64::from(proposes),
        recorded,
        nacks: x.nacks + u64::from(packet.nack_term.is_some()),
        ..x
    };
    PreparedRound { carry, packet }
}

// The same piggyback, made anew. A copy would take its unused bytes along, in pieces that overlap, and the next turn's copy
// would wait for them.
fn made_anew(p: Option<Piggyback>) -> Option<Piggyback>
    ensures { result ≡ p }
{
    let again = p?;
    let Some(t) = again.data else {
        return Some(Piggyback {
            term: again.term,
            data: None,
        });
    };
    Some(Piggyback {
        term: again.term,
        data: Some(t),
    })
}

// A turn's piggyback, if there is one, else that before it.
fn latest(recovery: Option<Piggyback>, before: Option<Piggyback>) -> Option<Piggyback>
    ensures { result ≡ latest recovery before }
{
    made_anew(recovery.or(before))
}

// A turn's piggyback, if there is one, in the place of that before it, and counted.
fn recovered(y: Carry, recovery: Option<Piggyback>) -> Carry
    requires { y.piggybacks < count_bound }
    ensures { result ≡ replaced recovery y }
{
    Carry {
        piggyback: latest(recovery, y.piggyback),
        piggybacks: y.piggybacks + u64::from(recovery.is_some()),
        ..y
    }
}

// A participant's turn, and the record of what it newly commits.
fn take_turn(
    x: Carry,
    states: &mut [PaxosState],
    history: &mut History,
    packet: Packet,
    node: NodeId,
    slot: Slot,
) -> Carry
    requires { MayTake packet node x states.old history.old }
    ensures { TakesTurn packet slot node x states.old history.old result states.new history.new }
{
    let turn = states[node.0].participant_turn(node, packet);
    let recorded = history.record_all(x.recorded, turn.newly, slot);
    recovered(Carry { recorded, ..x }, turn.recovery)
}

// `process_round`: the turns of the nodes that took part, ascending.
pub fn process_round(
    x: Carry,
    states: &mut [PaxosState],
    history: &mut History,
    n: usize,
    packet: Packet,
    slot: Slot,
    part: u64,
) -> Carry
    requires { MayProcess n packet x states.old history.old }
    ensures { Processes n packet slot part x states.old history.old result states.new history.new }
{
    let mut y = Carry {
        piggyback: None,
        ..x
    };
    let took = part & full_set(n);
    for j in members_of(took) {
        y = take_turn(y, states, history, packet, NodeId(j), slot);
    }
    y
}
