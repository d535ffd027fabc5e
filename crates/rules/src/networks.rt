// The network that is asked for, by rows or by a topology, after the questions put to it.
ghost use Rattle.std.specs.Prelude.{◌≡◌};
ghost use Rattle.rules.specs.Networks.{asked_for, built_for, network_for};

use config::refusal::Refusal;
use network::graph::Graph;
use network::topology::{build_graph, checked_graph};

// Rows for so many nodes, or the topology of a number with its two numbers: the number of nodes, for a grid of rows, and a grid's
// columns or a tree's branching factor. Apart from the configuration, as in the definitions (`outcome_for q config`): the questions
// of each stand alone.
#[derive(Clone, Copy)]
pub enum Asked<'a> {
    Rows(&'a [u32], u64),
    Topology(u64, u64, u64),
}

// A graph with its diameter.
#[derive(Clone, Copy)]
pub struct Network {
    pub graph: Graph,
    pub diameter: usize,
}

// The graph that is asked for. Inlined, here and below, as a graph that is handed on is copied.
#[inline(always)]
pub fn ask_graph(asked: Asked) -> Result<Graph, Refusal>
    ensures { result ≡ built_for (asked_for asked.entry) }
{
    match asked {
        Asked::Rows(rows, n) => checked_graph(rows, n),
        Asked::Topology(topology, first, second) => build_graph(topology, first, second),
    }
}

// The network that is asked for.
#[inline(always)]
pub fn ask_network(asked: Asked) -> Result<Network, Refusal>
    ensures { result ≡ network_for (asked_for asked.entry) }
{
    let graph = ask_graph(asked)?;
    let diameter = graph.diameter();
    Ok(Network { graph, diameter })
}
