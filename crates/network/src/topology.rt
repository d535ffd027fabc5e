// The rows of a topology, after the builders of ctsim's network.rs, and rows that are given.
ghost use Rattle.std.specs.Prelude.{◌≡◌, List, Result, ◌++◌, ℕ, ◌^◌, ◌≤◌, ◌<◌, length, get_or, drop};
ghost use Rattle.config.specs.Limits.{max_nodes};
ghost use Rattle.config.specs.declared.refusal.Refusal.{Refusal};
ghost use Rattle.network.specs.Graph.{widened};
ghost use Rattle.network.specs.Topology.{topology_rows, built_rows, built_graph, checked_graph};
ghost use Rattle.network.specs.Builders.{asked_graph, Sized, Askable};

use crate::graph::{Graph, widen};
use crate::neighbours::Place;
use crate::questions::lies_in;
use config::limits::{MAX_BRANCHING, MAX_NODES, MIN_NODES};
use config::refusal::Refusal;

// A topology, a grid with its columns and a tree with its branching factor.
#[derive(Clone, Copy)]
pub enum Topology {
    FullMesh,
    Line,
    Star,
    Grid(usize),
    Ring,
    Tree(usize),
}

// The rows of a topology of n nodes.
fn topology_rows(t: Topology, n: usize) -> [u64; MAX_NODES]
    requires { Sized t × (n ≤ max_nodes) }
    ensures { result ≡ widened (topology_rows t n) n }
{
    let mut wide = [0u64; MAX_NODES];
    for (i, row) in wide[..n].iter_mut().enumerate() {
        *row = Place { nodes: n, at: i }.row(t);
    }
    wide
}

// Builds a topology, where there are 2 to 32 nodes (2) and its second number is at most `most` (3).
fn asked(t: Topology, nodes: u64, second: u64, most: u64) -> Result<Graph, Refusal>
    requires { Askable t second most }
    ensures { result ≡ asked_graph t nodes second most }
{
    if !lies_in(MIN_NODES, MAX_NODES as u64, nodes) {
        return Err(Refusal::NodeCount);
    }
    if most < second {
        return Err(Refusal::SecondNumber);
    }
    let n = nodes as usize;
    Ok(Graph {
        nodes: n,
        rows: topology_rows(t, n),
    })
}

// A grid asks for its rows and columns first. The columns are the second number, which question 3 leaves alone.
fn grid(rows: u64, columns: u64) -> Result<Graph, Refusal>
    ensures { result ≡ built_graph 4 rows columns }
{
    if !(lies_in(1, MAX_NODES as u64, rows) && lies_in(1, MAX_NODES as u64, columns)) {
        return Err(Refusal::NodeCount);
    }
    asked(Topology::Grid(columns as usize), rows * columns, 0, 0)
}

// The topology with that number, by the three numbers that C and a line give. `first` is the number of nodes, for a grid of
// rows, and `second` a grid's columns or a tree's branching factor.
pub fn build_graph(topology: u64, first: u64, second: u64) -> Result<Graph, Refusal>
    ensures { result ≡ built_graph topology first second }
{
    match topology {
        1 => asked(Topology::FullMesh, first, second, 0),
        2 => asked(Topology::Line, first, second, 0),
        3 => asked(Topology::Star, first, second, 0),
        4 => grid(first, second),
        5 => asked(Topology::Ring, first, second, 0),
        6 => asked(
            Topology::Tree(second as usize),
            first,
            second,
            MAX_BRANCHING,
        ),
        _ => Err(Refusal::UnknownTopology),
    }
}

// The graph of n nodes with these rows, by the slice and the number that C and a line give, where there are 2 to 32 nodes (2)
// and the first n rows are right (4).
pub fn checked_graph(rows: &[u32], n: u64) -> Result<Graph, Refusal>
    ensures { result ≡ checked_graph rows.now n }
{
    if !lies_in(MIN_NODES, MAX_NODES as u64, n) {
        return Err(Refusal::NodeCount);
    }
    let nodes = n as usize;
    if rows.len() < nodes {
        return Err(Refusal::WrongRows);
    }
    let graph = Graph {
        nodes,
        rows: widen(&rows[..nodes]),
    };
    if !graph.rows_right() {
        return Err(Refusal::WrongRows);
    }
    Ok(graph)
}

// Writes the rows, which have no bit from 32 on, to the first places.
fn copy_rows(wide: &[u64], out: &mut [u32])
    requires { (length wide.now ≤ length out.old) × ((i : ℕ) → i < length wide.now → get_or wide.now i 0 < 2 ^ 32) }
    ensures { out.new ≡ wide.now ++ drop (length wide.now) out.old }
{
    // By index: a loop over zipped places tells a proof nothing of what it wrote.
    for (i, &row) in wide.iter().enumerate() {
        out[i] = row as u32;
    }
}

// The rows of the topology with that number, numbered as for `build_graph`, into the first places of `out`, which has a
// place for each node (10); a refusal writes nothing.
pub fn rows(topology: u64, first: u64, second: u64, out: &mut [u32]) -> Result<usize, Refusal>
    ensures { ◌≡◌ {A = Result ℕ Refusal × List ℕ} (result, out.new) (built_rows topology first second out.old) }
{
    let graph = build_graph(topology, first, second)?;
    let n = graph.nodes;
    if out.len() < n {
        return Err(Refusal::ShortBuffers);
    }
    copy_rows(&graph.rows[..n], out);
    Ok(n)
}
