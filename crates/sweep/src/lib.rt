// A sweep: one configuration over a list of seeds, into a table of seven numbers a seed.
#![tactic(auto)]

mod clear;

ghost use Rattle.std.specs.Prelude.{ℕ, ◌+◌, ◌*◌, ◌≤◌, ◌≡◌, List, Result, length, replicate};
ghost use Rattle.std.proofs.lemmas.List.Edits.{sets};
ghost use Rattle.config.specs.declared.refusal.Refusal.{Refusal};
ghost use Rattle.protocol.specs.View.{no_terms};
ghost use Rattle.pipeline.specs.View.{Blank, table_size};
ghost use Rattle.rules.specs.Accepted.{Accepted};
ghost use Rattle.rules.specs.Networks.{asked_for};
ghost use Rattle.rules.specs.Questions.{asked};
ghost use Rattle.rounds.specs.Going.{planned};
ghost use Rattle.sweep.specs.Sweep.{swept_size, swept_line, table_questions, sweep_questions, sweep_for};
ghost use Rattle.sweep.specs.Working.{plan_with, RunsSeed, CanSweep, Sweeps};

use clear::{clear_starts, clear_states};
use config::Config;
use config::limits::MAX_NODES;
use config::refusal::Refusal;
use metrics::summary::Summary;
use pipeline::carry::with_states;
use pipeline::records::History;
use protocol::state::PaxosState;
use rounds::run::{Plan, play};
use rules::networks::{Asked, ask_network};
use rules::questions::ask_config;
use sim::outcome::summary_of;

// A line: rounds, slots, listen, flood, sleep, records, end.
pub const SWEPT_SIZE: usize = 7;

const MAX_SEEDS: usize = 65536;

// Question 15, for so many seeds and a table of this length.
fn ask_table(seeds: usize, table: usize) -> Result<(), Refusal>
    ensures { result ≡ asked (table_questions seeds table) }
{
    if MAX_SEEDS < seeds || table < SWEPT_SIZE * seeds {
        return Err(Refusal::SweepTable);
    }
    Ok(())
}

// The questions of the configuration, then 15.
fn ask_sweep(config: Config, seeds: usize, table: usize) -> Result<(), Refusal>
    ensures { result ≡ asked (sweep_questions config seeds table) }
{
    ask_config(config)?;
    ask_table(seeds, table)
}

// The same plan for the run of another seed.
fn plan_with(plan: &Plan, seed: u64) -> Plan
    ensures { result ≡ plan_with plan.now seed }
{
    let config = Config {
        seed,
        ..plan.config
    };
    Plan {
        network: plan.network,
        config,
    }
}

// Writes a run's line from the place `at` on, in the order of `swept_line`. From a place on, as the definition lays it (`sets`):
// from a chunk's promise that of the whole table would have to be put together again.
fn put_swept_line(table: &mut [u64], at: usize, summary: Summary)
    requires { at + swept_size ≤ length table.old }
    ensures { table.new ≡ sets table.old at (swept_line summary) }
{
    table[at..at + SWEPT_SIZE].copy_from_slice(&[
        summary.rounds,
        summary.slots,
        summary.listen,
        summary.flood,
        summary.sleep,
        summary.records,
        summary.ended,
    ]);
}

// The run of one seed over blank tables, which are cleared for the next. Its summary.
fn run_seed(plan: &Plan, seed: u64, states: &mut [PaxosState], history: &mut History) -> Summary
    requires { Accepted (planned plan.now) × Blank plan.now.network.graph.nodes states.old history.old }
    ensures { RunsSeed plan.now seed result states.new history.new }
{
    let most = plan.most_rounds();
    let mut snapshots = [0u64; 0];
    let seeded = plan_with(plan, seed);
    let stopped = play(&seeded, most, states, history, &mut snapshots);
    let n = plan.network.graph.nodes;
    clear_states(states, n);
    clear_starts(history);
    summary_of(stopped, n)
}

// The runs of all seeds, each with its line. The sum of their rounds.
fn sweep_over(plan: &Plan, seeds: &[u64], states: &mut [PaxosState], table: &mut [u64]) -> u64
    requires { CanSweep plan.now seeds.now table.old × (states.old ≡ replicate (table_size plan.now.network.graph.nodes) no_terms) }
    ensures { Sweeps plan.now seeds.now table.old result table.new }
{
    let mut history = History::EMPTY;
    let mut rounds = 0u64;
    for (i, &seed) in seeds.iter().enumerate() {
        let summary = run_seed(plan, seed, states, &mut history);
        put_swept_line(table, SWEPT_SIZE * i, summary);
        rounds += summary.rounds;
    }
    rounds
}

// The sweep of a graph. One table of states serves all its runs.
fn sweep_graph(plan: &Plan, seeds: &[u64], table: &mut [u64]) -> u64
    requires { CanSweep plan.now seeds.now table.old }
    ensures { Sweeps plan.now seeds.now table.old result table.new }
{
    let mut sweep = |states: &mut [PaxosState]| sweep_over(plan, seeds, states, table);
    with_states(plan.network.graph.nodes, &mut sweep)
}

// The sweep that is asked for: the questions of the network, of the configuration and of the table, then the runs. Line i of
// the table is that of seed i. The configuration's own seed is not used. A refusal leaves the table as it was.
pub fn sweep_seeds(
    asked: Asked,
    config: Config,
    seeds: &[u64],
    table: &mut [u64],
) -> Result<u64, Refusal>
    ensures { ◌≡◌ {A = Result ℕ Refusal × List ℕ} (result, table.new) (sweep_for (asked_for asked.entry) config seeds.now table.old) }
{
    let network = ask_network(asked)?;
    ask_sweep(config, seeds.len(), table.len())?;
    let plan = Plan { network, config };
    Ok(sweep_graph(&plan, seeds, table))
}
