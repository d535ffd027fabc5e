// A look ahead to one round of a run: its packet and the nodes that take part. No buffer is lent, and nothing is written.
#![tactic(auto)]

ghost use Rattle.std.specs.Prelude.{◌<◌, ◌≡◌, replicate};
ghost use Rattle.config.specs.Limits.{most_rounds};
ghost use Rattle.protocol.specs.View.{no_terms};
ghost use Rattle.pipeline.specs.View.{table_size};
ghost use Rattle.rules.specs.Accepted.{Accepted};
ghost use Rattle.rules.specs.Networks.{asked_for};
ghost use Rattle.rounds.specs.Going.{planned};
ghost use Rattle.preview.specs.Preview.{preview_in, preview_for};

use config::Config;
use config::refusal::Refusal;
use pipeline::carry::with_states;
use pipeline::records::History;
use protocol::state::PaxosState;
use rounds::run::{Plan, play};
use rules::answer::SeenRound;
use rules::networks::{Asked, ask_network};
use rules::questions::ask_config;

// Round k, over a table of states that are still empty. Plays rounds 0 to k, with no place for a snapshot.
fn preview_over(plan: &Plan, k: u64, states: &mut [PaxosState]) -> Result<SeenRound, Refusal>
    requires { Accepted (planned plan.now) × (k < most_rounds plan.now.config.num_proposals) × (states.old ≡ replicate (table_size plan.now.network.graph.nodes) no_terms) }
    ensures { result ≡ preview_in (planned plan.now) k }
{
    let most = k + 1;
    let mut history = History::EMPTY;
    let mut snapshots = [0u64; 0];
    let stopped = play(plan, most, states, &mut history, &mut snapshots);
    stopped.last.ok_or(Refusal::NoSuchRound)
}

// Round k of the run of a graph. From P + 1,002 on no run has a round.
fn preview_graph(plan: &Plan, k: u64) -> Result<SeenRound, Refusal>
    requires { Accepted (planned plan.now) }
    ensures { result ≡ preview_in (planned plan.now) k }
{
    if plan.most_rounds() <= k {
        return Err(Refusal::NoSuchRound);
    }
    let mut look = |states: &mut [PaxosState]| preview_over(plan, k, states);
    with_states(plan.network.graph.nodes, &mut look)
}

// Round k, the first being 0, of the run that is asked for: the questions of the network and of the configuration, then the
// round.
pub fn preview_round(asked: Asked, config: Config, k: u64) -> Result<SeenRound, Refusal>
    ensures { result ≡ preview_for (asked_for asked.entry) config k }
{
    let network = ask_network(asked)?;
    ask_config(config)?;
    let plan = Plan { network, config };
    preview_graph(&plan, k)
}
