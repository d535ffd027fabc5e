// How far the logs are.
ghost use Rattle.std.specs.Prelude.{◌≡◌, ◌≤◌};
ghost use Rattle.config.specs.Limits.{max_terms};
ghost use Rattle.network.specs.Graph.{has, all};
ghost use Rattle.rounds.specs.Going.{CanSurvey, Surveys};

use network::graph::full_set;
use protocol::state::PaxosState;

// The length of the shortest log, and whether all logs hold every proposal.
#[derive(Clone, Copy)]
pub struct Surveyed {
    pub shortest: u64,
    pub complete: bool,
}

// Whether a set holds each term below `proposals`.
fn logs_all(logged: u64, proposals: usize) -> bool
    requires { proposals ≤ max_terms }
    ensures { result ≡ all proposals (has logged) }
{
    let every = full_set(proposals);
    logged & every == every
}

// Looks at the logs of the first n nodes. A log with the terms of the first is no shorter, so only the others are counted;
// all logs hold every proposal when their intersection does. n stands beside the table, as in the definitions (`AllKept`,
// `states_of`): a slice to n would be a second list to say them of.
pub fn survey(states: &[PaxosState], n: usize, proposals: usize) -> Surveyed
    requires { CanSurvey n proposals states.now }
    ensures { Surveys n proposals states.now result }
{
    let first = states[0].logged;
    let mut shortest = first.count_ones();
    let mut common = first;
    for state in &states[..n] {
        let logged = state.logged;
        if logged != first {
            shortest = shortest.min(logged.count_ones());
        }
        common &= logged;
    }
    Surveyed {
        shortest: shortest as u64,
        complete: logs_all(common, proposals),
    }
}
