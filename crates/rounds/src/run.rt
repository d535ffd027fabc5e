// The rounds of a run, up to its end.
ghost use Rattle.std.specs.Prelude.{◌≡◌, cond, ◌&&◌, eqb, ltb, ◌+◌, ◌*◌, ◌≤◌, replicate};
ghost use Rattle.config.specs.Limits.{max_nodes, max_terms, max_repeats, rounds_per_link, extra_rounds, most_rounds};
ghost use Rattle.random.specs.Draws.{DrawNext};
ghost use Rattle.phy.specs.Limits.{queue_size};
ghost use Rattle.phy.specs.View.{tables, CanFlood, Rounded};
ghost use Rattle.rules.specs.Accepted.{Accepted};
ghost use Rattle.rules.specs.Answers.{end_number};
ghost use Rattle.rounds.specs.Going.{planned, settings_of, longest_of, contents, SameTables, CanSurvey, Surveys, CanPlay, Plays, MovesOn, CanStart, CanGo, Goes, Stops, NewRadios, NewRun};

use super::survey::{Surveyed, survey};
use config::Config;
use config::limits::{ENOUGH_ROUNDS, EXTRA_ROUNDS, MAX_NODES, ROUNDS_PER_LINK};
use network::graph::full_set;
use network::units::{NodeId, Slot};
use phy::ci::{Round, flood_identical_round, length_limit};
use phy::slot::{Awake, QUEUE_SIZE, Radios, Settings};
use pipeline::carry::Carry;
use pipeline::records::{History, Recorded};
use pipeline::round::{PreparedRound, prepare_round, process_round};
use protocol::state::PaxosState;
use random::draws::{Stream, begin_draws};
use rules::answer::{End, SeenRound};
use rules::networks::Network;

// What a run is given: its network and its configuration. No ghost field holds that its questions passed (`Accepted`, asked in
// `flood`, `sim`, `preview`, `sweep`, `archive_writer` and `archive_check`): the laws speak of plans of any network and
// configuration.
#[derive(Clone, Copy)]
pub struct Plan {
    pub network: Network,
    pub config: Config,
}

// What the rounds write to: the queue of the flooding nodes, the stream of the draws, and lent tables of the nodes' Paxos states,
// of the proposals' history and of the snapshots.
#[derive(Drop)]
pub struct Workspace<'a> {
    pub queue: [u64; QUEUE_SIZE],
    pub stream: Stream,
    pub states: &'a mut [PaxosState],
    pub history: &'a mut History,
    pub snapshots: &'a mut [u64],
}

// Where a run stands between rounds: its radios, what the nodes share, how many nodes took part over all rounds, and the
// progress, the length of the shortest log, which snapshots show.
#[derive(Clone, Copy)]
pub struct Run {
    pub flood: Radios,
    pub carry: Carry,
    pub took_part: u64,
    pub progress: u64,
}

// One round that was run: where the run stands after it, and what is seen of it.
#[derive(Clone, Copy)]
pub struct Played {
    pub run: Run,
    pub round: SeenRound,
}

// One round more, and the end that came with it, if one did.
#[derive(Clone, Copy)]
pub struct Next {
    pub played: Played,
    pub ended: Option<End>,
}

// A run that has stopped: after how many rounds, and the round with which the allowed ones were used up, if it came to that; and
// its end, none where no end came before they were used up.
#[derive(Clone, Copy)]
pub struct Stopped {
    pub run: Run,
    pub rounds: u64,
    pub last: Option<SeenRound>,
    pub ended: Option<End>,
}

// The radios before the first round: every node listens.
fn new_radios(n: usize) -> Radios
    requires { n ≤ max_nodes }
    ensures { NewRadios n result }
{
    Radios {
        awake: Awake {
            listening: full_set(n),
            flooding: 0,
        },
        slots_listen: 0,
        slots_flood: 0,
        slots_sleep: 0,
        attempts: 0,
        successes: 0,
        slot: Slot(0),
        next_snapshot: Slot(0),
        snapshots: 0,
        first_stored: 0,
    }
}

// A run before its first round.
pub fn new_run(n: usize) -> Run
    requires { n ≤ max_nodes }
    ensures { NewRun n result }
{
    let flood = new_radios(n);
    let carry = Carry {
        counter: 0,
        recorded: Recorded { count: 0, terms: 0 },
        piggyback: None,
        nacks: 0,
        piggybacks: 0,
    };
    Run {
        flood,
        carry,
        took_part: 0,
        progress: 0,
    }
}

// The flood's settings, for snapshots that show this progress.
fn settings_of(plan: &Plan, progress: u64) -> Settings
    requires { plan.now.config.flood_repeats ≤ max_repeats }
    ensures { result ≡ settings_of plan.now progress }
{
    Settings {
        nodes: plan.network.graph.nodes,
        repeats: plan.config.flood_repeats as u32,
        interval: plan.config.snapshot_interval,
        progress,
        rate: plan.config.loss_rate,
    }
}

// The end after round k, if one has come.
fn end_after(proposals: u64, diameter: u64, complete: bool, records: u64, k: u64) -> Option<End>
    requires { (proposals ≤ max_terms) × (diameter ≤ max_nodes) }
    ensures { end_number result ≡ cond complete 1
        (cond (eqb records proposals && ltb (proposals + rounds_per_link * diameter) k) 2 (cond (ltb (proposals + extra_rounds) k) 3 0)) }
{
    if complete {
        Some(End::LogsComplete)
    } else if records == proposals && proposals + ROUNDS_PER_LINK * diameter < k {
        Some(End::AllRecorded)
    } else if proposals + EXTRA_ROUNDS < k {
        Some(End::RoundLimit)
    } else {
        None
    }
}

// The flood of a round from this initiator, as the run stands. Of what a flood writes to alone, and no method of the workspace: its
// contract would have to say that states and history stay.
fn flood(
    plan: &Plan,
    x: Run,
    initiator: NodeId,
    queue: &mut [u64; QUEUE_SIZE],
    stream: &mut Stream,
    snapshots: &mut [u64],
) -> Round
    requires { Accepted (planned plan.now) × CanFlood (settings_of plan.now x.progress) (longest_of plan.now) initiator.0 x.flood
        (tables queue.old stream.old snapshots.old) }
    ensures { Rounded (settings_of plan.now x.progress) plan.now.network.graph.rows (longest_of plan.now) initiator.0 x.flood
        (tables queue.old stream.old snapshots.old) result (tables queue.new stream.new snapshots.new) }
{
    flood_identical_round(
        settings_of(plan, x.progress),
        &plan.network.graph.rows,
        plan.longest(),
        initiator,
        x.flood,
        queue,
        stream,
        snapshots,
    )
}

impl Plan {
    // The most rounds of a run.
    pub fn most_rounds(&self) -> u64
        requires { self.now.config.num_proposals ≤ max_terms }
        ensures { result ≡ most_rounds self.now.config.num_proposals }
    {
        self.config.num_proposals + ENOUGH_ROUNDS
    }

    // The length limit of a round's flood.
    pub fn longest(&self) -> u64
        requires { (self.now.network.diameter ≤ max_nodes) × (self.now.config.flood_repeats ≤ max_repeats) }
        ensures { result ≡ longest_of self.now }
    {
        let config = self.config;
        let diameter = self.network.diameter as u64;
        length_limit(config.round_slots, diameter, config.flood_repeats)
    }
}

impl<'a> Workspace<'a> {
    // What a run of this seed writes to, over lent tables, before its first draw.
    pub fn new(
        seed: u64,
        states: &'a mut [PaxosState],
        history: &'a mut History,
        snapshots: &'a mut [u64],
    ) -> Workspace<'a>
        ensures empty { (result.queue ≡ replicate queue_size 0) × DrawNext seed 0 result.stream }
        ensures states { (result.states.ghost_name ≡ states.entry.ghost_name) × (result.states.now ≡ states.old) }
        ensures history { (result.history.ghost_name ≡ history.entry.ghost_name) × (result.history.now ≡ history.old) }
        ensures snapshots { (result.snapshots.ghost_name ≡ snapshots.entry.ghost_name) × (result.snapshots.now ≡ snapshots.old) }
    {
        Workspace {
            queue: [0; QUEUE_SIZE],
            stream: begin_draws(seed),
            states,
            history,
            snapshots,
        }
    }

    // Round k: prepare, flood, process.
    fn run_round(&mut self, plan: &Plan, k: u64, x: Run) -> Played
        requires { CanPlay plan.now k x (contents self.old) }
        ensures plays { Plays plan.now k x (contents self.old) result (contents self.new) }
        ensures tables { SameTables self.old self.new }
    {
        let n = plan.network.graph.nodes;
        let initiator = NodeId((k % (n as u64)) as usize);
        let PreparedRound { carry, packet } = prepare_round(
            x.carry,
            self.states,
            self.history,
            n,
            plan.config.num_proposals,
            initiator,
            x.flood.slot,
        );
        let Round { flood, part } = flood(
            plan,
            x,
            initiator,
            &mut self.queue,
            &mut self.stream,
            self.snapshots,
        );
        let carry = process_round(
            carry,
            self.states,
            self.history,
            n,
            packet,
            flood.slot,
            part,
        );
        let run = Run {
            flood,
            carry,
            took_part: x.took_part + part.count_ones() as u64,
            ..x
        };
        Played {
            run,
            round: SeenRound { packet, part },
        }
    }

    // How far the logs of the first n nodes are.
    fn surveyed(&self, n: usize, proposals: usize) -> Surveyed
        requires { CanSurvey n proposals self.now.states.now }
        ensures { Surveys n proposals self.now.states.now result }
    {
        survey(self.states, n, proposals)
    }

    // Round k, how far the logs are after it, and its end.
    pub fn next_round(&mut self, plan: &Plan, k: u64, x: Run) -> Next
        requires { CanPlay plan.now k x (contents self.old) }
        ensures moves { MovesOn plan.now k x (contents self.old) result (contents self.new) }
        ensures tables { SameTables self.old self.new }
    {
        let proposals = plan.config.num_proposals;
        let mut played = self.run_round(plan, k, x);
        let seen = self.surveyed(plan.network.graph.nodes, proposals as usize);
        played.run.progress = seen.shortest;
        let ended = end_after(
            proposals,
            plan.network.diameter as u64,
            seen.complete,
            played.run.carry.recorded.count,
            k,
        );
        Next { played, ended }
    }

    // Rounds up to an end, at most so many. A round starts only below the slot limit. The loop of `play_again`, which compares
    // each round with a file, is apart: as one with a closure, the closure would change the run and the workspace, and its
    // contract say what stays between its calls (`Underway` here, `Comparing` there).
    fn play_rounds(&mut self, plan: &Plan, most: u64) -> Stopped
        requires { CanGo plan.now most (contents self.old) }
        ensures goes { Goes plan.now most result self.old.snapshots.now (contents self.new) }
        ensures all_stored { result.run.flood.first_stored ≡ 0 }
        ensures tables { SameTables self.old self.new }
    {
        let mut x = new_run(plan.network.graph.nodes);
        // By the round's number, which the round is played for.
        for k in 0..most {
            if plan.config.max_slots <= x.flood.slot.0 {
                return Stopped {
                    run: x,
                    rounds: k,
                    last: None,
                    ended: Some(End::SlotLimit),
                };
            }
            let next = self.next_round(plan, k, x);
            x = next.played.run;
            let ended = next.ended;
            let rounds = k + 1;
            if ended.is_some() || rounds == most {
                return Stopped {
                    run: x,
                    rounds,
                    last: (rounds == most).then_some(next.played.round),
                    ended,
                };
            }
        }
        Stopped {
            run: x,
            rounds: most,
            last: None,
            ended: None,
        }
    }
}

// Plays at most so many rounds, over Paxos states and a history that are blank.
pub fn play(
    plan: &Plan,
    most: u64,
    states: &mut [PaxosState],
    history: &mut History,
    snapshots: &mut [u64],
) -> Stopped
    requires { CanStart plan.now most states.old history.old }
    ensures { Stops plan.now most result snapshots.old states.new history.new snapshots.new }
{
    Workspace::new(plan.config.seed, states, history, snapshots).play_rounds(plan, most)
}
