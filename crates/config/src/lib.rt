// What a run is asked to do, after ctsim's config.rs, and the limits of what may be asked.
#![tactic(auto)]

pub mod limits;
pub mod numbered;
pub mod rate;
pub mod refusal;

// `round_slots` is the length limit of a round, if there is one.
#[derive(Clone, Copy)]
pub struct Config {
    pub flood_repeats: u64,
    pub round_slots: Option<u64>,
    pub loss_rate: f64,
    pub seed: u64,
    pub num_proposals: u64,
    pub snapshot_interval: u64,
    pub max_slots: u64,
}
