// The summary of a run (rule 7.5). The last two are the records, and all snapshots that were taken,
// stored or not. `ended` is a number and no enum, as C hands over summaries in which it may be any.
#[derive(Clone, Copy)]
pub struct Summary {
    pub nodes: u64,
    pub rounds: u64,
    pub slots: u64,
    pub ended: u64,
    pub listen: u64,
    pub flood: u64,
    pub sleep: u64,
    pub attempts: u64,
    pub successes: u64,
    pub flood_rounds: u64,
    pub flood_nodes: u64,
    pub covered: u64,
    pub took_part: u64,
    pub nacks: u64,
    pub piggybacks: u64,
    pub records: u64,
    pub snapshots: u64,
}
