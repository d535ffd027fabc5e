// A node's Paxos state, and what others ask of it.
ghost use Rattle.std.specs.Prelude.{◌≡◌, ◌<◌};
ghost use Rattle.std.specs.Int.Count.{ones};
ghost use Rattle.config.specs.Limits.{max_terms};
ghost use Rattle.protocol.specs.View.{term_at};

use config::limits::MAX_TERMS;
use network::units::Term;

// By term the votes, a set of nodes, and the term whose data it carries; the logged terms in commit order; the
// set of the pending terms, that of the logged ones, and the last accepted term.
// `Kept`, asked in `paxos`, `turns` and `sim`, is no ghost field: `logged_term`, `logged_count` and the definitions take any state,
// and would then ask for it.
#[derive(Clone, Copy)]
pub struct PaxosState {
    // Apart from the data, as the votes alone are gone through in vector steps (`merge_votes_up_to`, `others_voted`).
    pub votes: [u64; MAX_TERMS],
    pub data: [Option<Term>; MAX_TERMS],
    // Of fixed room, as there is no heap. So many terms count as `logged` has, and no number beside it could differ.
    pub log: [Term; MAX_TERMS],
    pub pending: u64,
    pub logged: u64,
    pub last_accepted: Option<Term>,
}

impl PaxosState {
    // Nothing pending, logged or accepted.
    pub const EMPTY: PaxosState = PaxosState {
        votes: [0; MAX_TERMS],
        data: [None; MAX_TERMS],
        log: [Term(0); MAX_TERMS],
        pending: 0,
        logged: 0,
        last_accepted: None,
    };

    // Term k of the log.
    pub fn logged_term(&self, k: usize) -> Term
        requires { k < max_terms }
        ensures { result.0 ≡ term_at self.now k }
    {
        self.log[k]
    }

    // How many terms are logged.
    pub fn logged_count(&self) -> u64
        ensures { result ≡ ones self.now.logged }
    {
        self.logged.count_ones() as u64
    }
}
