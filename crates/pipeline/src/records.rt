// Records of proposals: the first time that a term is newly committed anywhere.
ghost use Rattle.std.specs.Prelude.{◌≡◌, false, [], ◌∷◌, ◌+◌, ◌≤◌, ◌<◌, length};
ghost use Rattle.std.proofs.lemmas.List.Edits.{sets};
ghost use Rattle.config.specs.Limits.{max_terms, record_size};
ghost use Rattle.network.specs.Graph.{has};
ghost use Rattle.phy.specs.Slot.{among};
ghost use Rattle.pipeline.specs.View.{record_of, Recording, Records};
ghost use Rattle.pipeline.specs.Round.{record_triple};

use config::limits::{MAX_TERMS, RECORD_SIZE};
use network::graph::has;
use network::members::members_of;
use network::units::{Slot, Term};

// How many records there are, and the set of the terms that are recorded. The count is kept beside the set: each new record needs
// it, and counting takes longer. `Recording` relates both to a history, so neither can hold it. They are carried from round to
// round and no fields of the history: a new run carries none over a history that a run before it has filled, and asks only for its
// starts to be cleared.
#[derive(Clone, Copy)]
pub struct Recorded {
    pub count: u64,
    pub terms: u64,
}

// A record: its term, the slot that its proposal was made in, and the slot at which it was first newly
// committed.
#[derive(Clone, Copy)]
pub struct ProposalRecord {
    pub id: Term,
    pub start: Slot,
    pub end: Slot,
}

// By term the slot that its proposal was made in, 0 where none was made, and the records in their order.
#[derive(Clone, Copy)]
pub struct History {
    pub starts: [Slot; MAX_TERMS],
    pub records: [ProposalRecord; MAX_TERMS],
}

// Writes a record's numbers, id, start and end, from the place `at` on, as the definition lays them (`sets out at`).
pub fn put_record(out: &mut [u64], at: usize, record: ProposalRecord)
    requires { at + record_size ≤ length out.old }
    ensures { out.new ≡ sets out.old at (record_triple (record_of «record»)) }
{
    let id = record.id;
    let start = record.start;
    let end = record.end;
    out[at..at + RECORD_SIZE].copy_from_slice(&[id.0, start.0, end.0]);
}

impl History {
    // No proposal was made, and nothing is recorded.
    pub const EMPTY: History = History {
        starts: [Slot(0); MAX_TERMS],
        records: [ProposalRecord {
            id: Term(0),
            start: Slot(0),
            end: Slot(0),
        }; MAX_TERMS],
    };

    // Adds a record of a term that is not recorded.
    fn add(&mut self, x: Recorded, term: Term, end: Slot) -> Recorded
        requires { Recording x self.old × (term.0 < max_terms) × (has x.terms term.0 ≡ false) }
        ensures { Records «end».0 (term.0 ∷ []) x self.old result self.new }
    {
        let t = term.0;
        let start = self.starts[t as usize];
        self.records[x.count as usize] = ProposalRecord {
            id: term,
            start,
            end,
        };
        Recorded {
            count: x.count + 1,
            terms: x.terms | (1 << t),
        }
    }

    // Records a term, unless it is recorded already.
    fn record_one(&mut self, x: Recorded, term: Term, end: Slot) -> Recorded
        requires { Recording x self.old × (term.0 < max_terms) }
        ensures { Records «end».0 (term.0 ∷ []) x self.old result self.new }
    {
        if has(x.terms, term.0 as usize) {
            return x;
        }
        self.add(x, term, end)
    }

    // Records the terms of a set, ascending, each unless it is recorded already. Where all are, nothing
    // is looked at.
    pub fn record_all(&mut self, x: Recorded, newly: u64, end: Slot) -> Recorded
        requires { Recording x self.old }
        ensures { Records «end».0 (among max_terms (has newly)) x self.old result self.new }
    {
        if newly & x.terms == newly {
            return x;
        }
        let mut r = x;
        for t in members_of(newly) {
            r = self.record_one(r, Term(t as u64), end);
        }
        r
    }
}
