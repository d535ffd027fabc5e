// What a run leaves in the lent buffers of logs and records.
ghost use Rattle.std.specs.Prelude.{◌≡◌, [], ◌∷◌, ◌+◌, ◌*◌, ◌≤◌, ◌<◌, length};
ghost use Rattle.std.specs.Int.Count.{ones};
ghost use Rattle.std.proofs.lemmas.List.Edits.{sets};
ghost use Rattle.config.specs.Limits.{max_nodes, max_terms, record_size, log_counts, log_size};
ghost use Rattle.random.specs.Table.{tabulate};
ghost use Rattle.protocol.specs.View.{term_at, log_of, Kept};
ghost use Rattle.pipeline.specs.View.{records_of, states_of, AllKept};
ghost use Rattle.rules.specs.Entries.{terms, logs_with, record_numbers};

use config::limits::{LOG_COUNTS, MAX_TERMS, RECORD_SIZE};
use network::units::NodeId;
use pipeline::records::{History, put_record};
use protocol::state::PaxosState;

// Copies the first `count` terms of a node's log to the place `at` of a buffer, whose places have their numbers in the rules.
fn copy_terms(state: &PaxosState, count: usize, out: &mut [u8], at: usize)
    requires { Kept max_terms state.now × (count ≤ ones state.now.logged) × (at + count ≤ length out.old) }
    ensures { out.new ≡ sets out.old at (tabulate count (term_at state.now)) }
{
    for (k, place) in out[at..at + count].iter_mut().enumerate() {
        *place = state.logged_term(k).0 as u8;
    }
}

// A node's terms, and their count.
fn write_log(state: &PaxosState, node: NodeId, logs: &mut [u8])
    requires { Kept max_terms state.now × (node.0 < max_nodes) × (log_size ≤ length logs.old) }
    ensures { let log = terms (log_of state.now) in
        logs.new ≡ sets (sets logs.old (max_terms * node.0) log) (log_counts + node.0) (length log ∷ []) }
{
    let i = node.0;
    let count = state.logged_count();
    copy_terms(state, count as usize, logs, MAX_TERMS * i);
    logs[LOG_COUNTS + i] = count as u8;
}

// The logs of the first n nodes, where the table has room for more. n stands beside it, as in the definitions (`AllKept`,
// `states_of`): a slice to n would be a second list to say them of.
pub fn write_logs(states: &[PaxosState], n: usize, logs: &mut [u8])
    requires { AllKept max_terms n states.now × (n ≤ max_nodes) × (log_size ≤ length logs.old) }
    ensures { logs.new ≡ logs_with logs.old (states_of n states.now) n }
{
    for (i, state) in states[..n].iter().enumerate() {
        write_log(state, NodeId(i), logs);
    }
}

// The records, three numbers each. The buffer is written from a record's place on, as the definition lays it (`sets`): from a
// chunk's promise that of the whole buffer would have to be put together again.
pub fn write_records(history: &History, count: u64, out: &mut [u64])
    requires { (count ≤ max_terms) × (record_size * count ≤ length out.old) }
    ensures { out.new ≡ sets out.old 0 (record_numbers (records_of count history.now)) }
{
    let n = count as usize;
    for (k, &record) in history.records[..n].iter().enumerate() {
        put_record(out, RECORD_SIZE * k, record);
    }
}
