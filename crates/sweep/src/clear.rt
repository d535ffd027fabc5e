// The tables of a run cleared for the next one: what that looks at before it writes.
ghost use Rattle.std.specs.Prelude.{◌≤◌, ◌≡◌, length};
ghost use Rattle.protocol.specs.View.{NoTerm};
ghost use Rattle.pipeline.specs.View.{Started, NoTerms};

use config::limits::MAX_TERMS;
use network::units::Slot;
use pipeline::records::History;
use protocol::state::PaxosState;

// The node has no term any more. Its other fields are then not looked at.
fn clear_state(state: &mut PaxosState)
    ensures { NoTerm state.new }
{
    state.pending = 0;
    state.logged = 0;
    state.last_accepted = None;
}

// The first n nodes have no term any more. Of the whole table, and not of the slice to n, so that its promise is about the table
// that the caller plays on: from a part's it would have to be put together again.
pub fn clear_states(states: &mut [PaxosState], n: usize)
    requires { n ≤ length states.old }
    ensures { (length states.new ≡ length states.old) × NoTerms n states.new }
{
    for state in &mut states[..n] {
        clear_state(state);
    }
}

// No term has a start any more.
pub fn clear_starts(history: &mut History)
    ensures { Started 0 history.new }
{
    history.starts = [Slot(0); MAX_TERMS];
}
