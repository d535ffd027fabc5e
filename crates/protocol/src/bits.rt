// Sets as words: bit i says whether i is in the set.
ghost use Rattle.std.specs.Prelude.{◌≡◌, ℕ, leb};
ghost use Rattle.config.specs.Limits.{max_terms};
ghost use Rattle.network.specs.Graph.{set_of};
ghost use Rattle.protocol.specs.Paxos.{union};

use config::limits::MAX_TERMS;
use network::graph::full_set;
use network::units::Term;

// The union of two sets: `|`, under the name of the definition's `union`, which speaks of members.
#[tactic(auto, using(crate::proofs::Sets::union_or))]
pub fn union_of(a: u64, b: u64) -> u64
    ensures { result ≡ union a b }
{
    a | b
}

// The set of the terms up to one.
pub fn up_to(last: Term) -> u64
    ensures { result ≡ set_of max_terms (λ (t : ℕ). leb t last.0) }
{
    let u = last.0 as usize;
    if MAX_TERMS <= u {
        return full_set(MAX_TERMS);
    }
    full_set(u + 1)
}
