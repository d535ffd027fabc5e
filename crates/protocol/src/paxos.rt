// What is done with a node's Paxos state, after ctsim's protocol/paxos.rs.
ghost use Rattle.std.specs.Prelude.{◌≡◌, false, not, ◌&&◌, ◌||◌, ◌+◌, ◌≤◌, ◌<◌, eqb, leb, ltb, Some};
ghost use Rattle.std.specs.Int.Bits.{bit_or};
ghost use Rattle.config.specs.Limits.{set_bits, max_terms};
ghost use Rattle.network.specs.Graph.{has, all};
ghost use Rattle.protocol.specs.Paxos.{size, majority, held, hold, hold_new, merge_votes_up_to, greatest_quorum, raise, after_last, commit_term, detect_gap, recovery};
ghost use Rattle.protocol.specs.Turns.{votes_of};
ghost use Rattle.protocol.specs.View.{view, Kept, MayHold, Step, Commits, last_below, term_below, votes_at};

use crate::bits::{union_of, up_to};
use crate::state::PaxosState;
use config::limits::MAX_TERMS;
use network::graph::has;
use network::members::members_of;
use network::units::{NodeId, Term};
use phy::packet::Piggyback;

// Whether so many votes are a majority of n nodes.
fn is_majority(votes: u64, n: usize) -> bool
    ensures { result ≡ leb (majority n) (size votes) }
{
    let k = votes.count_ones() as usize;
    n / 2 + 1 <= k
}

// Whether a term with these votes is pending and has a quorum. The node's own vote alone is no quorum, and
// is passed over before anything else is looked at.
fn is_quorum(votes: u64, own: u64, pending: u64, t: usize, n: usize) -> bool
    requires { (t < max_terms) × (leb (majority n) (size own) ≡ false) }
    ensures { result ≡ (has pending t && leb (majority n) (size votes)) }
{
    votes != own && has(pending, t) && is_majority(votes, n)
}

// Last accepted, risen to a term.
fn raised(last: Option<Term>, term: Term) -> Option<Term>
    ensures { result ≡ raise term.0 last }
{
    Some(Term(last.map_or(term.0, |u| u.0.max(term.0))))
}

impl PaxosState {
    // The set of the terms that are pending or logged.
    fn held_set(&self) -> u64
        ensures { result ≡ bit_or self.now.pending self.now.logged }
    {
        self.pending | self.logged
    }

    // Whether a term is pending or logged.
    fn is_held(&self, term: Term) -> bool
        requires { Kept max_terms self.now × (term.0 < max_terms) }
        ensures { result ≡ held term.0 (view self.now) }
    {
        has(self.held_set(), term.0 as usize)
    }

    // One more than the last accepted term, 0 for none.
    fn after_last(&self) -> u64
        requires { Kept max_terms self.now }
        ensures { result ≡ after_last self.now.last_accepted }
    {
        self.last_accepted.map_or(0, |u| u.0 + 1)
    }

    // Merges votes into all pending terms up to the given one. Votes of a term that is not pending count
    // for nothing, so those between the lowest and the highest are written too, in a plain loop.
    pub fn merge_votes_up_to(&mut self, up_to_term: Term, bitmap: u64)
        requires { Kept max_terms self.old }
        ensures { Step (λ c. Unit {0}) (merge_votes_up_to up_to_term.0 bitmap) self.old self.new }
    {
        let reach = up_to(up_to_term);
        let rest = self.pending & reach;
        if rest == 0 {
            return;
        }
        let first = rest.trailing_zeros() as usize;
        let end = MAX_TERMS - rest.leading_zeros() as usize;
        for votes in &mut self.votes[first..end] {
            *votes = union_of(*votes, bitmap);
        }
    }

    // Whether a term from one on and below another has other votes than the node's own, in a loop without a
    // branch.
    fn others_voted(&self, own: u64, first: usize, end: usize) -> bool
        requires { (first ≤ «end») × («end» ≤ max_terms) }
        ensures { result ≡ not (all «end» (λ t. ltb t first || eqb (votes_at self.now t) own)) }
    {
        let mut other = 0u64;
        for &votes in &self.votes[first..end] {
            other |= votes ^ own;
        }
        other != 0
    }

    // The greatest pending term that has a quorum, or none, of a node among two or more: from the highest
    // pending term down to the lowest, in a plain loop. The node's own votes alone are no quorum.
    pub fn greatest_quorum(&self, node: NodeId, n: usize) -> Option<Term>
        requires { Kept max_terms self.now × (node.0 < set_bits) × (2 ≤ n) }
        ensures { result ≡ greatest_quorum max_terms n (view self.now) }
    {
        let pending = self.pending;
        if pending == 0 {
            return None;
        }
        let own = 1u64 << node.0;
        let first = pending.trailing_zeros() as usize;
        let end = MAX_TERMS - pending.leading_zeros() as usize;
        if !self.others_voted(own, first, end) {
            return None;
        }
        // By the term's number, which the pending set is asked for.
        for t in (first..end).rev() {
            if is_quorum(self.votes[t], own, pending, t, n) {
                return Some(Term(t as u64));
            }
        }
        None
    }

    // Commits a term that is not logged: it moves from pending to the log if it is pending, and last accepted
    // rises to it either way.
    fn commit_term(&mut self, term: Term)
        requires { Kept max_terms self.old × (term.0 < max_terms) × (has self.old.logged term.0 ≡ false) }
        ensures { Step (λ c. term.0 < c) (commit_term term.0) self.old self.new }
    {
        let t = term.0;
        self.last_accepted = raised(self.last_accepted, term);
        if has(self.pending, t as usize) {
            let end = self.logged.count_ones() as usize;
            self.log[end] = term;
            self.pending -= 1u64 << t;
            self.logged |= 1u64 << t;
        }
    }

    // Commits all terms up to and including `last`; answers the set of those newly committed.
    pub fn commit_up_to(&mut self, last: Term) -> u64
        requires { Kept max_terms self.old × (last.0 < max_terms) }
        ensures { Commits (Some last) self.old self.new result }
    {
        let reach = up_to(last);
        let newly = reach - (reach & self.logged);
        for t in members_of(newly) {
            self.commit_term(Term(t as u64));
        }
        newly
    }

    // Commits up to a term, or nothing.
    pub fn commit_to(&mut self, last: Option<Term>) -> u64
        requires { Kept max_terms self.old × last_below max_terms last }
        ensures { Commits last self.old self.new result }
    {
        match last {
            None => 0,
            Some(u) => self.commit_up_to(u),
        }
    }

    // The first term after last accepted and below `up_to_term` that is neither logged nor pending.
    pub fn detect_gap(&self, up_to_term: Term) -> Option<Term>
        requires { Kept max_terms self.now × (up_to_term.0 ≤ max_terms) }
        ensures { result ≡ detect_gap up_to_term.0 (view self.now) }
    {
        let end = up_to_term.0;
        let last = self.after_last();
        if end <= last {
            return None;
        }
        let free = !self.held_set() >> last;
        let t = last + free.trailing_zeros() as u64;
        if end <= t {
            return None;
        }
        Some(Term(t))
    }

    // A term that is neither logged nor pending becomes pending.
    pub fn hold(&mut self, term: Term, votes: u64, d: Option<Term>)
        requires { MayHold self.old term.0 d }
        ensures { Step (λ c. term.0 < c) (hold term.0 votes d) self.old self.new }
    {
        let t = term.0 as usize;
        self.votes[t] = votes;
        self.data[t] = d;
        self.pending |= 1u64 << t;
    }

    // A term becomes pending, with these votes and data, unless it is logged or pending already.
    pub fn hold_new(&mut self, term: Term, votes: u64, d: Option<Term>)
        requires { Kept max_terms self.old × term_below max_terms term.0 d }
        ensures { Step (λ c. term.0 < c) (hold_new term.0 votes d) self.old self.new }
    {
        if self.is_held(term) {
            return;
        }
        self.hold(term, votes, d);
    }

    // The votes for a pending term, and no vote for any other.
    pub fn votes_of(&self, term: Term) -> u64
        requires { Kept max_terms self.now }
        ensures { result ≡ votes_of ((view self.now).pending term.0) }
    {
        let t = term.0 as usize;
        if MAX_TERMS <= t || !has(self.pending, t) {
            return 0;
        }
        self.votes[t]
    }

    // What the node can send to one that misses a term: the term and its data, if it holds it.
    pub fn recover(&self, nack: Option<Term>) -> Option<Piggyback>
        requires { Kept max_terms self.now }
        ensures { result ≡ recovery nack (view self.now) }
    {
        let term = nack?;
        let t = term.0 as usize;
        if MAX_TERMS <= t {
            return None;
        }
        if !self.is_held(term) {
            return None;
        }
        let data = self.data[t];
        Some(Piggyback { term, data })
    }
}
