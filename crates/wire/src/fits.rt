// Which packets have a text.
ghost use Rattle.std.specs.Prelude.{◌≡◌};
ghost use Rattle.wire.specs.Grammar.{last_accepted_fits, nack_fits, data_fits, piggyback_fits, flags_fit, terms_fit, has_text};

use config::limits::{MAX_NODES, MAX_TERMS, MIN_NODES};
use network::graph::full_set;
use network::questions::lies_in;
use network::units::Term;
use phy::packet::{Packet, Piggyback};

fn last_accepted_fits(last: Option<Term>) -> bool
    ensures { result ≡ last_accepted_fits last }
{
    last.is_none_or(|t| t.0 < MAX_TERMS as u64)
}

// A NACK of term 0 has no text: 0 stands for none.
fn nack_fits(nack: Option<Term>) -> bool
    ensures { result ≡ nack_fits nack }
{
    nack.is_none_or(|t| 1 <= t.0 && t.0 < MAX_TERMS as u64)
}

// Whether data is empty or that of the term.
fn data_fits(term: Term, data: Option<Term>) -> bool
    ensures { result ≡ data_fits term «data» }
{
    data.is_none_or(|t| t.0 == term.0)
}

fn piggyback_fits(piggyback: Option<Piggyback>) -> bool
    ensures { result ≡ piggyback_fits piggyback }
{
    piggyback.is_none_or(|again| {
        again.term.0 < MAX_TERMS as u64 && data_fits(again.term, again.data)
    })
}

// Whether there are 2 to 32 flags, no node behind them is in the set, and the sender is below their number.
fn flags_fit(packet: Packet, flags: u64) -> bool
    ensures { result ≡ flags_fit flags packet }
{
    lies_in(MIN_NODES, MAX_NODES as u64, flags)
        && packet.flags_bitmap <= full_set(flags as usize)
        && (packet.sender.0 as u64) < flags
}

// Whether the terms are below 64, and the data is that of its term.
fn terms_fit(packet: Packet) -> bool
    ensures { result ≡ terms_fit packet }
{
    packet.current_term.0 < MAX_TERMS as u64
        && last_accepted_fits(packet.last_accepted_term)
        && nack_fits(packet.nack_term)
        && data_fits(packet.current_term, packet.proposal_data)
        && piggyback_fits(packet.piggyback)
}

#[tactic(auto, unfolding(crate::specs::Grammar::has_text))]
pub fn has_text(packet: Packet, flags: u64) -> bool
    ensures { result ≡ has_text flags packet }
{
    flags_fit(packet, flags) && terms_fit(packet)
}
