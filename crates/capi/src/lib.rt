// The entries for programs in C. Each takes numbers and slices alone, where a slice is a pointer and a length in C, and
// returns 0 or the number of the refusal, which leaves every slice as it was. `include/ctsim.h` declares them.
// Their long parameter lists, and an entry each for rows and for a topology, are the C interface.
#![tactic(auto)]

pub mod files;
pub mod sweeps;
pub mod validities;

ghost use Rattle.std.specs.Prelude.{ℕ, ◌≡◌, List, Float, length};
ghost use Rattle.preview.specs.Preview.{preview_for};
ghost use Rattle.rules.specs.Networks.{of_rows, of_topology};
ghost use Rattle.random.specs.Draws.{draw};
ghost use Rattle.random.specs.Table.{tabulate};
ghost use Rattle.capi.specs.Capi.{returned_rows, returned_diameter, returned_ratio, link_pdr, flood_coverage, returned_of, returned, returned_run_of_topology, returned_run_of_rows, returned_preview, returned_text, returned_packet};
ghost use Rattle.marshal.specs.Convert.{config_from};
ghost use Rattle.wire_reader.specs.Reading.{reading};

use marshal::convert::{SUMMARY_SIZE, config_from, read_summary, write_answer, write_ratio};
use marshal::numbers::write_count;
use marshal::packets::PACKET_SIZE;
use marshal::previews::write_preview;
use marshal::texts::{write_reading, write_text};
use metrics::ratio::ratio;
use metrics::ratios::{flood_coverage, link_pdr};
use network::distance::measure;
use network::topology::rows;
use preview::preview_round;
use random::draws::draws;
use rules::networks::Asked;
use sim::entries::run;
use wire_reader::read_packet;

// What only these entries return: the slice of a summary, of a packet or of a single result is too short.
pub const SHORT: u64 = 100;

// Fills a slice with the draws of a seed, from draw 0 on. Never refused.
#[unsafe(no_mangle)]
pub extern "C" fn ctsim_draws(seed: u64, out: &mut [u64]) -> u64
    ensures { ◌≡◌ {A = ℕ × List ℕ} (result, out.new) (0, tabulate (length out.old) (draw seed)) }
{
    draws(seed, out);
    0
}

// The rows of a topology into the first places of `out`, and the number of nodes into the first of `nodes`.
#[tactic(auto, unfolding(crate::specs::Capi::returned_rows))]
#[unsafe(no_mangle)]
pub extern "C" fn ctsim_rows(
    topology: u64,
    first: u64,
    second: u64,
    out: &mut [u32],
    nodes: &mut [u64],
) -> u64
    ensures { ◌≡◌ {A = ℕ × List ℕ × List ℕ} (result, out.new, nodes.new)
        (returned_rows topology first second out.old nodes.old) }
{
    if nodes.is_empty() {
        return SHORT;
    }
    write_count(rows(topology, first, second, out), nodes)
}

// The diameter of n nodes with these rows into the first place of `links`.
#[tactic(auto, unfolding(crate::specs::Capi::returned_diameter))]
#[unsafe(no_mangle)]
pub extern "C" fn ctsim_diameter(rows: &[u32], n: u64, links: &mut [u64]) -> u64
    ensures { ◌≡◌ {A = ℕ × List ℕ} (result, links.new) (returned_diameter rows.now n links.old) }
{
    if links.is_empty() {
        return SHORT;
    }
    write_count(measure(rows, n), links)
}

// The ratio of two counts into the first place of `out`.
#[tactic(auto, unfolding(crate::specs::Capi::returned_ratio))]
#[unsafe(no_mangle)]
pub extern "C" fn ctsim_ratio(part: u64, whole: u64, out: &mut [f64]) -> u64
    ensures { ◌≡◌ {A = ℕ × List Float} (result, out.new) (returned_ratio part whole out.old) }
{
    if out.is_empty() {
        return SHORT;
    }
    write_ratio(ratio(part, whole), out)
}

// The link ratio of a run with this summary into the first place of `out`: successes over attempts.
#[tactic(auto, unfolding(crate::specs::Capi::returned_of))]
#[unsafe(no_mangle)]
pub extern "C" fn ctsim_link_pdr(summary: &[u64], out: &mut [f64]) -> u64
    ensures { ◌≡◌ {A = ℕ × List Float} (result, out.new) (returned_of link_pdr summary.now out.old) }
{
    if summary.len() < SUMMARY_SIZE || out.is_empty() {
        return SHORT;
    }
    write_ratio(link_pdr(read_summary(summary)), out)
}

// The coverage ratio of a run with this summary, into the first place of `out`: covered nodes over
// flooded nodes.
#[tactic(auto, unfolding(crate::specs::Capi::returned_of))]
#[unsafe(no_mangle)]
pub extern "C" fn ctsim_flood_coverage(summary: &[u64], out: &mut [f64]) -> u64
    ensures { ◌≡◌ {A = ℕ × List Float} (result, out.new) (returned_of flood_coverage summary.now out.old) }
{
    if summary.len() < SUMMARY_SIZE || out.is_empty() {
        return SHORT;
    }
    write_ratio(flood_coverage(read_summary(summary)), out)
}

// A run of the topology with that number. `round_slots_given` says whether there are round slots: 0 no, any other yes.
#[tactic(auto, unfolding(crate::specs::Capi::returned_run))]
#[unsafe(no_mangle)]
pub extern "C" fn ctsim_run_topology(
    topology: u64,
    first: u64,
    second: u64,
    repeats: u64,
    round_slots_given: u64,
    round_slots: u64,
    loss: f64,
    seed: u64,
    proposals: u64,
    interval: u64,
    limit: u64,
    summary: &mut [u64],
    logs: &mut [u8],
    records: &mut [u64],
    snapshots: &mut [u64],
) -> u64
    ensures { returned result summary.new logs.new records.new snapshots.new
        ≡ returned_run_of_topology topology first second (config_from repeats round_slots_given round_slots loss seed proposals interval limit)
        summary.old logs.old records.old snapshots.old }
{
    if summary.len() < SUMMARY_SIZE {
        return SHORT;
    }
    let config = config_from(
        repeats,
        round_slots_given,
        round_slots,
        loss,
        seed,
        proposals,
        interval,
        limit,
    );
    let asked = Asked::Topology(topology, first, second);
    let answer = run(asked, config, logs, records, snapshots);
    write_answer(answer, summary)
}

// A run of n nodes with these rows.
#[tactic(auto, unfolding(crate::specs::Capi::returned_run))]
#[unsafe(no_mangle)]
pub extern "C" fn ctsim_run_rows(
    rows: &[u32],
    n: u64,
    repeats: u64,
    round_slots_given: u64,
    round_slots: u64,
    loss: f64,
    seed: u64,
    proposals: u64,
    interval: u64,
    limit: u64,
    summary: &mut [u64],
    logs: &mut [u8],
    records: &mut [u64],
    snapshots: &mut [u64],
) -> u64
    ensures { returned result summary.new logs.new records.new snapshots.new
        ≡ returned_run_of_rows rows.now n (config_from repeats round_slots_given round_slots loss seed proposals interval limit)
        summary.old logs.old records.old snapshots.old }
{
    if summary.len() < SUMMARY_SIZE {
        return SHORT;
    }
    let config = config_from(
        repeats,
        round_slots_given,
        round_slots,
        loss,
        seed,
        proposals,
        interval,
        limit,
    );
    let answer = run(Asked::Rows(rows, n), config, logs, records, snapshots);
    write_answer(answer, summary)
}

// A look ahead to one round of a run of the topology with that number.
#[tactic(auto, unfolding(crate::specs::Capi::if_room))]
#[unsafe(no_mangle)]
pub extern "C" fn ctsim_preview_topology(
    topology: u64,
    first: u64,
    second: u64,
    repeats: u64,
    round_slots_given: u64,
    round_slots: u64,
    loss: f64,
    seed: u64,
    proposals: u64,
    interval: u64,
    limit: u64,
    round: u64,
    packet: &mut [u64],
    part: &mut [u64],
) -> u64
    ensures { ◌≡◌ {A = ℕ × List ℕ × List ℕ} (result, packet.new, part.new)
        (returned_preview
        (preview_for (of_topology topology first second) (config_from repeats round_slots_given round_slots loss seed proposals interval limit) round)
        packet.old part.old) }
{
    if packet.len() < PACKET_SIZE || part.is_empty() {
        return SHORT;
    }
    let config = config_from(
        repeats,
        round_slots_given,
        round_slots,
        loss,
        seed,
        proposals,
        interval,
        limit,
    );
    let answer = preview_round(Asked::Topology(topology, first, second), config, round);
    write_preview(answer, packet, part)
}

// A look ahead to one round of a run of n nodes with these rows.
#[tactic(auto, unfolding(crate::specs::Capi::if_room))]
#[unsafe(no_mangle)]
pub extern "C" fn ctsim_preview_rows(
    rows: &[u32],
    n: u64,
    repeats: u64,
    round_slots_given: u64,
    round_slots: u64,
    loss: f64,
    seed: u64,
    proposals: u64,
    interval: u64,
    limit: u64,
    round: u64,
    packet: &mut [u64],
    part: &mut [u64],
) -> u64
    ensures { ◌≡◌ {A = ℕ × List ℕ × List ℕ} (result, packet.new, part.new)
        (returned_preview
        (preview_for (of_rows rows.now n) (config_from repeats round_slots_given round_slots loss seed proposals interval limit) round)
        packet.old part.old) }
{
    if packet.len() < PACKET_SIZE || part.is_empty() {
        return SHORT;
    }
    let config = config_from(
        repeats,
        round_slots_given,
        round_slots,
        loss,
        seed,
        proposals,
        interval,
        limit,
    );
    let answer = preview_round(Asked::Rows(rows, n), config, round);
    write_preview(answer, packet, part)
}

// The text of the packet that these numbers are, with so many flags, into the first bytes of `text`, and its length into the
// first place of `written`.
#[tactic(auto, unfolding(crate::specs::Capi::if_room))]
#[unsafe(no_mangle)]
pub extern "C" fn ctsim_write_packet(
    packet: &[u64],
    flags: u64,
    text: &mut [u8],
    written: &mut [u64],
) -> u64
    ensures { ◌≡◌ {A = ℕ × List ℕ × List ℕ} (result, text.new, written.new)
        (returned_text packet.now flags text.old written.old) }
{
    if packet.len() < PACKET_SIZE || written.is_empty() {
        return SHORT;
    }
    write_text(packet, flags, text, written)
}

// The packet that a text is of, and its number of flags into the first place of `flags`.
#[tactic(auto, unfolding(crate::specs::Capi::if_room))]
#[unsafe(no_mangle)]
pub extern "C" fn ctsim_read_packet(text: &[u8], packet: &mut [u64], flags: &mut [u64]) -> u64
    ensures { ◌≡◌ {A = ℕ × List ℕ × List ℕ} (result, packet.new, flags.new)
        (returned_packet (reading text.now) packet.old flags.old) }
{
    if packet.len() < PACKET_SIZE || flags.is_empty() {
        return SHORT;
    }
    write_reading(read_packet(text), packet, flags)
}
