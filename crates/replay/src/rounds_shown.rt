// Prints one round: its packet's numbers and the set of the nodes that take part, or the refusal.
use config::Config;
use marshal::packets::{PACKET_SIZE, put_numbers};
use preview::preview_round;
use rules::answer::SeenRound;
use rules::networks::Asked;
use std::io;

fn print_round(rt: &impl Print, seen: SeenRound) -> io::Result<()> {
    let mut packet = [0u64; PACKET_SIZE];
    put_numbers(seen.packet, &mut packet);
    print!(rt; "packet")?;
    for n in &packet {
        print!(rt; " {n}")?;
    }
    println!(rt; " part {}", seen.part)
}

pub fn show_round(rt: &impl Print, asked: Asked, config: Config, k: u64) -> io::Result<()> {
    match preview_round(asked, config, k) {
        Ok(seen) => print_round(rt, seen),
        Err(refusal) => println!(rt; "{refusal}"),
    }
}
