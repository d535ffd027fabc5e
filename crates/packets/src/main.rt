// Answers every line of its input as the Rust source does: `packet N` and thirteen numbers with the
// packet's text, and `text T` with the packet that T is the text of. The first 50 lines are the first
// example of rule 15.4, packets of the printed run and of the worked example of docs/RULES.md, the longest text,
// texts of no packet, and packets at the edges of the rule or with numbers that are unreadable; the other 360 were made by
// `oracle/`'s `inputs packets`. `stdout` is what its program `answer` prints for `stdin`.
#![tactic(auto)]

ghost use Rattle.std.specs.Prelude.{◌≡◌, IfSome, length};
ghost use Rattle.marshal.specs.Packets.{packet_size};

use config::refusal::Refusal;
use line::read::{field, field_start};
use marshal::packets::{PACKET_SIZE, put_numbers};
use marshal::texts::put_text;
use std::io;
use streams::answer_lines;
use streams::unfailing::Unfailing;
use text::numeral::decimal;
use wire::put::TEXT_SIZE;
use wire_reader::read_packet;

const INPUT_SIZE: usize = 131072;

// The length of a line's first word, if it is `packet`.
const PACKET_WORD: usize = 6;

// A packet's numbers behind the line's first two fields, if all are readable.
fn numbers(line: &[u8]) -> Option<[u64; PACKET_SIZE]>
    ensures { IfSome result (λ packet. length packet ≡ packet_size) }
{
    let mut packet = [0u64; PACKET_SIZE];
    for (i, place) in packet.iter_mut().enumerate() {
        *place = decimal(field(line, i + 2))?;
    }
    Some(packet)
}

// Prints the text of the packet that a line's numbers are.
fn print_text(rt: &impl Print, line: &[u8]) -> io::Result<()> {
    let (Some(flags), Some(packet)) = (decimal(field(line, 1)), numbers(line)) else {
        return println!(rt; "{}", Refusal::UnreadableLine);
    };
    let mut text = [0u8; TEXT_SIZE];
    match put_text(&packet, flags, &mut text) {
        Ok(size) => {
            rt.write_all(&text[..size.min(TEXT_SIZE)])?;
            println!(rt; "")
        }
        Err(refusal) => println!(rt; "{refusal}"),
    }
}

// Prints the packet of a text.
fn print_packet(rt: &impl Print, text: &[u8]) -> io::Result<()> {
    match read_packet(text) {
        Ok((packet, flags)) => {
            let mut numbers = [0u64; PACKET_SIZE];
            put_numbers(packet, &mut numbers);
            print!(rt; "packet {flags}")?;
            for n in &numbers {
                print!(rt; " {n}")?;
            }
            println!(rt; "")
        }
        Err(refusal) => println!(rt; "{refusal}"),
    }
}

fn answer(rt: &impl Print, line: &[u8]) -> io::Result<()> {
    match field(line, 0).len() {
        PACKET_WORD => print_text(rt, line),
        _ => {
            let at = field_start(line, 1);
            print_packet(rt, &line[at..])
        }
    }
}

// A write that fails ends nothing, and nobody is told: what is printed is compared.
fn main(rt: HostRuntime) {
    let to = Unfailing(&rt);
    let _ = answer_lines(&rt, &mut [0u8; INPUT_SIZE], |line| answer(&to, line));
}
