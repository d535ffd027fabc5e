// Prints the validity of a configuration: `current`, `outdated` or the refusal.
use config::Config;
use rules::networks::Asked;
use std::io;
use validity::{Validity, validity_of};

pub fn show_validity(rt: &impl Print, asked: Asked, config: Config) -> io::Result<()> {
    match validity_of(asked, config) {
        Ok(Validity::Current) => println!(rt; "current"),
        Ok(Validity::Outdated) => println!(rt; "outdated"),
        Err(refusal) => println!(rt; "{refusal}"),
    }
}
