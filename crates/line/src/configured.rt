// The configuration that a line asks for.
ghost use Rattle.std.specs.Prelude.{◌≡◌};
ghost use Rattle.line.specs.Configured.{config_of};

use super::read::Line;
use config::Config;
use config::rate::rate_of;

// The line's fields behind the topology and its two numbers.
impl From<Line> for Config {
    ghost from_gives = { λ line config. config ≡ config_of line };

    fn from(line: Line) -> Config {
        Config {
            flood_repeats: line.repeats,
            round_slots: line.round_slots,
            loss_rate: rate_of(line.loss),
            seed: line.seed,
            num_proposals: line.proposals,
            snapshot_interval: line.interval,
            max_slots: line.limit,
        }
    }
}
