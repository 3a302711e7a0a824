//! How the program is called.

/// The commands with their options, a line each without its end.
pub const USAGE: [&str; 4] = [
    "mud replay [--swap-time N] [--report] < SCRIPT     N: seconds, up to 1000000000; 0 is never",
    "mud check [--simul PATH] < SCRIPT                  PATH: the file of the simul efuns",
    "mud make N SEED                                    N: events, 1 to 200000; SEED: below 2^64",
    "mud serve --lib DIR --port P --control P [--ws P] [--swap-time N] [--seed N] [--record FILE] [--turns N]",
];
