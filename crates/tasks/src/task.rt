// Tasks: trains, paths, and the pairs of trains that may not share a path.
ghost use Rattle.std.specs.Prelude.{◌≡◌, ◌≤◌, true, map, vec_len};
ghost use Rattle.tasks.specs.Pair.{pair_of};
ghost use Rattle.tasks.specs.Task.{rising, lowest};

use super::pair::Pair;

pub const MOST_TRAINS: u16 = 1024;

pub const MOST_PATHS: u8 = 64;

// The ghost fields are what each task guarantees: its numbers are in their ranges, and its pairs stand in strictly rising order, the lower train
// first, and name trains that are there.
#[derive(Drop)]
pub struct Task {
    pub trains: u16,
    pub paths: u8,
    pub pairs: Vec<Pair>,
    ghost some_train: { 1 ≤ trains },
    ghost few_trains: { trains ≤ 1024 },
    ghost some_path: { 1 ≤ paths },
    ghost few_paths: { paths ≤ 64 },
    ghost some_pair: { 1 ≤ vec_len pairs },
    ghost few_pairs: { vec_len pairs ≤ 4096 },
    ghost rising_pairs: { rising trains lowest (map pair_of pairs.items) ≡ true },
}
