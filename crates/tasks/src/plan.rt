// Plans: a path for each train.
ghost use Rattle.std.specs.Prelude.{◌≤◌, vec_len};

// Whether a plan is for some task, and fits it, is looked at where it is read and by `first_unfit`.
#[derive(Drop)]
pub struct Plan {
    pub paths: Vec<u8>,
    ghost some_train: { 1 ≤ vec_len paths },
    ghost few_trains: { vec_len paths ≤ 1024 },
}
