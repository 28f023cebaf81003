//! Files by their names, of which one may be begun: what the inputs in memory share.

ghost use Rattle.std.specs.Prelude.{◌<◌, length};
ghost use Rattle.std.specs.Option.{ForSome};

mod reads;

#[derive(Drop)]
pub struct File {
    name: Vec<u8>,
    bytes: Vec<u8>,
}

/// Files, of which one may be begun. What is left of it starts at `at`.
#[derive(Drop)]
pub struct Files {
    list: Vec<File>,
    begun: Option<usize>,
    at: usize,
    ghost there: { ForSome begun (λ place. place < length list.items) },
}
