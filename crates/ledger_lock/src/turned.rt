use command_words::Refusal;

// What a turn of a crossing came to: an act, nothing since nothing was proposed, or the refusal that ends the crossing.
#[derive(Drop)]
pub(crate) enum Turned {
    Acted,
    Over,
    Stopped(Refusal),
}
