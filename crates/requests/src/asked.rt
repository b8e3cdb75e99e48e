// What a line may ask. Channels, levels and desk numbers are whatever number stood there: others judge them by value.

// What the operator of a desk does to the lights.
#[derive(Drop)]
pub enum Action {
    Set { channel: u64, level: u64 },
    Move { channel: u64, step: i32 },
    Scene { channel: u64, levels: Vec<u64> },
}

// What one desk is asked.
#[derive(Drop)]
pub enum DeskRequest {
    Call(Action),
    // the level of a channel
    Book(u64),
    Done,
}

// What a line of a show asks.
#[derive(Drop)]
pub enum Request {
    // no words
    Blank,
    Desks(Vec<u64>),
    Circle(Vec<u64>),
    OfDesk(u64, DeskRequest),
    Settle,
    Show,
    Digest(Vec<u8>),
}
