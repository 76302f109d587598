// What a seat knows of its board. These are values of proofs: none is ever made. A list in one is written as an array of length 0,
// which a contract reads as a list of any length.

/// What a seat is: the first one, another one that was split off it, or one that was joined to it.
pub enum Role {
    First,
    Other,
    Spent,
}

/// What is in a slot: no piece, or a piece. It is out where a seat is about to change it.
pub enum SlotState {
    Empty,
    Out,
    Full,
}

/// What is known of a core: its slot, the piece in it, and its turn word. In an open round this is how they were when the round began.
pub struct CoreState {
    /// What is in its slot.
    pub slot: SlotState,
    /// How many turns the piece took.
    pub turns: u64,
    /// The stem of the piece.
    pub stem: [[u64; 0]; 0],
    /// Whether it is known that the piece is settled.
    pub settled: bool,
    /// How often pieces of this core were put back, which its turn word counts.
    pub puts_before: u64,
}

/// What all seats know of the round.
pub struct Round {
    /// Whether a round is open.
    pub running: bool,
    /// What the draw word was when the round began.
    pub base: u64,
    /// How many rounds were opened.
    pub rounds: u64,
    /// What is known of each core.
    pub cores: [CoreState; 0],
}

/// What a seat knows.
pub struct View {
    /// Which kind of seat it is.
    pub role: Role,
    /// The round, as all seats know it.
    pub round: Round,
    /// The core that it claims, if it claims one.
    pub claim: [u64; 0],
    /// The cores that it put back in the open round.
    pub done: [u64; 0],
    /// Whether it drew a number past the last core in the open round, and so saw None.
    pub saw_none: bool,
    /// How often it, and the seats that were joined to it, did so in the open round.
    pub empty_draws: u64,
    /// How many seats may still be split off it in the open round.
    pub seats_left: u64,
    /// How many seats were split off it and not yet joined to it.
    pub seats_out: u64,
}
