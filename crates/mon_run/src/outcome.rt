// What a run came to.
use know::Ended;
use run_traces::LineTraces;

/// What a run came to: its exit status, what the script's caller had seen at the end, where a store was made, and what
/// the lines that ran came to.
#[derive(Drop)]
pub struct Outcome {
    pub status: u8,
    pub ended: Option<Ended>,
    pub lines: LineTraces,
}
