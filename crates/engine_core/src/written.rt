//! What a write gives.
use engine_state::Reply;
use write_plans::Undo;

/// The reply to a write, and what takes it back.
#[derive(Drop)]
pub struct Written {
    pub reply: Reply,
    pub undo: Undo,
}
