// What is carried from frame to frame: a decoder's state, of whose sound the history and the coefficients are used, and beside it the queues with their
// detectors.
use queue_decorr::QueueDecorr;

// The history and the coefficients in a decoder's memory.
pub const HISTORY: usize = ps_memory::SOUND;

pub const HISTORY_END: usize = ps_memory::SOUND + ps_state::DELAYS;

pub const MATRICES: usize = ps_memory::SOUND + ps_state::MATRICES;

#[derive(Drop)]
pub struct Carried {
    pub memory: [f64; ps_memory::NUMBERS],
    pub queues: QueueDecorr,
}

// Before any start.
pub fn none() -> Carried {
    Carried {
        memory: [0.0; ps_memory::NUMBERS],
        queues: queue_decorr::fresh(),
    }
}

impl Carried {
    // A fresh state.
    pub fn start(&mut self, asked: usize) {
        ps_memory::start(asked, &mut self.memory);
        self.queues = queue_decorr::fresh();
    }
}
