// How many calls of each kind agreed, of how many, and their lines.
use crate::call::{CALLS, Call};
use answers::Replayed;
use std::io;

// For each call how many agreed, of how many, in the order of their numbers; of `fresh`, how many plans are laid.
#[derive(Drop)]
pub struct Tally {
    calls: [Replayed; 13],
}

impl Tally {
    // Nothing counted yet.
    pub fn new() -> Tally {
        Tally {
            calls: [Replayed { agreed: 0, all: 0 }; 13],
        }
    }

    // One call more.
    pub fn count(&mut self, call: Call, agrees: bool) {
        let i = call as usize;
        self.calls[i] = self.calls[i].count(agrees);
    }

    // A line for each call.
    pub fn print(&self, rt: &HostRuntime) -> io::Result<()> {
        for (call, replayed) in CALLS.iter().zip(self.calls.iter()) {
            println!(rt; "{call}: {} of {} agree", replayed.agreed, replayed.all)?;
        }
        Ok(())
    }
}
