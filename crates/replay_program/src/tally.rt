// How many inputs agree, of how many, and how many end in each refusal.
ghost use Rattle.std.specs.Prelude.{◌<◌};

use answers::Replayed;
use std::io;

// The inputs, and how many of them end in each refusal's number, 0 for none.
#[derive(Drop)]
pub struct Tally {
    inputs: Replayed,
    endings: [u64; 13],
}

impl Tally {
    // Nothing counted yet.
    pub fn new() -> Tally {
        Tally {
            inputs: Replayed { agreed: 0, all: 0 },
            endings: [0; 13],
        }
    }

    // One input more, which ends in this number.
    pub fn count(&mut self, number: usize, agrees: bool)
        requires { number < 13 }
    {
        self.inputs = self.inputs.count(agrees);
        self.endings[number] = self.endings[number].wrapping_add(1);
    }

    // A line for all, and one for each number in which any ends.
    pub fn print(&self, rt: &HostRuntime) -> io::Result<()> {
        println!(rt;
            "inputs: {} of {} agree",
            self.inputs.agreed, self.inputs.all
        )?;
        for (number, many) in self.endings.iter().enumerate() {
            if 0 < *many {
                println!(rt; "ends in {number}: {many}")?;
            }
        }
        Ok(())
    }
}
