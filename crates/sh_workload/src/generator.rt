//! The numbers that requests are drawn from.
ghost use Rattle.std.specs.Prelude.{◌≡◌};
ghost use Rattle.sh_workload.specs.Generator.{first_state, stepped, drawn};

/// What a state is multiplied by, and what is added to it.
const FACTOR: u64 = 6_364_136_223_846_793_005;

const TERM: u64 = 1_442_695_040_888_963_407;

/// A linear congruential generator of 64 bits.
#[derive(Clone, Copy, Debug)]
pub struct Generator {
    pub state: u64,
}

impl Generator {
    /// The generator of a driver of a run that begins at `start`.
    pub fn new(start: u64, driver: u32) -> Generator
        ensures { result.state ≡ first_state start driver }
    {
        Generator {
            state: start.wrapping_add(u64::from(driver)),
        }
    }

    /// Makes a step and draws the upper 31 bits.
    pub fn draw(&mut self) -> u64
        ensures drawn { result ≡ drawn self.new.state }
        ensures state { self.new.state ≡ stepped self.old.state }
    {
        self.state = self.state.wrapping_mul(FACTOR).wrapping_add(TERM);
        self.state >> 33
    }
}
