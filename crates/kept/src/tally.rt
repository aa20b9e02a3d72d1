// How large each section is.
ghost use Rattle.std.specs.Prelude.{◌≡◌, ◌<◌};
ghost use Rattle.kept.specs.Sections.{SECTIONS};
ghost use Rattle.kept.specs.Tally.{no_tally, reached};

use crate::SECTIONS;

// The bytes of each section's entries, and how many entries there are, by the section's number.
#[derive(Clone, Copy)]
pub struct Tally {
    pub sizes: [u64; SECTIONS],
    pub counts: [u64; SECTIONS],
}

impl Tally {
    pub fn none() -> Tally
        ensures { result ≡ no_tally }
    {
        Tally {
            sizes: [0; SECTIONS],
            counts: [0; SECTIONS],
        }
    }

    // A section's bytes end at `to`, and it has n entries more.
    #[tactic(auto, using(crate::proofs::Tallies::reach_is))]
    pub fn reach(&mut self, k: u8, to: usize, n: u64)
        requires { k < SECTIONS }
        ensures { self.new ≡ reached self.old k to n }
    {
        let i = k as usize;
        self.sizes[i] = to as u64;
        self.counts[i] = emit::tally(self.counts[i] as usize, n as usize) as u64;
    }
}
