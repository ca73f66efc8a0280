// Numbers that look random and are the same in every run.
#[derive(Clone, Copy)]
pub struct Dice {
    state: u32,
}

impl Dice {
    pub fn new(seed: u32) -> Dice {
        Dice { state: seed }
    }

    // A number from `least` to `most`; `least` where that is the greater of the two.
    pub fn roll(&mut self, least: u32, most: u32) -> u32 {
        self.state = self
            .state
            .wrapping_mul(1_664_525)
            .wrapping_add(1_013_904_223);
        let sides = most.saturating_sub(least).saturating_add(1).max(1);
        // the low bits of such a generator repeat too soon
        least.saturating_add((self.state >> 16) % sides)
    }
}
