// The weighted sum of bytes.
ghost use Rattle.std.specs.Prelude.{◌≡◌};
ghost use Rattle.observed.specs.Sums.{none, with_byte, with_all};

// How many bytes there are, and the sum of each times its place, from 1 on, modulo 1000003.
#[derive(Clone, Copy)]
pub struct Sum {
    pub count: u32,
    pub sum: u32,
}

impl Sum {
    #[tactic(auto, unfolding(crate::specs::Sums::none))]
    pub fn new() -> Sum
        ensures { result ≡ none }
    {
        Sum { count: 0, sum: 0 }
    }

    // With one more byte.
    #[tactic(auto, unfolding(crate::specs::Sums::with_byte, crate::specs::Sums::counted))]
    fn with(self, byte: u8) -> Sum
        ensures { result ≡ with_byte self byte }
    {
        let count = self.count.wrapping_add(1);
        let weight = (count % 1_000_003) as u64;
        let sum = self.sum as u64 + weight * byte as u64;
        Sum {
            count,
            sum: (sum % 1_000_003) as u32,
        }
    }

    // With more bytes behind them.
    #[tactic(auto, unfolding(crate::specs::Sums::with_all))]
    pub fn with_all(self, bytes: &[u8]) -> Sum
        ensures { result ≡ with_all self bytes.now }
    {
        bytes.iter().fold(self, |sum, byte| sum.with(*byte))
    }
}
