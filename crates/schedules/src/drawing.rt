// The numbers by which a run chooses its threads. This project's own.
ghost use Rattle.std.specs.Prelude.{◌≡◌, suc, ◌/◌, ◌^◌, ◌∷◌, ℕ, get_or};
ghost use Rattle.schedules.specs.Numbers.{next_seed, numbers, HasNumbers};
ghost use Rattle.schedules.specs.Drawn.{left, HasLeft};

use store_object::Chooser;

// The generator's next state.
fn next_seed(seed: u64) -> u64
    ensures { result ≡ next_seed seed }
{
    seed.wrapping_mul(6364136223846793005)
        .wrapping_add(1442695040888963407)
}

// The number that it gives.
fn number_of(seed: u64) -> u32
    ensures { result ≡ seed / 2 ^ 33 }
{
    match u32::try_from(seed >> 33) {
        Ok(number) => number,
        Err(_) => 0,
    }
}

// The number at a place of a list; 0 past its end.
fn number_at(numbers: &[u32], at: usize) -> u32
    ensures { result ≡ get_or numbers.now at 0 }
{
    match numbers.get(at) {
        Some(number) => *number,
        None => 0,
    }
}

/// Where the next number comes from: a generator's state, or the place in a list.
#[derive(Clone, Copy)]
pub struct Drawing {
    pub seed: u64,
    pub at: usize,
}

impl Drawing {
    pub fn of(chooser: &Chooser) -> Drawing
        ensures all { (n : ℕ) → left chooser.now result n ≡ numbers chooser.now n }
        ensures enough { (n : ℕ) → HasNumbers chooser.now n → HasLeft chooser.now result n }
    {
        match chooser {
            Chooser::Seed(seed) => Drawing { seed: *seed, at: 0 },
            Chooser::List(_) => Drawing { seed: 0, at: 0 },
        }
    }

    /// The next number; 0 past a list's end.
    #[tactic(auto, using(crate::proofs::DrawLemmas::take_next))]
    pub fn draw(&mut self, chooser: &Chooser) -> u32
        ensures next { (n : ℕ) → HasLeft chooser.now self.old (suc n) → left chooser.now self.old (suc n) ≡ result ∷ left chooser.now self.new n }
        ensures enough { (n : ℕ) → HasLeft chooser.now self.old (suc n) → HasLeft chooser.now self.new n }
    {
        match chooser {
            Chooser::Seed(_) => {
                self.seed = next_seed(self.seed);
                number_of(self.seed)
            }
            Chooser::List(numbers) => {
                let number = number_at(numbers.as_slice(), self.at);
                self.at = self.at.saturating_add(1);
                number
            }
        }
    }
}
