//! The weights of the men read from bytes, one byte a man.
ghost use Rattle.std.specs.Prelude.{◌≡◌, ◌+◌, ◌≤◌, ◌<◌, min, length, take};
ghost use Rattle.format.specs.Format.{largest};
ghost use Rattle.weights.specs.Weights.{Light, MenWeighed};

use format::Instance;

/// Weights before anything is known of the book: how many there are, and those of the men. More than the largest n are
/// too many for every book, so that one more is enough to see it. Zeros stand where there is none.
#[derive(Clone, Copy, Debug, PartialEq, Eq)]
pub struct Weights {
    pub count: usize,
    pub men: [u32; Instance::LARGEST + 1],
}

/// The first `count` weights as numbers.
#[tactic(auto, using(crate::specs::Laws::Reading::men_on))]
fn weigh_men(weights: &[u8], count: usize) -> [u32; Instance::LARGEST + 1]
    requires weights_long { count ≤ length weights.now }
    requires count_bound { count ≤ largest + 1 }
    ensures { MenWeighed weights.now count result }
{
    let mut men = [0u32; Instance::LARGEST + 1];
    for (i, &weight) in weights[..count].iter().enumerate() {
        men[i] = u32::from(weight);
    }
    men
}

/// The weights of the students.
pub fn read_weights(weights: &[u8]) -> Weights
    ensures light { Light (take result.count result.men) }
    ensures same { take result.count result.men ≡ take (largest + 1) weights.now }
    ensures count { result.count ≡ min (largest + 1) (length weights.now) }
    ensures men_long { result.count ≤ length result.men }
    ensures taken_length { result.count ≡ length (take result.count result.men) }
{
    let count = weights.len().min(Instance::LARGEST + 1);
    Weights {
        count,
        men: weigh_men(weights, count),
    }
}
