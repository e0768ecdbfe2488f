// The runs of a batch, told apart from those that break its rules.
ghost use Rattle.std.specs.Prelude.{◌≡◌};
ghost use Rattle.ground.specs.Says.{Says};
ghost use Rattle.batch.specs.Batch.{sum, runs, GoodRuns};

// Whether the lengths add up to n: what is left of n is counted down, so no sum can be too large.
fn add_up(lengths: &[u32], n: usize) -> bool
    ensures { Says result (sum lengths.now ≡ n) }
{
    let mut left = n;
    for &k in lengths {
        let k = k as usize;
        if left < k {
            return false;
        }
        left -= k;
    }
    left == 0
}

// Stays: the C header's lots_put_all has these runs side by side.
// Whether the runs are of one length, and the lengths add up to the code bytes.
pub fn good_runs(codes: &[u8], lengths: &[u32], places: &[u64], answers: &[u32]) -> bool
    ensures { Says result (GoodRuns (runs codes.now lengths.now places.now answers.now)) }
{
    places.len() == lengths.len() && answers.len() == lengths.len() && add_up(lengths, codes.len())
}
