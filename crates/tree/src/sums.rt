// Sums of counts of a list that goes on with zeros.
ghost use Rattle.std.specs.Prelude.{◌≡◌, ◌+◌, ◌≤◌, ◌<◌, ◌^◌};
ghost use Rattle.lists.specs.Lists.{sum, window};

// The sum of the n counts from index from on, none beyond the end. Index and number and no slice: they may be beyond the end too. By an
// iterator over the slice that is left, `counts[..].iter().map(..).sum()`, a write of a page takes 1 to 3 hundredths longer.
pub fn sum_of(counts: &[u32], from: usize, n: usize) -> u64
    requires { (from + n < 2 ^ 63) × (n ≤ 65536) }
    ensures { result ≡ sum (window counts.now from n) }
{
    let end = (from + n).min(counts.len());
    let mut total = 0;
    for i in from..end {
        total += u64::from(counts[i]);
    }
    total
}
