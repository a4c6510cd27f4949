// The reserve R(2^h, s) of a tree of 2^h counts with sum s, in bits, for h to 8 and sums below 2^40. A sum is a plain number: a type for it
// would be made anew, with its proof, for each difference of sums below a node.
#![tactic(auto)]

ghost use Rattle.std.specs.Prelude.{◌≡◌, ◌+◌, ◌%◌, ◌^◌, ◌≤◌, ◌<◌};
ghost use Rattle.reserve.specs.Reserve.{digits, reserve};
ghost use Rattle.reserve.specs.Code.Formula.{Bounded, one_formula};

// How many binary digits s has: none for 0.
pub fn digits_of(s: u64) -> u32
    ensures { result ≡ digits s }
{
    64 - s.leading_zeros()
}

// 2^k.
pub fn power(k: u32) -> u64
    requires { k < 64 }
    ensures { result ≡ 2 ^ k }
{
    1u64 << k
}

// The formula, with m the smaller of h and t, and n = 2^m, which is its callers' to make: its proof asks no more of n than 1 ≤ n.
pub fn formula(h: u32, t: u32, s: u64, m: u32, n: u64) -> usize
    requires { Bounded h t s m n }
    ensures { result ≡ one_formula h t s m n ((t + 63) % 64) }
{
    let levels = n * u64::from(t + 1 - m) + s * u64::from(h - m);
    let shared = (s * (n - 1)) >> ((t + 63) % 64);
    (levels + shared - u64::from(t + 1)) as usize
}

// The reserve of a sum s of t binary digits. Both cases of the formula are one, with m the smaller of h and t: the dense case at 2^m
// counts, and s bits more for each level above m. There is no jump on the data, not even for s = 0, where the shift's amount is 63. It is a
// function of its own, since tests/reserve_twice.sh counts its calls by its name.
pub fn reserve_at(h: u32, t: u32, s: u64) -> usize
    requires { (h ≤ 8) × (s < 1099511627776) × (t ≡ digits s) }
    ensures { result ≡ reserve h s }
{
    let m = t.min(h);
    formula(h, t, s, m, power(m))
}

// The reserve of a sum s.
pub fn reserve_of(h: u32, s: u64) -> usize
    requires { (h ≤ 8) × (s < 1099511627776) }
    ensures { result ≡ reserve h s }
{
    reserve_at(h, digits_of(s), s)
}
