// The pool's lookup. Behind the constants lies a table by value, which only saves time: where it does not hold the constants so far, they are searched one by one.
ghost use Rattle.std.specs.Prelude.{◌≡◌, ◌≤◌, ◌<◌, length, take, MatchOption};
ghost use Rattle.definition.specs.Limits.{max_constants};
ghost use Rattle.definition.specs.Emit.{index_of};
ghost use Rattle.emit.specs.Pool.{bucket_count, bucket_of, covers, Chained, Held, Appended, Keeps};

use crate::{Constant, Pool};
use definition::MAX_CONSTANTS;

// Buckets: a prime, so that constants at regular distances fall into different ones.
const BUCKETS: usize = 1021;

const HEAD_BASE: usize = MAX_CONSTANTS;

const LINK_BASE: usize = HEAD_BASE + BUCKETS;

const COUNT_AT: usize = LINK_BASE + MAX_CONSTANTS;

// Numbers behind the constants, in one list of fixed size, as `Held` speaks of it; 0 is no link.
const STALE_AT: usize = COUNT_AT + 1;

// Constants of a pool, with its table.
pub const SIZE: usize = STALE_AT + 1;

#[tactic(auto, unfolding(crate::specs::Pool::bucket_of))]
fn bucket(k: Constant) -> usize
    ensures value { result ≡ bucket_of k }
    ensures below { result < bucket_count }
{
    k as usize % BUCKETS
}

// Is the table that of the first n constants?
#[tactic(auto, using(std::proofs::lemmas::Bool::Decides::nat_tests), unfolding(crate::specs::Pool::covers))]
fn covers(pool: &Pool, n: usize) -> bool
    ensures { result ≡ covers pool.now n }
{
    pool[STALE_AT] == 0 && pool[COUNT_AT] as usize == n
}

// Where a constant stands first among the first n, one by one.
fn scan(pool: &Pool, n: usize, k: Constant) -> usize
    requires { n ≤ length pool.now }
    ensures value { result ≡ index_of k (take n pool.now) }
    ensures upper_bound { result ≤ n }
{
    pool[..n].iter().position(|x| *x == k).unwrap_or(n)
}

// The same along its bucket, from the last to the first: each link says where to go on, so it is no `for`.
fn search(pool: &Pool, n: usize, k: Constant) -> usize
    requires chained { Chained pool.now n }
    ensures value { result ≡ index_of k (take n pool.now) }
    ensures upper_bound { result ≤ n }
{
    let mut found = n;
    let mut left = pool[HEAD_BASE + bucket(k)] as usize;
    while left > 0 {
        let i = left - 1;
        if pool[i] == k {
            found = i;
        }
        left = pool[LINK_BASE + i] as usize;
    }
    found
}

// Where a constant stands first among the first n of the pool; n where it stands nowhere.
pub fn index_of(pool: &Pool, n: usize, k: Constant) -> usize
    requires held { Held pool.now }
    requires n_le_max_constants { n ≤ max_constants }
    ensures value { result ≡ index_of k (take n pool.now) }
    ensures upper_bound { result ≤ n }
{
    if covers(pool, n) {
        search(pool, n, k)
    } else {
        scan(pool, n, k)
    }
}

// The same where it is a constant's place, or that of the next one; none where there is no room for it.
pub fn place_of(pool: &Pool, n: usize, k: Constant) -> Option<usize>
    requires held { Held pool.now }
    requires n_le_max_constants { n ≤ max_constants }
    ensures { MatchOption result (max_constants ≤ index_of k (take n pool.now)) (λ i. (i ≡ index_of k (take n pool.now)) × (i < max_constants)) }
{
    let i = index_of(pool, n, k);
    if i < MAX_CONSTANTS { Some(i) } else { None }
}

// Constant n, into the pool and into its table. A table of other constants goes out of use.
pub fn append(pool: &mut Pool, n: usize, k: Constant)
    requires held { Held pool.old }
    requires n_lt_max_constants { n < max_constants }
    ensures { Appended n k pool.old pool.new }
{
    let known = covers(pool, n);
    pool[n] = k;
    if known {
        let head = HEAD_BASE + bucket(k);
        pool[LINK_BASE + n] = pool[head];
        pool[head] = (n + 1) as Constant;
        pool[COUNT_AT] = (n + 1) as Constant;
    } else {
        pool[STALE_AT] = 1;
    }
}

// How many constants there are once this one, whose place was found, is kept: it is appended if it is new.
pub fn keep(pool: &mut Pool, n: usize, i: usize, k: Constant) -> usize
    requires held { Held pool.old }
    requires i_lt_max_constants { i < max_constants }
    ensures { Keeps n i k pool.old result pool.new }
{
    if i < n {
        return n;
    }
    append(pool, n, k);
    n + 1
}
