// A hash table of names in words that the caller passes. Names get numbers in the order of their declaration. The names themselves stay in the text; the table
// keeps their places there. specs/Table defines what the words mean.
#![tactic(auto)]

ghost use Rattle.std.specs.Prelude.{◌≡◌, ◌&&◌, ◌+◌, ◌*◌, ◌-◌, ◌≤◌, ◌<◌, eqb, length, take, drop};
ghost use Rattle.paper_opl.specs.Reading.{same};
ghost use Rattle.paper_opl.specs.Naming.{place_of};
ghost use Rattle.opl_names.specs.Table.{quad_at, turned, rest_from, mark_of, bucket_of, kept, place_at, word_at, size_within, link_in, mark_in, packed, name_at, names_in, start_of, Sound, found_of, Emptied, Declares, with_name};

use opl_text::same_by_eights;

// ---- A name's hash, called its mark, and its bucket.

// Four bytes make a number below this.
const QUADS: u64 = 4294967296;

// Four bytes from i on, as one number.
#[tactic(auto, unfolding(crate::specs::Table::quad_at))]
fn quad(name: &[u8], i: usize) -> u64
    requires { i + 4 ≤ length name.now }
    ensures { (result ≡ quad_at name.now i) × (result < 4294967296) }
{
    16777216 * u64::from(name[i])
        + 65536 * u64::from(name[i + 1])
        + 256 * u64::from(name[i + 2])
        + u64::from(name[i + 3])
}

// One round of the hash.
#[tactic(auto, unfolding(crate::specs::Table::turned))]
fn turn(h: u64, x: u64) -> u64
    requires { (h < 1099511627776) × (x < 4294967296) }
    ensures { (result ≡ turned h x) × (result < 1099511627776) }
{
    (h + x) * 10368889 % 1099511627776
}

// The last bytes of a name, at most three, as one number: one round for all of them is faster than a round for each.
#[tactic(auto, using(crate::proofs::TableLaws::rest_turn, crate::proofs::TableLaws::rest_end))]
fn rest(name: &[u8], from: usize) -> u64
    requires { from ≤ length name.now }
    ensures { (result ≡ rest_from 0 (drop from name.now)) × (result < 4294967296) }
{
    let mut x = 0;
    for i in from..name.len() {
        x = (256 * x + u64::from(name[i])) % QUADS;
    }
    x
}

// The mark of a name: 40 bits, four bytes at a time and then the rest.
#[tactic(auto, unfolding(crate::specs::Table::mark_to))]
fn mark(name: &[u8]) -> u64
    ensures { (result ≡ mark_of name.now) × (result < 1099511627776) }
{
    let n = name.len() / 4;
    let mut h = 0;
    for k in 0..n {
        h = turn(h, quad(name, 4 * k));
    }
    turn(h, rest(name, 4 * n))
}

// The bucket of a mark, of n buckets.
#[tactic(auto, unfolding(crate::specs::Table::bucket_of))]
fn bucket(m: u64, n: usize) -> usize
    requires { 0 < n }
    ensures { (result ≡ bucket_of n m) × (result < n) }
{
    (m / 16777216) as usize % n
}

// ---- Searching a bucket.

// The newest number in bucket h plus one, or 0 if the bucket is empty. A word of an earlier use does not count, so the table needs no clearing.
#[tactic(auto, unfolding(crate::specs::Table::start_of))]
fn start(t: &[u64], n: usize, h: usize) -> usize
    requires { (0 < n) × ((length t.now ≡ 1 + 3 * n) × ((kept t.now ≤ n) × (h < n))) }
    ensures { (result ≡ start_of n t.now h) × (result ≤ n) }
{
    let x = t[1 + 3 * h] as usize;
    if x == 0 {
        return 0;
    }
    if (t[0] as usize) < x {
        return 0;
    }
    if bucket(t[3 + 3 * (x - 1)] / 16777216, n) != h {
        return 0;
    }
    x
}

// The next older number in the bucket of number k plus one, or 0.
fn link(t: &[u64], k: usize) -> usize
    requires { 3 + 3 * k < length t.now }
    ensures { result ≡ link_in (word_at t.now k) }
{
    (t[3 + 3 * k] / 128 % 131072) as usize
}

// Whether number k is the name whose mark is m.
#[tactic(auto, using(crate::proofs::TableLaws::is_last))]
fn is_name(s: &[u8], t: &[u64], k: usize, m: u64, name: &[u8]) -> bool
    requires { (3 + 3 * k < length t.now) × (place_at t.now k + size_within (word_at t.now k) ≤ length s.now) }
    ensures { result ≡ eqb (mark_in (word_at t.now k)) m && same (name_at s.now t.now k) name.now }
{
    let w = t[3 + 3 * k];
    if w / 16777216 != m {
        return false;
    }
    let at = t[2 + 3 * k] as usize;
    let end = at + (w % 128) as usize;
    same_by_eights(&s[at..end], name)
}

// The number of a name whose mark is m, if the table has it.
fn find_marked(s: &[u8], t: &[u64], n: usize, name: &[u8], m: u64) -> Option<usize>
    requires { Sound s.now n t.now × (m ≡ mark_of name.now) }
    ensures { found_of result ≡ place_of 0 name.now (names_in s.now t.now) }
{
    let mut next = start(t, n, bucket(m, n));
    while 0 < next {
        let k = next - 1;
        if is_name(s, t, k, m, name) {
            return Some(k);
        }
        next = link(t, k);
    }
    None
}

// ---- The table.

// Empties the table, whatever its words were.
#[tactic(auto, using(crate::proofs::AppendLaws::emptied))]
pub fn empty(t: &mut [u64], n: usize)
    requires { (0 < n) × ((n ≤ 65536) × (length t.old ≡ 1 + 3 * n)) }
    ensures { Emptied n t.new }
{
    t[0] = 0;
}

// The number of a name, in a table for n names, if the table has it.
pub fn find(s: &[u8], t: &[u64], n: usize, name: &[u8]) -> Option<usize>
    requires { Sound s.now n t.now }
    ensures { found_of result ≡ place_of 0 name.now (names_in s.now t.now) }
{
    find_marked(s, t, n, name, mark(name))
}

// Adds a name that the table does not have, as the next number.
fn append(t: &mut [u64], n: usize, at: usize, size: usize, m: u64)
    requires { ((0 < n) × (n ≤ 65536)) × ((length t.old ≡ 1 + 3 * n) × ((kept t.old < n) × ((size ≤ 64) × (m < 1099511627776)))) }
    ensures { t.new ≡ with_name t.old (bucket_of n m) at (packed size (start_of n t.old (bucket_of n m)) m) }
{
    let k = t[0] as usize;
    let h = bucket(m, n);
    let older = start(t, n, h) as u64;
    t[2 + 3 * k] = at as u64;
    t[3 + 3 * k] = size as u64 + 128 * older + 16777216 * m;
    t[1 + 3 * h] = k as u64 + 1;
    t[0] = k as u64 + 1;
}

// The number of the name at a place of the text. A new name gets the next number, or none if the table is full.
pub fn declare(s: &[u8], t: &mut [u64], n: usize, at: usize, size: usize) -> Option<usize>
    requires { Sound s.now n t.old × ((at + size ≤ length s.now) × (size ≤ 64)) }
    ensures { Declares s.now n (take size (drop at s.now)) t.old t.new result }
{
    let end = at + size;
    let m = mark(&s[at..end]);
    if let Some(k) = find_marked(s, t, n, &s[at..end], m) {
        return Some(k);
    }
    let k = t[0] as usize;
    if n <= k {
        return None;
    }
    append(t, n, at, size, m);
    Some(k)
}
