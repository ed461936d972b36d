// The words of the orders buffer. The entries of each instance are linked in order of entry, the free entries are linked too, and the number of entries and
// the done tasks of each instance are kept. The crate checks whether the links and figures of any content are sound, and changes the entries of one instance.
// No function requires sound links: on any content each stays within the buffer and ends. What it does to the chains is promised for sound links (specs/Acts,
// specs/Total).
#![tactic(auto)]

ghost use Rattle.std.specs.Prelude.{◌≡◌, ◌+◌, ◌%◌, ◌<◌, ◌≤◌, length, true, false, not, ◌&&◌, [], eqb, get_or};
ghost use Rattle.paper_lower.specs.Sets.{has};
ghost use Rattle.paper_lower.specs.Lists.{some_number_below, some, add, keep, each};
ghost use Rattle.paper_lower.specs.Lists.Maybe.{none, just};
ghost use Rattle.paper_upper.specs.Orders.{entry, held_of};
ghost use Rattle.paper_upper.specs.Orders.Standing.{held};
ghost use Rattle.paper_upper.specs.Requests.{turned};
ghost use Rattle.order_links.specs.Chains.{Counted, mark_of, open_of, template_in, template_at, done_word, is_read_as, chain_word, head_of, count_of, owner_of, link_of, user_of, task_of, done_bit, word_at, entries_in, astray, figures, chain_sound, sum_to, sound_of};
ghost use Rattle.order_links.specs.Stacks.{payload_of, Woven, Loose, Popped, Pushed, Taken, turned_word};
ghost use Rattle.order_links.specs.Acts.{Leaves, Acted};
ghost use Rattle.order_links.specs.Total.{Safe, Cuts, Frees, Sifts, Drops, Empties, Turns};

use sets::{Set, pick, set_of};

// The length of the buffer in words.
pub const ORDERS_WORDS: usize = 2244;

// The orders buffer: the words that a caller lends for orders and their entries.
pub type OrdersBuffer = [u64; ORDERS_WORDS];

// The most entries.
const MOST: u64 = 2048;

// Adding this modulo MOST subtracts 1.
const TO_LAST: u64 = MOST - 1;

// The word of the set of open instances.
const OPEN: usize = 1;

// The first word of the templates, one for each instance.
const TEMPLATES: usize = 2;

// The first word of the chains.
const CHAINS: usize = 66;

// The first word of the sets of done tasks, one for each instance.
const DONE: usize = 132;

// Entry k, counted from 1, is the word BEFORE + k.
const BEFORE: usize = 195;

// The chain of the free entries. Chains 0 to 63 are those of the instances.
pub const FREE: u64 = 64;

// A chain of entries set aside, which is always empty.
const ASIDE: u64 = 65;

// A chain's word is its newest entry plus NUMBERS times its number of entries. Adding LESS modulo NUMBERS subtracts 1, on any content without underflow.
pub const NUMBERS: u64 = 4096;

const LESS: u64 = NUMBERS - 1;

// An entry's word is its instance, plus PAYLOAD times its payload, plus BESIDE if it is free or set aside, plus LINK times the entry of the chain before it.
const INSTANCES: u64 = 64;

const PAYLOAD: u64 = 64;

const PAYLOADS: u64 = 16777216;

const BESIDE: u64 = 1073741824;

pub const LINK: u64 = 4294967296;

// A payload is 1 if the entry is done, plus TASK times its task, plus SUBJECT times its subject while it is held, plus USER times its user.
const TASK: u64 = 2;

const TASKS: u64 = 64;

const SUBJECT: u64 = 128;

const USER: u64 = 16384;

const USERS: u64 = 1024;

// The same multipliers for the whole word.
pub const WORD_TASK: u64 = PAYLOAD * TASK;

pub const WORD_SUBJECT: u64 = PAYLOAD * SUBJECT;

pub const WORD_USER: u64 = PAYLOAD * USER;

// Masks of an entry's word. ORDER_HELD has the instance and the done bit.
pub const ORDER_HELD: u64 = 127;

// HELD_BY has also the task and the subject.
pub const HELD_BY: u64 = 1048575;

// HOLDER has the done bit, the subject, and the bit of free entries. Searches over all entries use it and HAS_USER; both lie in the lower half of the word.
pub const HOLDER: u32 = 1074782272;

// HAS_USER has the user and the bit of free entries.
pub const HAS_USER: u32 = 2146435072;

// ---- The parts of a word.

// The word of a chain.
#[derive(Clone, Copy)]
pub struct ChainWord {
    pub bits: u64,
}

impl ChainWord {
    // The newest entry, or 0.
    pub fn head(self) -> u64
        ensures { result ≡ head_of self.bits }
    {
        self.bits % NUMBERS
    }

    // The number of entries.
    pub fn count(self) -> u64
        ensures { result ≡ count_of self.bits }
    {
        self.bits / NUMBERS % NUMBERS
    }
}

// The word of an entry.
#[derive(Clone, Copy)]
pub struct EntryWord {
    pub bits: u64,
}

impl EntryWord {
    // The entry of the chain before this one, or 0.
    pub fn link(self) -> u64
        ensures { result ≡ link_of self.bits }
    {
        self.bits / LINK % NUMBERS
    }

    // The user.
    pub fn user(self) -> u64
        ensures { result ≡ user_of self.bits }
    {
        self.bits / WORD_USER % USERS
    }

    // The task.
    pub fn task(self) -> u64
        ensures { result ≡ task_of self.bits }
    {
        self.bits / WORD_TASK % TASKS
    }

    // Whether the entry is done.
    pub fn is_done(self) -> bool
        ensures { result ≡ done_bit self.bits }
    {
        self.bits / PAYLOAD % 2 == 1
    }

    // The chain that the entry belongs to.
    fn owner(self) -> u64
        ensures { result ≡ owner_of self.bits }
    {
        self.bits % INSTANCES + self.bits / BESIDE % 2 * INSTANCES
    }

    // What the word says beside the chain and the link.
    fn payload(self) -> u64
        ensures { (result ≡ payload_of self.bits) × (result < 16777216) }
    {
        self.bits / PAYLOAD % PAYLOADS
    }

    // Whether the payload fits the key: a task and the subject that holds it, as in a payload.
    fn fits(self, key: u64) -> bool
        ensures { result ≡ eqb (payload_of self.bits % 16384) key }
    {
        self.payload() % USER == key
    }

    // The word, marked as done if it fits the key. The key is even because a held entry has 0 in the lowest bit of its payload.
    #[tactic(auto, unfolding(crate::specs::Stacks::turned_word))]
    fn turned(self, key: u64) -> EntryWord
        requires { key % 2 ≡ 0 }
        ensures { result.bits ≡ turned_word key self.bits }
    {
        if self.fits(key) {
            EntryWord {
                bits: self.bits + PAYLOAD,
            }
        } else {
            self
        }
    }
}

// ---- Getters.

// Whether instance i is open.
pub fn is_open(o: &OrdersBuffer, i: u64) -> bool
    requires { i < 64 }
    ensures { result ≡ has (open_of o.now) i }
{
    set_of(o[OPEN]).has(i)
}

// The template of instance i. It has a meaning only while i is open.
pub fn template(o: &OrdersBuffer, i: u64) -> u64
    requires { i < 64 }
    ensures { result ≡ template_in o.now i }
{
    o[TEMPLATES + i as usize] % 16
}

// The done tasks of instance i; none if it is closed.
#[tactic(auto, unfolding(crate::specs::Chains::done_word))]
pub fn done(o: &OrdersBuffer, i: u64) -> Set
    requires { i < 64 }
    ensures { result.bits ≡ done_word o.now i }
{
    let open = is_open(o, i);
    set_of(pick(open, o[DONE + i as usize], 0))
}

// The mark: the number of entries that were ever in use. It is capped at the most there can be.
pub fn mark(o: &OrdersBuffer) -> u64
    ensures { (result ≤ 2048) × (mark_of o.now ≤ 2048 → result ≡ mark_of o.now) }
{
    let m = o[0];
    if MOST < m { MOST } else { m }
}

// The word of chain i as it stands.
fn chain_at(o: &OrdersBuffer, i: u64) -> ChainWord
    requires { i ≤ 65 }
    ensures { result.bits ≡ get_or o.now (66 + i) 0 }
{
    ChainWord {
        bits: o[CHAINS + i as usize],
    }
}

// The word of chain i, or 0 if i is a closed instance.
#[tactic(auto, unfolding(crate::specs::Chains::chain_word, crate::specs::Chains::is_read_as))]
pub fn chain(o: &OrdersBuffer, i: u64) -> ChainWord
    requires { i ≤ 65 }
    ensures { result.bits ≡ chain_word o.now i }
{
    let x = chain_at(o, i);
    if 63 < i {
        return x;
    }
    let open = is_open(o, i);
    ChainWord {
        bits: pick(open, x.bits, 0),
    }
}

// The word of entry k.
pub fn word(o: &OrdersBuffer, k: u64) -> EntryWord
    requires { k ≤ 2048 }
    ensures { result.bits ≡ word_at o.now k }
{
    EntryWord {
        bits: o[BEFORE + k as usize],
    }
}

// A number from 1 to 2,048 for any link; a link that names an entry is not changed (docs/DECISIONS.md, D121).
fn in_reach(k: u64) -> u64
    ensures { (0 < result) × ((result ≤ 2048) × (0 < k → k ≤ 2048 → result ≡ k)) }
{
    (k % NUMBERS + TO_LAST) % MOST + 1
}

// The word of the entry that a link names.
pub fn linked(o: &OrdersBuffer, h: u64) -> EntryWord
    ensures { 0 < h → h ≤ 2048 → result.bits ≡ word_at o.now h }
{
    word(o, in_reach(h))
}

// The number of entries of chain i.
fn count(o: &OrdersBuffer, i: u64) -> u64
    requires { i ≤ 65 }
    ensures { result ≡ count_of (chain_word o.now i) }
{
    chain(o, i).count()
}

// ---- Soundness: whether the links and the kept figures of any content agree (docs/STATE.md, "The orders buffer").

// Whether link h does not name an entry of chain i among the first m entries.
#[tactic(auto, unfolding(crate::specs::Chains::astray))]
fn is_astray(o: &OrdersBuffer, i: u64, m: u64, h: u64) -> bool
    requires { m ≤ 2048 }
    ensures { result ≡ astray o.now i m h }
{
    if h == 0 || m < h {
        return true;
    }
    word(o, h).owner() != i
}

// Whether the kept figures of chain i are right; d is the set of its done tasks and n its number of entries.
#[tactic(auto, unfolding(crate::specs::Chains::figures, crate::specs::Chains::done_word, crate::specs::Chains::is_read_as))]
fn figures_fit(o: &OrdersBuffer, i: u64, n: u64, d: Set) -> bool
    requires { (i ≤ 65) × ((is_read_as o.now i ≡ true) × (n ≡ count_of (chain_word o.now i))) }
    ensures { result ≡ figures o.now i d.bits }
{
    if FREE <= i {
        return (i == FREE) | (n == 0);
    }
    o[DONE + i as usize] == d.bits
}

// Whether chain i is sound: its links end after as many entries as its word x says, all of them its own, and its figures are right.
fn chain_sound(o: &OrdersBuffer, m: u64, i: u64, x: ChainWord) -> bool
    requires { (m ≤ 2048) × ((i ≤ 65) × ((is_read_as o.now i ≡ true) × (x.bits ≡ chain_word o.now i))) }
    ensures { result ≡ chain_sound o.now m i }
{
    let n = x.count();
    let mut h = x.head();
    let mut d = Set::EMPTY;
    for _passed in 0..n {
        if is_astray(o, i, m, h) {
            return false;
        }
        let w = word(o, h);
        d = d.with_if(w.is_done(), w.task());
        h = w.link();
    }
    let fit = figures_fit(o, i, n, d);
    (h == 0) & fit
}

// n plus the number of entries of chain i, or a number above m if that sum is above m or the chain is not sound. The links are followed only if the sum is at
// most m. `reads` is false for a closed instance.
fn counted(o: &OrdersBuffer, m: u64, i: u64, n: u64, reads: bool) -> u64
    requires { (m ≤ 2048) × ((n ≤ m) × ((i ≤ 65) × (reads ≡ is_read_as o.now i))) }
    ensures { Counted o.now m i n result }
{
    if !reads {
        return n;
    }
    let x = chain_at(o, i);
    let all = n + x.count();
    if m < all {
        return all;
    }
    let sound = chain_sound(o, m, i, x);
    pick(sound, all, MOST + 1)
}

// Whether the chains of all open instances are sound and have m entries, with s entries in other chains. The loop ends after the highest open instance.
fn orders_sound(o: &OrdersBuffer, m: u64, s: u64, opened: u64) -> bool
    requires { (m ≤ 2048) × ((s ≤ m) × (opened ≡ open_of o.now)) }
    ensures { result ≡ (eqb (s + sum_to (λ i. count_of (chain_word o.now i)) 64) m && not (some_number_below 64 (λ i. not (chain_sound o.now m i)))) }
{
    let mut rest = opened;
    let mut n = s;
    for i in 0..64 {
        if rest == 0 {
            break;
        }
        n = counted(o, m, i, n, rest % 2 == 1);
        if m < n {
            return false;
        }
        rest = rest / 2;
    }
    n == m
}

// Whether the links, the numbers of entries and the sets of done tasks are sound, for any content of the words.
pub fn is_sound(o: &OrdersBuffer) -> bool
    ensures { result ≡ sound_of o.now }
{
    let m = o[0];
    if MOST < m {
        return false;
    }
    let free = counted(o, m, FREE, 0, true);
    if m < free {
        return false;
    }
    let beside = counted(o, m, ASIDE, free, true);
    if m < beside {
        return false;
    }
    orders_sound(o, m, beside, o[OPEN])
}

// ---- Chains as stacks.

// Takes the newest entry from chain i and returns its number.
fn pop(o: &mut OrdersBuffer, i: u64) -> u64
    requires { i ≤ 65 }
    ensures { Safe o.old o.new result × (Woven o.old → 0 < count_of (chain_word o.old i) → Popped o.old o.new i result) }
{
    let x = chain_at(o, i);
    let k = in_reach(x.head());
    let w = word(o, k);
    o[CHAINS + i as usize] = w.link() + NUMBERS * ((x.count() + LESS) % NUMBERS);
    k
}

// Puts entry k, which is in no chain, on chain i with payload p.
fn push(o: &mut OrdersBuffer, i: u64, k: u64, p: u64)
    requires { (k ≤ 2048) × ((i ≤ 65) × (p < 16777216)) }
    ensures { Safe o.old o.new k × (Loose o.old k → is_read_as o.old i ≡ true → Pushed o.old o.new i p) }
{
    let x = chain_at(o, i);
    o[BEFORE + k as usize] = i % INSTANCES + i / INSTANCES * BESIDE + PAYLOAD * p + LINK * x.head();
    o[CHAINS + i as usize] = k + NUMBERS * (x.count() + 1);
}

// Takes a free entry: from the free chain, or the next one that was never in use.
fn take_free(o: &mut OrdersBuffer) -> u64
    ensures { Safe o.old o.new result × (Woven o.old → (count_of (chain_word o.old 64) ≡ 0 → mark_of o.old < 2048) → Taken o.old o.new result) }
{
    let n = count(o, FREE);
    if n == 0 {
        let k = o[0] % MOST + 1;
        o[0] = k;
        return k;
    }
    pop(o, FREE)
}

// ---- Opening an instance, and adding an entry.

// Opens instance i, of template j.
pub fn open_chain(o: &mut OrdersBuffer, i: u64, j: u64)
    requires { (i < 64) × (j < 16) }
    ensures { (length o.new ≡ length o.old) × (sound_of o.old ≡ true → has (open_of o.old) i ≡ false → Leaves i (just j) [] o.old o.new) }
{
    let more = set_of(o[OPEN]).with(i);
    o[TEMPLATES + i as usize] = j;
    o[CHAINS + i as usize] = 0;
    o[DONE + i as usize] = 0;
    o[OPEN] = more.bits;
}

// Adds an entry to instance i: user u, task t, held by subject a.
pub fn enter(o: &mut OrdersBuffer, i: u64, u: u64, t: u64, a: u64)
    requires { (u < 1024) × ((i < 64) × ((t < 64) × (a < 128))) }
    ensures { (length o.new ≡ length o.old) × (sound_of o.old ≡ true → has (open_of o.old) i ≡ true → (count_of (chain_word o.old 64) ≡ 0 → mark_of o.old < 2048) → Leaves i (template_at o.old i) (add (entries_in o.old i) (entry i u t (held a))) o.old o.new) }
{
    let k = take_free(o);
    push(o, i, k, TASK * t + SUBJECT * a + USER * u);
}

// ---- Taking an entry out of the middle of a chain.

// Unlinks entry k of chain i, which comes after the first `kept` entries of the chain; q is the last of these.
fn cut(o: &mut OrdersBuffer, i: u64, kept: u64, q: u64, k: u64)
    requires { (i < 64) × ((q ≤ 2048) × (k ≤ 2048)) }
    ensures { Cuts o.old o.new i kept q k }
{
    let x = chain_at(o, i);
    let next = word(o, k).link();
    let fewer = (x.count() + LESS) % NUMBERS;
    if kept == 0 {
        o[CHAINS + i as usize] = next + NUMBERS * fewer;
        return;
    }
    let v = word(o, q);
    o[BEFORE + q as usize] = v.bits % LINK + LINK * next;
    o[CHAINS + i as usize] = x.head() + NUMBERS * fewer;
}

// The same, and makes the entry free.
fn free(o: &mut OrdersBuffer, i: u64, kept: u64, q: u64, k: u64)
    requires { (i < 64) × ((q ≤ 2048) × (k ≤ 2048)) }
    ensures { Frees o.old o.new i kept q k }
{
    cut(o, i, kept, q, k);
    let p = word(o, k).payload();
    push(o, FREE, k, p);
}

// Makes all entries of instance i that fit the key free, in one pass. Returns whether there was one.
fn sift(o: &mut OrdersBuffer, i: u64, key: u64) -> bool
    requires { i < 64 }
    ensures { Sifts i key o.old o.new result }
{
    let x = chain(o, i);
    let mut h = x.head();
    let all = x.count();
    let mut n = all;
    let mut kept = 0;
    let mut q = 0;
    while kept < n {
        let k = in_reach(h);
        let w = word(o, k);
        h = w.link();
        let goes = w.fits(key);
        if goes {
            free(o, i, kept, q, k);
            n -= 1;
        } else {
            q = k;
            kept += 1;
        }
    }
    n < all
}

// Subject a releases task t of instance i. Returns whether it held the task.
pub fn release(o: &mut OrdersBuffer, i: u64, t: u64, a: u64) -> bool
    requires { (i < 64) × ((t < 64) × (a < 128)) }
    ensures { Acted i (some (held_of i t a) (entries_in o.old i)) (keep (λ e. not (held_of i t a e)) (entries_in o.old i)) o.old o.new result }
{
    sift(o, i, TASK * t + SUBJECT * a)
}

// ---- Marking an entry as done, in its place.

// Marks all entries of instance i that fit the key as done, in one pass. Returns whether there was one.
fn turn(o: &mut OrdersBuffer, i: u64, key: u64) -> bool
    requires { (i < 64) × (key % 2 ≡ 0) }
    ensures { Turns i key o.old o.new result }
{
    let x = chain(o, i);
    let n = x.count();
    let mut h = x.head();
    let mut hit = false;
    for _passed in 0..n {
        let k = in_reach(h);
        let w = word(o, k);
        let v = w.turned(key);
        o[BEFORE + k as usize] = v.bits;
        hit = w.fits(key) | hit;
        h = w.link();
    }
    hit
}

// Subject a completes task t of instance i. Returns whether it held the task.
pub fn finish(o: &mut OrdersBuffer, i: u64, t: u64, a: u64) -> bool
    requires { (i < 64) × ((t < 64) × (a < 128)) }
    ensures { Acted i (some (held_of i t a) (entries_in o.old i)) (each (turned i t a) (entries_in o.old i)) o.old o.new result }
{
    if !turn(o, i, TASK * t + SUBJECT * a) {
        return false;
    }
    let more = set_of(o[DONE + i as usize]).with(t);
    o[DONE + i as usize] = more.bits;
    true
}

// ---- Closing an instance.

// Makes the newest entry of instance i free, and returns its payload.
fn drop_one(o: &mut OrdersBuffer, i: u64) -> u64
    requires { i < 64 }
    ensures { Drops i o.old o.new result }
{
    let k = pop(o, i);
    let p = word(o, k).payload();
    push(o, FREE, k, p);
    p
}

// Makes all entries of instance i free.
fn drop_all(o: &mut OrdersBuffer, i: u64)
    requires { i < 64 }
    ensures { Empties i o.old o.new }
{
    let n = count(o, i);
    for _dropped in 0..n {
        drop_one(o, i);
    }
}

// Closes instance i and removes its entries.
pub fn close_chain(o: &mut OrdersBuffer, i: u64)
    requires { i < 64 }
    ensures { (length o.new ≡ length o.old) × (sound_of o.old ≡ true → Leaves i none [] o.old o.new) }
{
    drop_all(o, i);
    let fewer = set_of(o[OPEN]).without(i);
    o[OPEN] = fewer.bits;
}
