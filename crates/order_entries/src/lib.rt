// The ledger: the open instances and all their entries, on top of the links of the orders buffer. Each function equals its definition in paper_upper, on the
// tables that a sound buffer reads as (specs/Reading). No function requires sound links: on any content each stays within the buffer and ends, and it equals
// its definition if the links are sound.
#![tactic(auto)]

ghost use Rattle.std.specs.Prelude.{◌≡◌, ◌<◌, length, true, false, ◌&&◌, MatchOption, ⊤};
ghost use Rattle.paper_lower.specs.Lists.{there, some, many};
ghost use Rattle.paper_lower.specs.Lists.Maybe.{just};
ghost use Rattle.paper_upper.specs.Orders.{is_held, is_held_by, are_in_order, held_of};
ghost use Rattle.paper_upper.specs.Questions.{figures_of};
ghost use Rattle.order_links.specs.Chains.{mark_of, user_of, task_of, done_bit, sound_of};
ghost use Rattle.order_entries.specs.Reading.{Cleared, orders_of, with_instance, opened_of, in_open_order, key_of, fits, any_in, any_up_to};
ghost use Rattle.order_entries.specs.Acts.{InLimits, after_enter, after_release, after_finish, after_end, Acts, Enters, Tried};
ghost use Rattle.order_entries.specs.Gathering.{gathered_of, taken_within, kept};

use order_links::{
    EntryWord, FREE, HAS_USER, HELD_BY, HOLDER, LINK, NUMBERS, ORDER_HELD, OrdersBuffer,
    WORD_SUBJECT, WORD_TASK, WORD_USER,
};
use sets::{Set, pick};

// The template of instance i, if it is open.
#[tactic(auto, unfolding(crate::specs::Reading::orders_of, order_links::specs::Chains::template_at))]
pub fn opened(o: &OrdersBuffer, i: u64) -> Option<u64>
    requires { i < 64 }
    ensures { (opened_of result ≡ (orders_of o.now).opened i) × MatchOption result ⊤ (λ j. j < 16) }
{
    order_links::is_open(o, i).then_some(order_links::template(o, i))
}

// Opens instance i, of template j.
pub fn set_opened(o: &mut OrdersBuffer, i: u64, j: u64)
    requires { (i < 64) × (j < 16) }
    ensures { (length o.new ≡ length o.old) × (sound_of o.old ≡ true → there ((orders_of o.old).opened i) ≡ false → Acts (with_instance (orders_of o.old) i (just j)) o.new) }
{
    order_links::open_chain(o, i, j);
}

// The number of entries in use: those that were ever in use, less the free ones.
pub fn in_use(o: &OrdersBuffer) -> usize
    ensures { sound_of o.now ≡ true → result ≡ many (orders_of o.now).entries }
{
    let spare = order_links::chain(o, FREE).count();
    let m = order_links::mark(o);
    ((m + NUMBERS - spare) % NUMBERS) as usize
}

// ---- What a claim needs to know of the entries.

// For a claim of task t by user u: the tasks of the instance with an entry of u, with a done entry, and with an entry of another user; the number of entries
// of t, and 1 if one of them is held. `held` is a number because the padding of a bool would make the compiler go through memory at each turn of the loop.
#[derive(Clone, Copy)]
pub struct Gathered {
    pub mine: Set,
    pub done: Set,
    pub others: Set,
    pub times: u64,
    pub held: u64,
}

// Adds one entry of the instance, without a branch. The done tasks are not changed: they are read from the kept set.
#[tactic(auto, unfolding(crate::specs::Gathering::taken_within))]
fn take_in(g: Gathered, w: EntryWord, u: u64, t: u64) -> Gathered
    requires { g.times < 4096 }
    ensures { result ≡ taken_within u t (user_of w.bits) (task_of w.bits) (done_bit w.bits) g }
{
    let task = w.task();
    let own = w.user() == u;
    let this = task == t;
    let finished = w.is_done();
    let mine = g.mine.with_if(own, task);
    let done = g.done;
    let others = g.others.with_if(!own, task);
    let times = g.times + u64::from(this);
    let held = pick(this & !finished, 1, g.held);
    Gathered {
        mine,
        done,
        others,
        times,
        held,
    }
}

// Collects what a claim of task t by user u in instance i needs: one pass over the entries of the instance, and its kept set of done tasks.
pub fn gather(o: &OrdersBuffer, i: u64, u: u64, t: u64) -> Gathered
    requires { i < 64 }
    ensures { sound_of o.now ≡ true → result ≡ gathered_of i u t (orders_of o.now).entries }
{
    let x = order_links::chain(o, i);
    let done = order_links::done(o, i);
    let n = x.count();
    let mut h = x.head();
    let mut g = Gathered {
        mine: Set::EMPTY,
        done,
        others: Set::EMPTY,
        times: 0,
        held: 0,
    };
    for _passed in 0..n {
        let w = order_links::linked(o, h);
        g = take_in(g, w, u, t);
        h = w.link();
    }
    g
}

// ---- Searches through the entries.

// Whether some entry of instance i has a word that equals the key under the mask.
fn any_in(o: &OrdersBuffer, i: u64, mask: u64, key: u64) -> bool
    requires { i < 64 }
    ensures { sound_of o.now ≡ true → result ≡ any_in o.now i mask key }
{
    let x = order_links::chain(o, i);
    let n = x.count();
    let mut h = x.head();
    let mut found = false;
    for _passed in 0..n {
        let w = order_links::linked(o, h);
        found = (w.bits & mask == key) | found;
        h = w.link();
    }
    found
}

// Whether the lower half of a word equals the key under the mask. On halves, one vector instruction compares four words; callers count hits in a u32, which
// keeps this width.
fn half_fits(w: EntryWord, mask: u32, key: u32) -> bool
    ensures { result ≡ fits mask key w.bits }
{
    let half = (w.bits % LINK) as u32;
    half & mask == key
}

// Whether some entry up to the mark has a word that equals the key under the mask. It goes through the words in order and not along the links, without an
// early exit, so that the compiler can vectorise it.
#[tactic(auto, unfolding(paper_lower::specs::Lists::some_number_below))]
fn any(o: &OrdersBuffer, mask: u32, key: u32) -> bool
    ensures { sound_of o.now ≡ true → result ≡ any_up_to o.now (mark_of o.now) mask key }
{
    let m = order_links::mark(o);
    let mut hits: u32 = 0;
    for k in 0..m {
        let w = order_links::word(o, k + 1);
        let hit = half_fits(w, mask, key);
        hits += u32::from(hit);
    }
    0 < hits
}

// The part of an entry's word below its user: instance i, task t, held by subject a.
fn key_of(i: u64, t: u64, a: u64) -> u64
    requires { InLimits i t a }
    ensures { result ≡ key_of i t a }
{
    i + WORD_TASK * t + WORD_SUBJECT * a
}

// Whether subject a holds task t of instance i.
pub fn holds_task(o: &OrdersBuffer, i: u64, t: u64, a: u64) -> bool
    requires { InLimits i t a }
    ensures { sound_of o.now ≡ true → result ≡ some (held_of i t a) (orders_of o.now).entries }
{
    let key = key_of(i, t, a);
    any_in(o, i, HELD_BY, key)
}

// Whether some task of instance i is held.
pub fn order_held(o: &OrdersBuffer, i: u64) -> bool
    requires { i < 64 }
    ensures { sound_of o.now ≡ true → result ≡ some (λ e. are_in_order i e && is_held e.standing) (orders_of o.now).entries }
{
    any_in(o, i, ORDER_HELD, i)
}

// Whether subject a holds any task, in any instance.
pub fn holds_any(o: &OrdersBuffer, a: u64) -> bool
    requires { a < 128 }
    ensures { sound_of o.now ≡ true → result ≡ some (λ e. is_held_by a e.standing) (orders_of o.now).entries }
{
    any(o, HOLDER, (WORD_SUBJECT * a) as u32)
}

// Whether user u has an entry in an open instance. Closed instances have no entries, so all entries in use are searched.
pub fn in_open_order(o: &OrdersBuffer, u: u64) -> bool
    requires { u < 1024 }
    ensures { sound_of o.now ≡ true → result ≡ some (in_open_order (orders_of o.now) u) (orders_of o.now).entries }
{
    any(o, HAS_USER, (WORD_USER * u) as u32)
}

// ---- Kept figures.

// The number of entries of an instance, and its done tasks.
#[derive(Clone, Copy)]
pub struct Figures {
    pub entries: u64,
    pub done: Set,
}

// The figures of instance i, as they are kept.
pub fn figures_of(o: &OrdersBuffer, i: u64) -> Figures
    requires { i < 64 }
    ensures { sound_of o.now ≡ true → result ≡ kept (figures_of i (orders_of o.now).entries) }
{
    let entries = order_links::chain(o, i).count();
    let done = order_links::done(o, i);
    Figures { entries, done }
}

// ---- Changes.

// Adds an entry: instance i, user u, task t, held by subject a.
pub fn enter(o: &mut OrdersBuffer, i: u64, u: u64, t: u64, a: u64)
    requires { (u < 1024) × InLimits i t a }
    ensures { (length o.new ≡ length o.old) × (sound_of o.old ≡ true → there ((orders_of o.old).opened i) ≡ true → many (orders_of o.old).entries < 2048 → Enters (after_enter (orders_of o.old) i u t a) o.new) }
{
    order_links::enter(o, i, u, t, a);
}

// Removes that entry, if subject a holds the task. Returns whether it did.
pub fn release(o: &mut OrdersBuffer, i: u64, t: u64, a: u64) -> bool
    requires { InLimits i t a }
    ensures { Tried i (some (held_of i t a) (orders_of o.old).entries) (after_release (orders_of o.old) i t a) o.old o.new result }
{
    order_links::release(o, i, t, a)
}

// Marks that entry as done, if subject a holds the task. Returns whether it did.
pub fn finish(o: &mut OrdersBuffer, i: u64, t: u64, a: u64) -> bool
    requires { InLimits i t a }
    ensures { Tried i (some (held_of i t a) (orders_of o.old).entries) (after_finish (orders_of o.old) i t a) o.old o.new result }
{
    order_links::finish(o, i, t, a)
}

// Closes instance i and removes its entries.
pub fn end_order(o: &mut OrdersBuffer, i: u64)
    requires { i < 64 }
    ensures { (length o.new ≡ length o.old) × (sound_of o.old ≡ true → Acts (after_end (orders_of o.old) i) o.new) }
{
    order_links::close_chain(o, i);
}

// Empties the buffer: no instance is open, and there are no entries.
pub fn clear(o: &mut OrdersBuffer)
    ensures { Cleared o.new }
{
    o.fill(0);
}
