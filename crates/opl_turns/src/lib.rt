// Goes from tag to tag of an accepted text and determines, by the name of its element and the tags before it, which kind of record a tag yields. It also
// keeps a list of the start tags, so that later passes need not read the text again.
#![tactic(auto)]

ghost use Rattle.std.specs.Prelude.{◌≡◌, true, ◌-◌, ◌≤◌, ◌<◌, length};
ghost use Rattle.paper_opl.specs.Walk.{few as few_of};
ghost use Rattle.opl_spaces.specs.Spaces.{scratch_words, list_of};
ghost use Rattle.opl_turns.specs.Meaning.{guess_of, element_of, kind_by, sets_by, parts_by, walls_by, blocks_by, number_by, few_by};
ghost use Rattle.opl_turns.specs.Listing.{entered, Leads, Reads, Meets};
ghost use Rattle.opl_turns.specs.Turning.{context_of, turned_by, Stood, Led, Turns};

use opl_spaces::{LIST, LISTED};
use opl_table::{
    CHINESE_WALL, CRITICAL_ROLE_SET, CW_PARTITION, DYNAMIC_SEPARATION, NO_NAME, PARTITION,
    PARTITION_OBJECT, PARTITIONING, STATIC_SEPARATION, is_name, number_at,
};
use opl_tags::{Tag, read_tag};

// The length from which on a text is not listed: an index into it might not fit into a word together with the element's number.
const LONGEST: usize = 144115188075855872;

// The kind of a static set of roles.
const STATIC_SET: u64 = 9;

// The kind of a dynamic set of roles.
const DYNAMIC_SET: u64 = 10;

// The greatest number of partitionings, of walls, and of blocks of one wall.
const MOST: usize = 16;

// A position between tags: the index in the text, the number of listed tags before it, and the context that these determine. `sets` is the kind of a set of
// roles, 9 or 10. `parts` and `walls` count the partitionings and walls that have begun. `blocks` is the number of the next block: 16 times its wall + its
// index there.
#[derive(Clone, Copy)]
pub struct Cursor {
    pub at: usize,
    pub entry: usize,
    pub sets: u64,
    pub parts: usize,
    pub walls: usize,
    pub blocks: usize,
}

// A tag that was met: a start tag of element `id` whose name ends at `end`, and the number of listed tags up to it; or an end tag, with the index to go on
// from.
#[derive(Clone, Copy)]
pub enum Met {
    Begun { id: u64, end: usize, entry: usize },
    Ended(usize),
}

// What a tag yields: a record of a kind, with the number of its partitioning or block, and the end of the tag's name; or no record. `next` is the position
// after it.
#[derive(Clone, Copy)]
pub enum Turned {
    Says {
        kind: u64,
        number: u64,
        end: usize,
        next: Cursor,
    },
    Silent(Cursor),
}

// ---- The element of a tag.

// By a hash of a name: the only element that it can be. Listed are the elements that yield a record, declare a name, change the context or occur inside one
// that yields a record; NO_NAME stands for none. This and `KINDS` are statics, because a local array would be built on the stack at each use.
static GUESSES: [u8; 64] = [
    127, 25, 29, 40, 127, 127, 23, 35, 15, 46, 127, 127, 14, 127, 33, 127, 127, 12, 67, 127, 24,
    127, 127, 127, 69, 127, 127, 36, 127, 127, 127, 16, 127, 127, 127, 43, 127, 13, 127, 71, 127,
    20, 127, 49, 72, 127, 127, 127, 127, 18, 127, 127, 127, 38, 127, 127, 127, 127, 17, 39, 30, 21,
    127, 127,
];

// The kind of record that each element yields; 0 for none, and for a set of roles, whose kind depends on the context.
static KINDS: [u8; 73] = [
    0, 0, 0, 0, 0, 0, 0, 0, 0, 0, 0, 0, 1, 2, 3, 0, 0, 4, 5, 0, 0, 0, 0, 0, 0, 0, 0, 0, 0, 8, 7, 0,
    0, 13, 0, 11, 0, 0, 0, 12, 0, 0, 0, 14, 0, 0, 15, 0, 0, 16, 0, 0, 0, 0, 0, 0, 0, 0, 0, 0, 0, 0,
    0, 0, 0, 0, 0, 17, 0, 0, 0, 0, 18,
];

// The only element that a name can be, found by a hash of its length, its last byte and its first; NO_NAME if there is none.
fn guess(v: &[u8]) -> u64
    ensures { result ≡ guess_of v.now }
{
    let n = v.len();
    if n == 0 {
        return NO_NAME;
    }
    let h = (n as u64 + 47 * u64::from(v[n - 1]) + 3 * u64::from(v[0])) % 64;
    number_at(&GUESSES, h)
}

// The number of the element of this name, among those that matter after judging; NO_NAME for all others.
pub fn element(v: &[u8]) -> u64
    ensures { result ≡ element_of v.now }
{
    let g = guess(v);
    if is_name(v, g) {
        return g;
    }
    NO_NAME
}

// ---- The list of tags, and finding the next tag by it.

// Adds a start tag to the list, if there is room: the index where its name ends, and the number of its element in the low seven bits.
pub fn enter(s: &[u8], w: &mut [u64], end: usize, id: u64)
    requires { (length w.old ≡ scratch_words) × ((end ≤ length s.now) × (id < 128)) }
    ensures { w.new ≡ entered (length s.now) w.old end id }
{
    let n = w[LIST] as usize;
    if LISTED <= n {
        return;
    }
    if LONGEST <= s.len() {
        return;
    }
    w[LIST + 1 + n] = end as u64 * 128 + id;
    w[LIST] = n as u64 + 1;
}

// Reads the next tag from `at` on in the text; none if there is no further one.
fn read(s: &[u8], at: usize, entry: usize) -> Option<Met>
    requires { at ≤ length s.now }
    ensures { Reads s.now at entry result }
{
    let t = read_tag(s, at)?;
    match t {
        Tag::End(next) => Some(Met::Ended(next)),
        Tag::Start { name, end } => {
            let id = element(&s[name..end]);
            Some(Met::Begun { id, end, entry })
        }
    }
}

// The next tag from `at` on, after `entry` listed tags: from the list if it has one more, and otherwise from the text; none if there is no further one.
pub fn meet(s: &[u8], w: &[u64], at: usize, entry: usize) -> Option<Met>
    requires { (length w.now ≡ scratch_words) × ((at ≤ length s.now) × Leads s.now (list_of w.now) entry at) }
    ensures { Meets s.now (list_of w.now) at entry result }
{
    let n = w[LIST] as usize;
    if entry < n {
        let x = w[LIST + 1 + entry];
        return Some(Met::Begun {
            id: x % 128,
            end: (x / 128) as usize,
            entry: entry + 1,
        });
    }
    read(s, at, entry)
}

// ---- What a tag means.

// The kind of record that an element yields; 0 for none. `sets` is the kind of a set of roles here.
fn kind_by(sets: u64, id: u64) -> u64
    ensures { result ≡ kind_by sets id }
{
    if id == CRITICAL_ROLE_SET {
        return sets;
    }
    number_at(&KINDS, id)
}

// The kind of a set of roles after the tag of an element.
fn sets_by(sets: u64, id: u64) -> u64
    ensures { result ≡ sets_by sets id }
{
    if id == STATIC_SEPARATION {
        return STATIC_SET;
    }
    if id == DYNAMIC_SEPARATION {
        return DYNAMIC_SET;
    }
    sets
}

// The number of partitionings after the tag of an element.
fn parts_by(parts: usize, id: u64) -> usize
    requires { parts ≤ 16 }
    ensures { result ≡ parts_by parts id }
{
    if id == PARTITIONING {
        return parts + 1;
    }
    parts
}

// The number of walls after the tag of an element.
fn walls_by(walls: usize, id: u64) -> usize
    requires { walls ≤ 16 }
    ensures { result ≡ walls_by walls id }
{
    if id == CHINESE_WALL {
        return walls + 1;
    }
    walls
}

// The number of the next block after the tag of an element.
fn blocks_by(walls: usize, blocks: usize, id: u64) -> usize
    requires { (walls ≤ 16) × (blocks ≤ 256) }
    ensures { result ≡ blocks_by walls blocks id }
{
    if id == CHINESE_WALL {
        return MOST * walls;
    }
    if id == CW_PARTITION {
        return blocks + 1;
    }
    blocks
}

// n - 1, or 0 if n is 0.
fn last(n: usize) -> u64
    ensures { result ≡ n - 1 }
{
    if n == 0 {
        return 0;
    }
    (n - 1) as u64
}

// The number that a record takes from the context: of its partitioning for a partition, of its block for an object in a block.
fn number_by(parts: usize, blocks: usize, id: u64) -> u64
    ensures { result ≡ number_by parts blocks id }
{
    if id == PARTITION {
        return last(parts);
    }
    if id == PARTITION_OBJECT {
        return last(blocks);
    }
    0
}

// Whether the counts are within their limits.
pub fn few(parts: usize, walls: usize, blocks: usize) -> bool
    ensures { result ≡ few_by parts walls blocks }
{
    if MOST < parts {
        return false;
    }
    if MOST < walls {
        return false;
    }
    blocks <= MOST * walls
}

// What the start tag of element `id` yields, whose name ends at `end`; `entry` is the number of listed tags up to it.
fn told(id: u64, c: Cursor, end: usize, entry: usize) -> Turned
    requires { few_of (context_of c) ≡ true }
    ensures { result ≡ turned_by id c end entry }
{
    let kind = kind_by(c.sets, id);
    let n = Cursor {
        at: end,
        entry,
        sets: sets_by(c.sets, id),
        parts: parts_by(c.parts, id),
        walls: walls_by(c.walls, id),
        blocks: blocks_by(c.walls, c.blocks, id),
    };
    if kind == 0 {
        return Turned::Silent(n);
    }
    Turned::Says {
        kind,
        number: number_by(c.parts, c.blocks, id),
        end,
        next: n,
    }
}

// Goes over the next tag; none if there is no further one. The counts of the position must be within their limits.
pub fn turn(s: &[u8], w: &[u64], c: Cursor) -> Option<Turned>
    requires { (length w.now ≡ scratch_words) × (Stood s.now c × ((few_of (context_of c) ≡ true) × Led s.now (list_of w.now) c)) }
    ensures { Turns s.now (list_of w.now) c result }
{
    let t = meet(s, w, c.at, c.entry)?;
    match t {
        Met::Ended(next) => Some(Turned::Silent(Cursor { at: next, ..c })),
        Met::Begun { id, end, entry } => Some(told(id, c, end, entry)),
    }
}
