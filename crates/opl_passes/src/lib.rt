// The passes over accepted texts after the one that declares names: whether every record can be made, how many records each kind has, and writing the records
// to the output.
#![tactic(auto)]

ghost use Rattle.std.specs.Prelude.{◌≡◌, true, ℕ, ◌+◌, ◌*◌, ◌≤◌, ◌<◌, length};
ghost use Rattle.paper_lower.specs.Lists.{Every};
ghost use Rattle.paper_opl.specs.Walk.{start, few as few_of, few_from};
ghost use Rattle.paper_opl.specs.Filling.{fill, fill_lines};
ghost use Rattle.opl_lines.specs.Lines.{Apart, lines_in};
ghost use Rattle.opl_spaces.specs.Spaces.{kept_room, scratch_words, list_of};
ghost use Rattle.opl_tags.specs.Tags.{walk_at};
ghost use Rattle.opl_said.specs.Said.{all_names, Holds};
ghost use Rattle.opl_turns.specs.Listing.{Leads};
ghost use Rattle.opl_turns.specs.Turning.{context_of, Stood, Led, SmallTag};
ghost use Rattle.opl_passes.specs.Lines.{lines_at, lines_good, lines_there, Pairs, line_between, RowIs, LinesAre, LineWritten, LinesFit};
ghost use Rattle.opl_passes.specs.Kept.{kept_with, kind_in, written_to, Keeping, Fitting};
ghost use Rattle.opl_passes.specs.Tags.{of, all_present, there_from, Checks, TagsAre, Sums, TagsFit, Writes, FitsAll, PutsKept};

use opl_lines::{Line, read_line};
use opl_said::{StartTag, Texts, number_of, said};
use opl_spaces::{KEPT, TABLES, TASKS, TEMPLATES};
use opl_turns::{Cursor, Turned, few, turn};
use record_output::{low_word, put, put_words};

// One more than the greatest kind of a policy record.
const KINDS: usize = 19;

// The numbers of a line's task and template, and the index of the next line.
#[derive(Clone, Copy)]
pub struct Row {
    pub a: u64,
    pub b: u64,
    pub next: usize,
}

// The position after a tag and the number of records so far; or `Unnamed`, if a name in the tag has no number; or `Done`, no further tag.
#[derive(Clone, Copy)]
pub enum Checked {
    Next(Cursor, usize),
    Unnamed,
    Done,
}

// ---- The task lines.

// The numbers of the names of the line that begins at `at`; none if one has no number.
fn numbers(texts: Texts, at: usize, line: Line) -> Option<Row>
    requires { Holds texts.policy.now texts.lines.now texts.scratch.now × Apart texts.lines.now at line.task line.template line.next }
    ensures { Pairs (all_names texts.entry.policy.now texts.entry.lines.now) (line_between texts.entry.lines.now at line.task line.template) line.next result }
{
    let a = number_of(texts, TASKS, &texts.lines[at..line.task])?;
    let from = line.task + 1;
    let b = number_of(texts, TEMPLATES, &texts.lines[from..line.template])?;
    Some(Row {
        a: a as u64,
        b: b as u64,
        next: line.next,
    })
}

// The same for the line at `at`.
fn row_at(texts: Texts, at: usize) -> Option<Row>
    requires { Holds texts.policy.now texts.lines.now texts.scratch.now × ((at < length texts.lines.now) × lines_good texts.lines.now at) }
    ensures { RowIs (all_names texts.entry.policy.now texts.entry.lines.now) texts.entry.lines.now at result }
{
    let Ok(line) = read_line(texts.lines, at) else {
        return None;
    };
    numbers(texts, at, line)
}

// The number of lines, if every line has its record.
pub fn check_lines(texts: Texts) -> Option<usize>
    requires { Holds texts.policy.now texts.lines.now texts.scratch.now × lines_good texts.lines.now 0 }
    ensures { LinesAre (all_names texts.entry.policy.now texts.entry.lines.now) texts.entry.lines.now result }
{
    let mut n = 0;
    let mut at = 0;
    while at < texts.lines.len() {
        let row = row_at(texts, at)?;
        n += 1;
        at = row.next;
    }
    Some(n)
}

// Writes the record of the line at `at` to a place of the output; returns the index of the next line.
fn write_line(texts: Texts, out: &mut [u8], at: usize, place: usize) -> usize
    requires { (Holds texts.policy.now texts.lines.now texts.scratch.now × ((at < length texts.lines.now) × lines_good texts.lines.now at)) × ((lines_there (all_names texts.policy.now texts.lines.now) (lines_at texts.lines.now at) ≡ true) × LinesFit texts.lines.now at place out.old) }
    ensures { LineWritten (all_names texts.entry.policy.now texts.entry.lines.now) texts.entry.lines.now at place result out.old out.new }
{
    let Some(row) = row_at(texts, at) else {
        return texts.lines.len();
    };
    put(out, place, 6, 0, row.a, row.b, 0, 0);
    row.next
}

// Writes the records of all lines, from a place of the output on.
pub fn write_lines(texts: Texts, out: &mut [u8], place: usize)
    requires { (Holds texts.policy.now texts.lines.now texts.scratch.now × lines_good texts.lines.now 0) × ((lines_there (all_names texts.policy.now texts.lines.now) (lines_in texts.lines.now) ≡ true) × LinesFit texts.lines.now 0 place out.old) }
    ensures { out.new ≡ fill_lines (all_names texts.entry.policy.now texts.entry.lines.now) place (lines_in texts.entry.lines.now) out.old }
{
    let mut p = place;
    let mut at = 0;
    while at < texts.lines.len() {
        at = write_line(texts, out, at, p);
        p += 1;
    }
}

// ---- The tags.

// Keeps a record in the scratch buffer as number j, if there is room. A kept record need not be looked up again when it is written.
fn keep(w: &mut [u64], j: usize, low: u64, high: u64)
    requires { length w.old ≡ scratch_words }
    ensures { w.new ≡ kept_with w.old j low high }
{
    if KEPT <= j {
        return;
    }
    let at = TABLES + 2 * j;
    w[at] = low;
    w[at + 1] = high;
}

// Looks up the record of the next tag, counts it and keeps it as number j. Here s is the policy text, t the task lines and w the scratch buffer.
fn check_at(
    s: &[u8],
    t: &[u8],
    w: &mut [u64],
    counts: &mut [usize; 19],
    c: Cursor,
    j: usize,
) -> Checked
    requires { Holds s.now t.now w.old × (((Stood s.now c × ((few_of (context_of c) ≡ true) × Led s.now (list_of w.old) c)) × (j ≤ c.at)) × ((k : ℕ) → of counts.old k ≤ c.at)) }
    ensures { Checks (all_names s.now t.now) s.now t.now c j counts.old counts.new w.old w.new result }
{
    let Some(x) = turn(s, w, c) else {
        return Checked::Done;
    };
    match x {
        Turned::Silent(n) => Checked::Next(n, j),
        Turned::Says {
            kind,
            number,
            end,
            next,
        } => {
            let texts = Texts {
                policy: s,
                lines: t,
                scratch: w,
            };
            let tag = StartTag {
                end,
                entry: next.entry,
            };
            let Some(f) = said(texts, kind, number, tag) else {
                return Checked::Unnamed;
            };
            let i = j + 1;
            let k = kind as usize;
            counts[k] = counts[k] + 1;
            let low = low_word(kind, f.n, f.a, f.b, f.c);
            keep(w, j, low, f.m);
            Checked::Next(next, i)
        }
    }
}

// Looks up, counts and keeps the records of all tags from `from` on, and returns their number; none if a name has no number or there are too many
// partitionings, walls or blocks.
pub fn check_tags(
    s: &[u8],
    t: &[u8],
    w: &mut [u64],
    counts: &mut [usize; 19],
    from: usize,
) -> Option<usize>
    requires { Holds s.now t.now w.old × (((from ≤ length s.now) × Leads s.now (list_of w.old) 0 from) × (Every SmallTag (walk_at s.now from) × ((k : ℕ) → of counts.old k ≡ 0))) }
    ensures { TagsAre (all_names s.now t.now) s.now t.now (walk_at s.now from) counts.old counts.new w.old w.new result }
{
    let mut c = Cursor {
        at: from,
        entry: 0,
        sets: 9,
        parts: 0,
        walls: 0,
        blocks: 0,
    };
    let mut j = 0;
    loop {
        if !few(c.parts, c.walls, c.blocks) {
            return None;
        }
        match check_at(s, t, w, counts, c, j) {
            Checked::Done => {
                return Some(j);
            }
            Checked::Unnamed => {
                return None;
            }
            Checked::Next(n, i) => {
                c = n;
                j = i;
            }
        }
    }
}

// Turns the number of records of each kind into the place where the kind begins, and returns the number of all; none if these are more than `cap`.
pub fn begin(counts: &mut [usize; 19], cap: usize) -> Option<usize>
    ensures { Sums counts.old counts.new cap result }
{
    let mut sum = 0;
    for k in 1..KINDS {
        let n = counts[k];
        if cap - sum < n {
            return None;
        }
        counts[k] = sum;
        sum += n;
    }
    Some(sum)
}

// Writes the record of the next tag to the next place of its kind, and returns the position after the tag; none if there is no further one.
fn write_at(texts: Texts, next: &mut [usize; 19], out: &mut [u8], c: Cursor) -> Option<Cursor>
    requires { (Holds texts.policy.now texts.lines.now texts.scratch.now × (Stood texts.policy.now c × ((few_of (context_of c) ≡ true) × Led texts.policy.now (list_of texts.scratch.now) c))) × ((there_from (all_names texts.policy.now texts.lines.now) texts.policy.now c ≡ true) × TagsFit texts.policy.now c next.old out.old) }
    ensures { Writes (all_names texts.entry.policy.now texts.entry.lines.now) texts.entry.policy.now (list_of texts.entry.scratch.now) c next.old next.new out.old out.new result }
{
    let x = turn(texts.policy, texts.scratch, c)?;
    match x {
        Turned::Silent(n) => Some(n),
        Turned::Says {
            kind,
            number,
            end,
            next: behind,
        } => {
            let tag = StartTag {
                end,
                entry: behind.entry,
            };
            let f = said(texts, kind, number, tag)?;
            let k = kind as usize;
            let place = next[k];
            put(out, place, kind, f.n, f.a, f.b, f.c, f.m);
            next[k] = place + 1;
            Some(behind)
        }
    }
}

// Writes the records of all tags from `from` on by looking them up again.
fn write_tags(texts: Texts, next: &mut [usize; 19], out: &mut [u8], from: usize)
    requires { (Holds texts.policy.now texts.lines.now texts.scratch.now × (((from ≤ length texts.policy.now) × Leads texts.policy.now (list_of texts.scratch.now) 0 from) × Every SmallTag (walk_at texts.policy.now from))) × (((few_from start (walk_at texts.policy.now from) ≡ true) × (all_present (all_names texts.policy.now texts.lines.now) start (walk_at texts.policy.now from) ≡ true)) × FitsAll (walk_at texts.policy.now from) next.old out.old) }
    ensures { out.new ≡ fill (all_names texts.entry.policy.now texts.entry.lines.now) start (of next.old) (walk_at texts.entry.policy.now from) out.old }
{
    let mut c = Cursor {
        at: from,
        entry: 0,
        sets: 9,
        parts: 0,
        walls: 0,
        blocks: 0,
    };
    while let Some(n) = write_at(texts, next, out, c) {
        c = n;
    }
}

// ---- The kept records.

// Writes kept record j to the next place of its kind.
fn put_kept(w: &[u64], next: &mut [usize; 19], out: &mut [u8], j: usize)
    requires { (length w.now ≡ scratch_words) × ((j < kept_room) × ((kind_in w.now j < 19) × (16 * of next.old (kind_in w.now j) + 16 ≤ length out.old))) }
    ensures { PutsKept w.now j next.old next.new out.old out.new }
{
    let at = TABLES + 2 * j;
    let low = w[at];
    let high = w[at + 1];
    let k = (low % 256) as usize;
    let place = next[k];
    put_words(out, place, low, high);
    next[k] = place + 1;
}

// Writes the first n kept records.
fn write_kept(w: &[u64], next: &mut [usize; 19], out: &mut [u8], n: usize)
    requires { (length w.now ≡ scratch_words) × ((n ≤ kept_room) × Fitting w.now n (of next.old) out.old) }
    ensures { out.new ≡ written_to w.now n (of next.old) out.old }
{
    for j in 0..n {
        put_kept(w, next, out, j);
    }
}

// Writes the n records of all tags from `from` on: from the kept records, or by looking them up again if there was not room for all.
pub fn write_all(texts: Texts, next: &mut [usize; 19], out: &mut [u8], from: usize, n: usize)
    requires { ((Holds texts.policy.now texts.lines.now texts.scratch.now × (((from ≤ length texts.policy.now) × Leads texts.policy.now (list_of texts.scratch.now) 0 from) × Every SmallTag (walk_at texts.policy.now from))) × (((few_from start (walk_at texts.policy.now from) ≡ true) × (all_present (all_names texts.policy.now texts.lines.now) start (walk_at texts.policy.now from) ≡ true)) × FitsAll (walk_at texts.policy.now from) next.old out.old)) × Keeping (all_names texts.policy.now texts.lines.now) (walk_at texts.policy.now from) texts.scratch.now n }
    ensures { out.new ≡ fill (all_names texts.entry.policy.now texts.entry.lines.now) start (of next.old) (walk_at texts.entry.policy.now from) out.old }
{
    if KEPT < n {
        write_tags(texts, next, out, from);
        return;
    }
    write_kept(texts.scratch, next, out, n);
}
