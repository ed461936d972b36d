// Reads the tags of an accepted policy text one after another, and the values of their attributes. The text has been judged before, so these readers check no
// more than they need to. They are proved against paper_opl's pass from left to right (specs/Walk).
#![tactic(auto)]

ghost use Rattle.std.specs.Prelude.{◌≡◌, ◌+◌, ◌-◌, ◌≤◌, ◌<◌, length, drop};
ghost use Rattle.paper_lower.specs.Lists.Maybe.{just};
ghost use Rattle.paper_opl.specs.Reading.{after, behind};
ghost use Rattle.paper_opl.specs.Reading.Read.{got};
ghost use Rattle.paper_opl.specs.Naming.{value_of};
ghost use Rattle.paper_opl.specs.Walk.{plain as plain_of};
ghost use Rattle.opl_text.specs.Steps.{From};
ghost use Rattle.opl_table.specs.Numbers.{name_of};
ghost use Rattle.opl_tags.specs.Tags.{given as given_of, given_at, ReadsAttribute, Valued, shut as shutOf, next_tag, ReadsTag};

use opl_table::is_name;
use opl_text::{equals, first_not_by_eights, is_at, read_name, read_value, skip_misc, skip_space};

// An attribute, with its name from `from` to `end` and its value from `value` to the closing quote at `close`; or `Done`, the end of the start tag at its "/"
// or ">"; or `Stop`, if the text cannot be read.
#[derive(Clone, Copy)]
pub enum Attribute {
    Pair {
        from: usize,
        end: usize,
        value: usize,
        close: usize,
    },
    Done(usize),
    Stop,
}

// A part of the text, by its indices.
#[derive(Clone, Copy)]
pub struct Part {
    pub from: usize,
    pub to: usize,
}

// A start tag, with its name from `name` to `end`; or an end tag, with the index of its "/".
#[derive(Clone, Copy)]
pub enum Tag {
    Start { name: usize, end: usize },
    End(usize),
}

// Reads an attribute without judging it.
#[tactic(auto, using(crate::proofs::AttributeLaws::plain_unnamed, crate::proofs::AttributeLaws::plain_unequal, crate::proofs::AttributeLaws::plain_unvalued, crate::proofs::AttributeLaws::plain_pair))]
fn plain(s: &[u8], at: usize) -> Attribute
    requires { at ≤ length s.now }
    ensures { ReadsAttribute s.now at (after (plain_of (drop at s.now)) (λ g u. got (just g) u)) result }
{
    let Ok(end) = read_name(s, at) else {
        return Attribute::Stop;
    };
    let Ok(quote) = equals(s, end) else {
        return Attribute::Stop;
    };
    let Ok(close) = read_value(s, quote) else {
        return Attribute::Stop;
    };
    Attribute::Pair {
        from: at,
        end,
        value: quote + 1,
        close,
    }
}

// Reads the next attribute of a start tag.
#[tactic(auto, using(crate::proofs::AttributeLaws::given_done, crate::proofs::AttributeLaws::given_unspaced))]
pub fn given(s: &[u8], at: usize) -> Attribute
    requires { at ≤ length s.now }
    ensures { ReadsAttribute s.now at (given_of (drop at s.now)) result }
{
    let i = skip_space(s, at);
    if is_at(s, i, 62) | is_at(s, i, 47) {
        return Attribute::Done(i);
    }
    if i == at {
        return Attribute::Stop;
    }
    plain(s, i)
}

// The place of the value of an attribute, in the start tag whose name ends at `at`; an empty part if the attribute is not given.
pub fn value_place(s: &[u8], at: usize, id: u64) -> Part
    requires { at ≤ length s.now }
    ensures { Valued s.now (value_of (name_of id) (given_at s.now at)) result }
{
    let mut i = at;
    while i < s.len() {
        let Attribute::Pair {
            from,
            end,
            value,
            close,
        } = given(s, i)
        else {
            return Part { from: 0, to: 0 };
        };
        if is_name(&s[from..end], id) {
            return Part {
                from: value,
                to: close,
            };
        }
        i = close + 1;
    }
    Part { from: 0, to: 0 }
}

// The value itself.
pub fn value_of(s: &[u8], at: usize, id: u64) -> &[u8]
    requires { at ≤ length s.now }
    ensures { result.now ≡ value_of (name_of id) (given_at s.now at) }
{
    let p = value_place(s, at, id);
    let from = p.from;
    let to = p.to;
    &s[from..to]
}

// ---- Tags. In an accepted text "<" begins a tag or a comment, and occurs nowhere else but inside comments. So after the name of a tag it is enough to
// search for the next "<"; the attributes in between need not be read.

// Whether a byte cannot begin a tag.
fn shut(b: u8) -> bool
    ensures { result ≡ shutOf b }
{
    b != 60
}

// The index of the first "<" from `at` on, eight bytes at a time; the length of the text if there is none.
fn open_at(s: &[u8], at: usize) -> usize
    requires { at ≤ length s.now }
    ensures { From s.now (behind shutOf (drop at s.now)) result }
{
    first_not_by_eights(s, at, shut, shut)
}

// Reads the next tag from `at` on, up to the end of its name; `None` if there is no further tag.
#[tactic(auto, using(crate::proofs::TagLaws::read_on, crate::proofs::TagLaws::read_bad, crate::proofs::TagLaws::tag_unread, crate::proofs::TagLaws::tag_none, crate::proofs::TagLaws::tag_past, crate::proofs::TagLaws::tag_end))]
pub fn read_tag(s: &[u8], at: usize) -> Option<Tag>
    requires { at ≤ length s.now }
    ensures { ReadsTag s.now (next_tag (drop at s.now)) result }
{
    let o = open_at(s, at);
    let i = skip_misc(s, o).ok()?;
    if !is_at(s, i, 60) {
        return None;
    }
    let name = i + 1;
    if is_at(s, name, 47) {
        return Some(Tag::End(name));
    }
    let end = read_name(s, name).ok()?;
    Some(Tag::Start { name, end })
}
