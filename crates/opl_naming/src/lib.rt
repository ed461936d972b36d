// Declares the names of two accepted texts: five spaces by one pass over the tags, two by the task lines. The same pass makes the list of tags.
#![tactic(auto)]

ghost use Rattle.std.specs.Prelude.{◌≡◌, true, ◌≤◌, ◌<◌, length};
ghost use Rattle.paper_opl.specs.Naming.{lines};
ghost use Rattle.paper_opl.specs.Walk.{tags};
ghost use Rattle.opl_spaces.specs.Spaces.{scratch_words};
ghost use Rattle.opl_tags.specs.Tags.{walk_at};
ghost use Rattle.opl_line_names.specs.Names.{attribute_of, accepted};
ghost use Rattle.opl_naming.specs.Naming.{space_by, AllSound, Goes, Fills, AllEmptied, Names};

use opl_line_names::{LongName, declare_lines};
use opl_spaces::{BY_TAGS, LIST, LONGEST_NAME, OBJECTS, SPACES, TASKS, TEMPLATES, declare};
use opl_table::{
    OBJECT, OBJECT_ID, OPERATION_ID, PARTITION_OBJECT, PERMISSION_ID, ROLE_ID, USER, USER_ID,
};
use opl_tags::{Tag, read_tag, value_place};
use opl_turns::{element, enter};

// The attribute that declares a name of space i.
#[tactic(auto, unfolding(opl_line_names::specs::Names::attribute_of))]
fn attribute(i: usize) -> u64
    requires { i < 5 }
    ensures { result ≡ attribute_of i }
{
    match i {
        0 => USER_ID,
        1 => ROLE_ID,
        2 => PERMISSION_ID,
        3 => OPERATION_ID,
        _ => OBJECT_ID,
    }
}

// The space in which an element declares a name; BY_TAGS if it declares none.
fn space(e: u64) -> usize
    ensures { result ≡ space_by e }
{
    if e == PARTITION_OBJECT {
        return OBJECTS;
    }
    if e < USER {
        return BY_TAGS;
    }
    if OBJECT < e {
        return BY_TAGS;
    }
    (e - USER) as usize
}

// Goes over the next tag from `at` on: lists it, and declares its name if it declares one. Returns the index to go on from; none if there is no further tag.
fn declare_tag(s: &[u8], w: &mut [u64], at: usize) -> Result<Option<usize>, LongName>
    requires { (length w.old ≡ scratch_words) × (AllSound s.now w.old × (at ≤ length s.now)) }
    ensures { Goes s.now at w.old w.new result }
{
    let Some(t) = read_tag(s, at) else {
        return Ok(None);
    };
    match t {
        Tag::End(next) => Ok(Some(next)),
        Tag::Start { name, end } => {
            let e = element(&s[name..end]);
            enter(s, w, end, e);
            let i = space(e);
            if BY_TAGS <= i {
                return Ok(Some(end));
            }
            let v = value_place(s, end, attribute(i));
            let from = v.from;
            let size = v.to - from;
            if LONGEST_NAME < size {
                return Err(LongName);
            }
            declare(s, w, i, from, size);
            Ok(Some(end))
        }
    }
}

// Goes over all tags from `from` on.
fn declare_tags(s: &[u8], w: &mut [u64], from: usize) -> Result<(), LongName>
    requires { (length w.old ≡ scratch_words) × (AllSound s.now w.old × (from ≤ length s.now)) }
    ensures { Fills s.now from w.old w.new result }
{
    let mut at = from;
    while let Some(next) = declare_tag(s, w, at)? {
        at = next;
    }
    Ok(())
}

// Empties all spaces and the list of tags, whatever the words were.
fn empty_all(w: &mut [u64])
    requires { length w.old ≡ scratch_words }
    ensures { AllEmptied w.old w.new }
{
    for i in 0..SPACES {
        opl_spaces::empty(w, i);
    }
    w[LIST] = 0;
}

// Declares the names of two accepted texts, and lists the tags of the first, which begin at `from`.
pub fn name_all(s: &[u8], t: &[u8], w: &mut [u64], from: usize) -> Result<(), LongName>
    requires { (length w.old ≡ scratch_words) × ((from ≤ length s.now) × ((tags s.now ≡ walk_at s.now from) × (accepted (lines (length t.now) t.now) ≡ true))) }
    ensures { Names s.now t.now from w.new result }
{
    empty_all(w);
    declare_tags(s, w, from)?;
    declare_lines(t, w, TASKS)?;
    declare_lines(t, w, TEMPLATES)
}
