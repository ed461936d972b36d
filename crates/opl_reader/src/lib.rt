// Judges a policy text from left to right: attributes, tags, elements and their contents, prolog, document. A text is accepted as a whole or refused at a byte.
// It uses the readers of opl_text and the table of opl_table.
#![tactic(auto)]

ghost use Rattle.std.specs.Prelude.{◌≡◌, [], ◌∷◌, ◌+◌, ◌≤◌, length, drop};
ghost use Rattle.paper_opl.specs.Reading.{space as space_of};
ghost use Rattle.paper_opl.specs.Elements.{elements_of, row_in};
ghost use Rattle.paper_opl.specs.Elements.Class.{number};
ghost use Rattle.paper_opl.specs.Tree.{digit as digitOf, fits as fits_of, opening as openingOf, ending as endingOf, capital as capitalOf, is_encoding, pseudo as pseudoOf, optional as optionalOf, declaration as declarationOf, doctype as doctypeOf, behind_mark as behindMarkOf, declared as declared_of, prolog as prologOf, document_in};
ghost use Rattle.opl_text.specs.Steps.{From, Reads, step_of};
ghost use Rattle.opl_table.specs.Numbers.{name_of, left_of, list_of, class_of};
ghost use Rattle.opl_reader.specs.Grammar.{forget, classed, valued, remaining, attributes_read, Takes, Opens, Deepest, tagged_read, start_read, element_read, content_read, spaced_read, may_stand, typed_read, root_read, strange};

use opl_text::{BadByte, Step};

// What follows an attribute: the index of the next byte, and the list of attributes that may still be given.
#[derive(Clone, Copy, PartialEq, Eq)]
pub struct Taken {
    pub next: usize,
    pub list: u64,
}

// The start of an element: the index where it ends, the element's number, and the state after the element.
#[derive(Clone, Copy, PartialEq, Eq)]
pub struct Start {
    pub end: usize,
    pub id: u64,
    pub left: u64,
}

// A part of the XML declaration that has a value.
#[derive(Clone, Copy, PartialEq, Eq)]
enum Part {
    Version,
    Encoding,
    Standalone,
}

// Whether a byte is a decimal digit.
fn digit(b: u8) -> bool
    ensures { result ≡ digitOf b }
{
    (48 <= b) & (b <= 57)
}

// Whether a value is a number up to 255.
#[tactic(auto, using(crate::proofs::Numbers::number_steps))]
fn is_number(v: &[u8]) -> bool
    ensures { result ≡ fits_of number v.now }
{
    if v.len() == 0 {
        return false;
    }
    let mut n: u64 = 0;
    for b in v {
        if !digit(*b) {
            return false;
        }
        n = 10 * n + u64::from(*b - 48);
        if 255 < n {
            return false;
        }
    }
    true
}

// Whether a value fits the class of its attribute.
#[tactic(auto, using(crate::proofs::Numbers::empty_is, crate::proofs::Numbers::fits_any))]
fn of_class(class: u64, v: &[u8]) -> bool
    ensures { result ≡ fits_of (class_of class) v.now }
{
    match class {
        0 => v.len() != 0,
        1 => is_number(v),
        _ => true,
    }
}

// Reads white space of at least one byte.
#[tactic(auto, using(crate::proofs::Chain::space_not, crate::proofs::Chain::space_yes))]
pub fn space(s: &[u8], at: usize) -> Step
    requires { at ≤ length s.now }
    ensures { Reads s.now (step_of s.now) (space_of (drop at s.now)) result }
{
    let i = opl_text::skip_space(s, at);
    if i == at {
        return Err(BadByte { at });
    }
    Ok(i)
}

// Reads a value and judges it by its class; `more` is the attribute list after it.
#[tactic(auto, using(crate::proofs::Chain::value_inside, crate::proofs::Chain::drop_one), unfolding(crate::specs::Grammar::classed))]
fn class_value(s: &[u8], at: usize, class: u64, more: u64) -> Result<Taken, BadByte>
    requires { at ≤ length s.now }
    ensures { Takes s.now (classed (class_of class) (list_of more) (drop at s.now)) result }
{
    let end = opl_text::read_value(s, at)?;
    if !of_class(class, opl_text::quoted(s, at, end)) {
        return Err(BadByte { at: at + 1 });
    }
    Ok(Taken {
        next: end + 1,
        list: more,
    })
}

// The same with the "=" before the value.
#[tactic(auto, unfolding(crate::specs::Grammar::valued))]
fn attribute_value(s: &[u8], at: usize, class: u64, more: u64) -> Result<Taken, BadByte>
    requires { at ≤ length s.now }
    ensures { Takes s.now (valued (class_of class) (list_of more) (drop at s.now)) result }
{
    let value = opl_text::equals(s, at)?;
    class_value(s, value, class, more)
}

// Reads "=" and the value of an attribute that is not allowed, whose name is at `name`. It is refused there, after its whole value has been read.
#[tactic(auto, unfolding(crate::specs::Grammar::strange))]
fn strange_value(s: &[u8], at: usize, name: usize) -> Result<Taken, BadByte>
    requires { (at ≤ length s.now) × (name ≤ length s.now) }
    ensures { Takes s.now (strange (drop name s.now) (drop at s.now)) result }
{
    let value = opl_text::equals(s, at)?;
    opl_text::read_value(s, value)?;
    Err(BadByte { at: name })
}

// Reads an attribute, of those that `list` allows.
#[tactic(auto, using(crate::proofs::Attributes::remains, crate::proofs::Chain::name_room))]
pub fn attribute(s: &[u8], at: usize, list: u64) -> Result<Taken, BadByte>
    requires { at ≤ length s.now }
    ensures { Takes s.now (remaining (list_of list) (drop at s.now)) result }
{
    let end = opl_text::read_name(s, at)?;
    match opl_table::attribute(opl_text::part(s, at, end), list) {
        Some(known) => attribute_value(s, end, known.number, known.after),
        None => strange_value(s, end, at),
    }
}

// Reads attributes up to the "/" or ">" that ends the start tag. There no required attribute may be missing.
#[tactic(auto, using(crate::proofs::Attributes::tag_steps))]
fn attributes_end(s: &[u8], at: usize, list: u64) -> Step
    requires { at ≤ length s.now }
    ensures { Reads s.now (step_of s.now) (attributes_read (list_of list) (drop at s.now)) result }
{
    let mut i = at;
    let mut l = list;
    while i < s.len() {
        let j = opl_text::skip_space(s, i);
        if opl_text::is_at(s, j, 62) | opl_text::is_at(s, j, 47) {
            if opl_table::missing(l) {
                return Err(BadByte { at: j });
            }
            return Ok(j);
        }
        if j == i {
            return Err(BadByte { at: i });
        }
        let taken = attribute(s, j, l)?;
        i = taken.next;
        l = taken.list;
    }
    Err(BadByte { at: i })
}

// Reads the attributes of an element, in the table of the call.
pub fn tag_end(s: &[u8], at: usize, id: u64, all: bool) -> Step
    requires { at ≤ length s.now }
    ensures { Reads s.now (step_of s.now) (attributes_read (row_in (elements_of all) (name_of id)).attributes (drop at s.now)) result }
{
    attributes_end(s, at, opl_table::attributes(id, all))
}

// The depth that is still allowed and the choice of the call are passed as one number d: twice the depth, plus one for the wider call. That saves stack in the
// recursion of elements and contents. This is the number at the root of a document.
fn deepest(all: bool) -> usize
    ensures { Deepest all result }
{
    if all {
        return 17;
    }
    16
}

// Reads the "<" and name of an element at `at`, of those that the state `left` allows.
#[tactic(auto, using(crate::proofs::Tags::named_steps))]
fn named(s: &[u8], at: usize, left: u64) -> Result<Start, BadByte>
    requires { at ≤ length s.now }
    ensures { Opens s.now (openingOf (left_of left) (drop at s.now)) result }
{
    if !opl_text::is_at(s, at, 60) {
        return Err(BadByte { at });
    }
    if opl_text::is_at(s, at + 1, 33) | opl_text::is_at(s, at + 1, 63) {
        return Err(BadByte { at });
    }
    let end = opl_text::read_name(s, at + 1)?;
    match opl_table::next(opl_text::part(s, at + 1, end), left) {
        Some(known) => Ok(Start {
            end,
            id: known.number,
            left: known.after,
        }),
        None => Err(BadByte { at }),
    }
}

// Reads the rest of a start tag after its name, up to the "/" or ">" that ends it.
#[tactic(auto, using(crate::proofs::Tags::tag_deep, crate::proofs::Tags::tag_is))]
fn tagged(s: &[u8], at: usize, d: usize, id: u64, more: u64) -> Result<Start, BadByte>
    requires { at ≤ length s.now }
    ensures { Opens s.now (tagged_read d id more (drop at s.now)) result }
{
    if d < 2 {
        return Err(BadByte { at });
    }
    let end = tag_end(s, at, id, d % 2 == 1)?;
    Ok(Start {
        end,
        id,
        left: more,
    })
}

// Reads a start tag, up to the "/" or ">" that ends it.
#[tactic(auto, unfolding(crate::specs::Grammar::start_in, crate::specs::Grammar::tagged_in))]
pub fn opening(s: &[u8], at: usize, d: usize, left: u64) -> Result<Start, BadByte>
    requires { at ≤ length s.now }
    ensures { Opens s.now (start_read d (left_of left) (drop at s.now)) result }
{
    let name = named(s, at, left)?;
    tagged(s, name.end, d, name.id, name.left)
}

// Reads the end tag of the element `id`, whose content is in state `left`.
#[tactic(auto, using(crate::proofs::Tags::ending_steps))]
pub fn ending(s: &[u8], at: usize, id: u64, left: u64) -> Step
    requires { at + 2 ≤ length s.now }
    ensures { Reads s.now (step_of s.now) (forget (endingOf (name_of id) (left_of left) (drop at s.now))) result }
{
    let end = opl_text::read_name(s, at + 2)?;
    if !(opl_table::is_name(opl_text::part(s, at + 2, end), id) & opl_table::may_end(left)) {
        return Err(BadByte { at });
    }
    let i = opl_text::skip_space(s, end);
    if !opl_text::is_at(s, i, 62) {
        return Err(BadByte { at: i });
    }
    Ok(i + 1)
}

// Reads an element from the "/" or ">" of its start tag on. It and `content` call each other.
#[cycle(content_element)]
#[tactic(auto, using(crate::proofs::Cycle::element_steps))]
pub fn element(s: &[u8], at: usize, d: usize, id: u64) -> Step
    requires { at + 1 ≤ length s.now }
    ensures { Reads s.now (step_of s.now) (element_read d id (drop at s.now)) result }
{
    let left = opl_table::first(id, d % 2 == 1);
    if opl_text::is_at(s, at, 62) {
        return content(s, at + 1, d, id, left);
    }
    if !opl_text::is_at(s, at + 1, 62) {
        return Err(BadByte { at: at + 1 });
    }
    if !opl_table::may_end(left) {
        return Err(BadByte { at });
    }
    Ok(at + 2)
}

// Reads the content of an element, including its end tag.
#[cycle(content_element)]
#[tactic(auto, using(crate::proofs::Cycle::content_steps))]
pub fn content(s: &[u8], at: usize, d: usize, id: u64, left: u64) -> Step
    requires { at ≤ length s.now }
    ensures { Reads s.now (step_of s.now) (content_read d id left (drop at s.now)) result }
{
    let mut i = at;
    let mut l = left;
    while i < s.len() {
        let j = opl_text::skip_misc(s, i)?;
        if opl_text::is_at(s, j, 60) & opl_text::is_at(s, j + 1, 47) {
            return ending(s, j, id, l);
        }
        let start = opening(s, j, d, l)?;
        i = element(s, start.end, d - 2, start.id)?;
        l = start.left;
    }
    Err(BadByte { at: i })
}

// An ASCII letter as a capital.
fn capital(b: u8) -> u8
    ensures { result ≡ capitalOf b }
{
    if (97 <= b) & (b <= 122) {
        return b - 32;
    }
    b
}

// Whether a value is "UTF-8", in any mixture of capitals and small letters.
#[tactic(auto, using(crate::proofs::Encoding::encoding_not, crate::proofs::Encoding::encoding_is))]
fn is_encoding(v: &[u8]) -> bool
    ensures { result ≡ is_encoding v.now }
{
    if v.len() != 5 {
        return false;
    }
    let letters = (capital(v[0]) == 85) & (capital(v[1]) == 84) & (capital(v[2]) == 70);
    letters & (capital(v[3]) == 45) & (capital(v[4]) == 56)
}

// Whether a value is allowed in this part of the XML declaration.
#[tactic(auto, unfolding(paper_opl::specs::Reading::text))]
fn may_stand(part: Part, v: &[u8]) -> bool
    ensures { result ≡ may_stand part v.now }
{
    match part {
        Part::Version => opl_text::same_bytes(v, b"1.0"),
        Part::Encoding => is_encoding(v),
        Part::Standalone => opl_text::same_bytes(v, b"yes") | opl_text::same_bytes(v, b"no"),
    }
}

// Reads the literal w, "=", and a value that is allowed for it.
#[tactic(auto, using(crate::proofs::Chain::value_inside, crate::proofs::Chain::drop_one))]
fn pseudo(s: &[u8], at: usize, w: &[u8], part: Part) -> Step
    requires { at ≤ length s.now }
    ensures { Reads s.now (step_of s.now) (pseudoOf w.now (may_stand part) (drop at s.now)) result }
{
    let i = opl_text::expect(s, at, w)?;
    let u = opl_text::equals(s, i)?;
    let end = opl_text::read_value(s, u)?;
    if !may_stand(part, opl_text::quoted(s, u, end)) {
        return Err(BadByte { at: u + 1 });
    }
    Ok(end + 1)
}

// The same after white space, if the first letter of the literal follows there; otherwise reads nothing.
#[tactic(auto, using(crate::proofs::Prologue::same_place), unfolding(paper_opl::specs::Tree::optional))]
fn optional(s: &[u8], at: usize, letter: u8, w: &[u8], part: Part) -> Step
    requires { at ≤ length s.now }
    ensures { Reads s.now (step_of s.now) (optionalOf (letter ∷ []) w.now (may_stand part) (drop at s.now)) result }
{
    let j = opl_text::skip_space(s, at);
    if !(opl_text::is_at(s, j, letter) & (j != at)) {
        return Ok(at);
    }
    pseudo(s, j, w, part)
}

// Reads the XML declaration after "<?xml".
#[tactic(auto, unfolding(paper_opl::specs::Tree::declaration, paper_opl::specs::Reading::text))]
fn declaration(s: &[u8], at: usize) -> Step
    requires { at ≤ length s.now }
    ensures { Reads s.now (step_of s.now) (declarationOf (drop at s.now)) result }
{
    let i = space(s, at)?;
    let version = pseudo(s, i, b"version", Part::Version)?;
    let encoding = optional(s, version, 101, b"encoding", Part::Encoding)?;
    let standalone = optional(s, encoding, 115, b"standalone", Part::Standalone)?;
    let end = opl_text::skip_space(s, standalone);
    opl_text::expect(s, end, b"?>")
}

// Reads white space and a literal.
#[tactic(auto, unfolding(crate::specs::Grammar::spaced_read))]
fn spaced(s: &[u8], at: usize, w: &[u8]) -> Step
    requires { at ≤ length s.now }
    ensures { Reads s.now (step_of s.now) (spaced_read w.now (drop at s.now)) result }
{
    let i = space(s, at)?;
    opl_text::expect(s, i, w)
}

// Reads the DOCTYPE after "<!DOCTYPE".
#[tactic(auto, using(crate::proofs::Chain::value_inside))]
fn doctype(s: &[u8], at: usize) -> Step
    requires { at ≤ length s.now }
    ensures { Reads s.now (step_of s.now) (doctypeOf (drop at s.now)) result }
{
    let root = spaced(s, at, b"policy_object")?;
    let system = spaced(s, root, b"SYSTEM")?;
    let u = space(s, system)?;
    let end = opl_text::read_value(s, u)?;
    let k = opl_text::skip_space(s, end + 1);
    opl_text::expect(s, k, b">")
}

// The index after the byte order mark, or 0 if there is none.
#[tactic(auto, using(crate::proofs::Prologue::mark_room), unfolding(paper_opl::specs::Tree::behind_mark))]
pub fn behind_mark(s: &[u8]) -> usize
    ensures { From s.now (behindMarkOf s.now) result }
{
    if opl_text::starts_with(s, 0, b"\xef\xbb\xbf") {
        return 3;
    }
    0
}

// Reads the XML declaration, if it begins at `at`.
#[tactic(auto, using(crate::proofs::Prologue::declared_steps), unfolding(paper_opl::specs::Tree::declared, paper_opl::specs::Reading::text))]
fn declared(s: &[u8], at: usize) -> Step
    requires { at ≤ length s.now }
    ensures { Reads s.now (step_of s.now) (declared_of (drop at s.now)) result }
{
    if !opl_text::starts_with(s, at, b"<?xml") {
        return Ok(at);
    }
    let from = at + 5;
    let i = opl_text::skip_space(s, from);
    if i == from {
        return Ok(at);
    }
    declaration(s, from)
}

// Reads the DOCTYPE, if it begins at `at`, and the white space and comments after it.
#[tactic(auto, using(crate::proofs::Prologue::typed_steps), unfolding(crate::specs::Grammar::typed_read, paper_opl::specs::Reading::text))]
fn typed(s: &[u8], at: usize) -> Step
    requires { at ≤ length s.now }
    ensures { Reads s.now (step_of s.now) (typed_read (drop at s.now)) result }
{
    if !opl_text::starts_with(s, at, b"<!DOCTYPE") {
        return Ok(at);
    }
    let i = doctype(s, at + 9)?;
    opl_text::skip_misc(s, i)
}

// Reads everything before the policy object.
#[tactic(auto, unfolding(paper_opl::specs::Tree::prolog, crate::specs::Grammar::typed_read))]
pub fn prolog(s: &[u8]) -> Step
    ensures { Reads s.now (step_of s.now) (prologOf s.now) result }
{
    let i = declared(s, behind_mark(s))?;
    let u = opl_text::skip_misc(s, i)?;
    typed(s, u)
}

// Reads the policy object from the end of its start tag on, and the end of the text after it.
#[tactic(auto, using(crate::proofs::Prologue::some_left, crate::proofs::Prologue::none_left), unfolding(crate::specs::Grammar::root_in))]
fn root(s: &[u8], at: usize, d: usize, id: u64) -> Step
    requires { at + 1 ≤ length s.now }
    ensures { Reads s.now (step_of s.now) (root_read d id (drop at s.now)) result }
{
    let i = element(s, at, d, id)?;
    let j = opl_text::skip_misc(s, i)?;
    if j < s.len() {
        return Err(BadByte { at: j });
    }
    Ok(j)
}

// Judges a whole policy text with the table of the call. `Ok` holds its length if it is accepted; `Err` holds the index, from 0, of the byte that is not
// allowed.
#[tactic(auto, using(crate::proofs::Prologue::document_steps))]
pub fn document(s: &[u8], all: bool) -> Step
    ensures { Reads s.now (step_of s.now) (forget (document_in all s.now)) result }
{
    let i = prolog(s)?;
    let d = deepest(all);
    let start = opening(s, i, d, 1)?;
    root(s, start.end, d - 2, start.id)
}
