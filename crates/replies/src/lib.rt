// Refusals by name and number, and the replies and answers that have them (docs/RULES.md, "The replies").
#![tactic(auto)]

ghost use Rattle.std.specs.Prelude.{◌≡◌, eqb};
ghost use Rattle.replies.specs.Replies.{number_of, refusal_number, placeless, outcome_reply, outcome_place, plain};

// Why a load or a request is refused.
#[derive(Clone, Copy, PartialEq, Eq)]
pub enum Refusal {
    Room,
    Shape,
    Range,
    Unknown,
    Taken,
    InUse,
    Rule,
    NotAssigned,
    Static,
    Dynamic,
    NoRole,
    NotYours,
    Denied,
    Before,
    Separation,
    Block,
    Alone,
    Bound,
    Count,
    Full,
    Loop,
    Wall,
}

// The reply to a load or a request: granted, or the first refusal.
pub type Reply = Result<(), Refusal>;

// The number of a refusal in the table of docs/RULES.md.
impl From<Refusal> for u64 {
    ghost from_gives = { λ x r. r ≡ refusal_number x };

    fn from(refusal: Refusal) -> u64 {
        match refusal {
            Refusal::Room => 1,
            Refusal::Shape => 2,
            Refusal::Range => 3,
            Refusal::Unknown => 4,
            Refusal::Taken => 5,
            Refusal::InUse => 6,
            Refusal::Rule => 7,
            Refusal::NotAssigned => 8,
            Refusal::Static => 9,
            Refusal::Dynamic => 10,
            Refusal::NoRole => 11,
            Refusal::NotYours => 12,
            Refusal::Denied => 13,
            Refusal::Before => 14,
            Refusal::Separation => 15,
            Refusal::Block => 16,
            Refusal::Alone => 17,
            Refusal::Bound => 18,
            Refusal::Count => 19,
            Refusal::Full => 20,
            Refusal::Loop => 23,
            Refusal::Wall => 24,
        }
    }
}

// The number of a reply: 0 for granted.
pub fn number(r: Reply) -> u64
    ensures { result ≡ number_of r }
{
    match r {
        Ok(()) => 0,
        Err(refusal) => u64::from(refusal),
    }
}

// Whether a reply is 0, which means accepted or granted.
pub fn accepted(r: Reply) -> bool
    ensures { result ≡ eqb (number_of r) 0 }
{
    r.is_ok()
}

// A refusal, with the place of the record or the rule that it is about; 0 if it is about none.
#[derive(Clone, Copy, PartialEq, Eq)]
pub struct Refused {
    pub refusal: Refusal,
    pub place: u64,
}

// The outcome of a load or a request that can name a place: granted, or the first refusal with its place.
pub type Outcome = Result<(), Refused>;

// A refusal that is about no place.
impl From<Refusal> for Refused {
    ghost from_gives = { λ x r. r ≡ placeless x };

    fn from(refusal: Refusal) -> Refused {
        Refused { refusal, place: 0 }
    }
}

// The reply of an outcome, without its place.
pub fn reply(o: Outcome) -> Reply
    ensures { result ≡ outcome_reply o }
{
    match o {
        Ok(()) => Ok(()),
        Err(refused) => Err(refused.refusal),
    }
}

// The place of an outcome: 0 if it is granted.
pub fn place(o: Outcome) -> u64
    ensures { result ≡ outcome_place o }
{
    match o {
        Ok(()) => 0,
        Err(refused) => refused.place,
    }
}

// A reply as an outcome.
pub fn plain(r: Reply) -> Outcome
    ensures { result ≡ plain r }
{
    match r {
        Ok(()) => Ok(()),
        Err(refusal) => Err(Refused::from(refusal)),
    }
}
