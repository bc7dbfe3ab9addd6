// What a test of the input comes to: the lowest place at which it applies, and the refusal.
#![tactic(auto)]

ghost use Rattle.std.specs.Prelude.{◌≡◌};
ghost use Rattle.refusal_verdict.specs.Refusals.{number, number_of, place_of, needed_of};
ghost use Rattle.refusal_verdict.specs.Verdict.{Passed, or_next};

// The refusals, numbered as documents 01 and 02 do. They are looked for in another order: 1, 2, 3, 4, 5 (scope records, then nodes), 13, 14, 6, 15,
// and then as each call says.
#[derive(Clone, Copy, Debug, PartialEq, Eq)]
pub enum Refusal {
    // 0. A line that can't be read; the two programs alone tell it.
    Unread,
    // 1. A table or a text is too short, too long or not whole; no such source type.
    Sizes,
    // 2. A node's kind, role, flags or extra is not listed.
    Unlisted,
    // 3. The nodes are no tree in preorder, or it is too deep.
    Tree,
    // 4. A span or a name lies outside its bytes.
    Bytes,
    // 5. A scope is missing, broken, or not of the node that uses it.
    Scopes,
    // 6. A walk from a Super that the Rust ends in a failure.
    Walk,
    // 7. What is named as unit is none.
    Unit,
    // 8 is no longer given: units that hold a Try have routes.
    // 9. The tree has findings, or a jump without a target.
    Findings,
    // 10. The findings slice is too short.
    FindingsSlice,
    // 11. The code slice is too short.
    CodeSlice,
    // 12. The route slice is too short.
    RouteSlice,
    // 13. A node under a parent that may not hold it, or of a kind or role that this parent doesn't take.
    Misplaced,
    // 14. A child missing or too many, at the parent.
    WrongCount,
    // 15. A Return whose nearest unit is a static block.
    ReturnInStatic,
    // 16. A mark above 7, or one taken up that is not set.
    Mark,
    // 17. A mark taken up holds a place where no instruction of the unit's code begins.
    MarkPlace,
    // 18. The numbers of a lent code slice are no code.
    NoCode,
    // 19. A label that the reserved-word check looks for, or a 700th different label.
    Label,
    // 20. A slice for the renamed tables is too short, or their names are above 1,048,576 bytes.
    RenamedSlices,
}

// Why a call turns its input down: a refusal with its place; or a lent slice that is too short, with the length needed (its place is 0).
#[derive(Clone, Copy, Debug, PartialEq, Eq)]
pub enum Refused {
    At(Refusal, u32),
    Short(Refusal, u64),
}

impl Refusal {
    // The number that documents 01 and 02 give it.
    pub fn number(self) -> u32
        ensures { result ≡ number self }
    {
        match self {
            Refusal::Unread => 0,
            Refusal::Sizes => 1,
            Refusal::Unlisted => 2,
            Refusal::Tree => 3,
            Refusal::Bytes => 4,
            Refusal::Scopes => 5,
            Refusal::Walk => 6,
            Refusal::Unit => 7,
            Refusal::Findings => 9,
            Refusal::FindingsSlice => 10,
            Refusal::CodeSlice => 11,
            Refusal::RouteSlice => 12,
            Refusal::Misplaced => 13,
            Refusal::WrongCount => 14,
            Refusal::ReturnInStatic => 15,
            Refusal::Mark => 16,
            Refusal::MarkPlace => 17,
            Refusal::NoCode => 18,
            Refusal::Label => 19,
            Refusal::RenamedSlices => 20,
        }
    }

    // The refusal of what a test found: none where there is no place.
    pub fn at(self, place: Option<u32>) -> Result<(), Refused>
        ensures { result ≡ or_next self place Passed }
    {
        match place {
            Some(p) => Err(Refused::At(self, p)),
            None => Ok(()),
        }
    }
}

impl Refused {
    // The number of its refusal.
    pub fn number(self) -> u32
        ensures { result ≡ number_of self }
    {
        match self {
            Refused::At(refusal, _) => refusal.number(),
            Refused::Short(refusal, _) => refusal.number(),
        }
    }

    pub fn place(self) -> u32
        ensures { result ≡ place_of self }
    {
        match self {
            Refused::At(_, place) => place,
            Refused::Short(_, _) => 0,
        }
    }

    // The length needed where a slice is too short, and else 0.
    pub fn needed(self) -> u64
        ensures { result ≡ needed_of self }
    {
        match self {
            Refused::At(_, _) => 0,
            Refused::Short(_, needed) => needed,
        }
    }
}
