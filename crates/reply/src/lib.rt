// The refusals of documents 01 and 02, each with its number there. New ones stand at the end.
#![tactic(auto)]

ghost use Rattle.std.specs.Prelude.{◌≡◌};
ghost use Rattle.reply.specs.Numbers.{number_of};

#[derive(Clone, Copy, Debug, PartialEq, Eq)]
pub enum Refusal {
    // Caused by the console.
    DegreeRange = 1,
    PositionRange = 2,
    WalkRecord = 3,
    SliceLength = 4,
    SiteRange = 5,
    // Caused by who chooses polynomials.
    CodeDegree = 6,
    ConstantTerm = 7,
    CommonFactor = 8,
    // Caused by who writes the file.
    FileEnds = 9,
    NumberForm = 10,
    Version = 11,
    SheetDegree = 12,
    LevelRange = 13,
    LevelRepeated = 14,
    NameLength = 15,
    NameByte = 16,
    TrailingBytes = 17,
    // Caused by the console.
    MarkRange = 18,
    MarkEmpty = 19,
    BonderRange = 20,
    BonderFull = 21,
    // Caused by who makes a sheet to check.
    OrderRange = 26,
    SymbolRange = 27,
    NotGraecoLatin = 28,
    // Caused by who stores a saved walk.
    SavedKind = 22,
    CountRange = 23,
}

impl Refusal {
    // The number that documents 01 and 02 give for the refusal.
    pub fn number(self) -> u32
        ensures { result ≡ number_of self }
    {
        self as u32
    }
}
