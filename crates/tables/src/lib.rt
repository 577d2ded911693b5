// Tables of ternary strings: the table value with its limits, the refusals, and the check of a table value.
#![tactic(auto)]

ghost use Rattle.std.specs.Prelude.{◌≡◌, cond, [], ◌∷◌, ◌≤◌};
ghost use Rattle.model.specs.Strings.{stars};
ghost use Rattle.tables.specs.Refusals.{refusal_number, answer_number, Accepted};
ghost use Rattle.tables.specs.Values.{zeros_of, zero_table, accepts, refuses, good_width, check_table, GoodTable};
ghost use Rattle.tables.specs.Values.{of_width, all_clean, zero_past};

// A table value: l variables, n entries in order, and zeros past the count. Bit i - 1 of a word is for Xi. Two arrays, since
// C has them so; no more derives, since nothing compares or prints 2 KiB.
#[repr(C)]
#[derive(Clone, Copy)]
pub struct Table {
    pub l: u32,
    pub n: usize,
    pub care: [u32; 256],
    pub value: [u32; 256],
}

// Why a call is refused.
#[derive(Clone, Copy, Debug, PartialEq, Eq)]
pub enum Refusal {
    Torn,
    Width,
    Entries,
    Stray,
    Name,
    Term,
    Long,
    Full,
    Narrow,
    Unlike,
    Keep,
    Digit,
}

// An answer with the table that goes with it. No `Result<Table, Refusal>`: a refusal hands back the table that came in (the
// clause of `operations::equation`, theorems of `demands/specs/Demand3`). It derives what `Table` does.
#[derive(Clone, Copy)]
pub struct Answered {
    pub answer: Result<(), Refusal>,
    pub table: Table,
}

// The number of a refusal.
impl From<Refusal> for u32 {
    ghost from_gives = { λ r number. number ≡ refusal_number r };

    fn from(r: Refusal) -> u32 {
        match r {
            Refusal::Torn => 1,
            Refusal::Width => 2,
            Refusal::Entries => 3,
            Refusal::Stray => 4,
            Refusal::Name => 5,
            Refusal::Term => 6,
            Refusal::Long => 7,
            Refusal::Full => 8,
            Refusal::Narrow => 9,
            Refusal::Unlike => 10,
            Refusal::Keep => 11,
            Refusal::Digit => 12,
        }
    }
}

// The number of an answer, for C: 0 where accepted. No `From`: neither type is ours.
pub fn answer_number(a: Result<(), Refusal>) -> u32
    ensures { result ≡ answer_number a }
{
    match a {
        Ok(()) => 0,
        Err(r) => u32::from(r),
    }
}

impl Table {
    // The most entries of a table.
    pub const ENTRIES: usize = 256;

    // The most variables of a table.
    pub const VARIABLES: u32 = 32;

    // The table that a refusal returns where none came in.
    pub fn zero() -> Table
        ensures { result ≡ zero_table }
    {
        Table {
            l: 0,
            n: 0,
            care: [0; 256],
            value: [0; 256],
        }
    }

    // The empty table of l variables.
    pub fn empty(l: u32) -> Answered
        ensures { result ≡ of_width l [] }
    {
        of_zeros(l, 0)
    }

    // The table of l variables whose one entry is all `*`: its two words are 0.
    pub fn all_star(l: u32) -> Answered
        ensures { result ≡ of_width l (stars l ∷ []) }
    {
        of_zeros(l, 1)
    }
}

// Is l one of 1 to 32?
pub fn good_width(l: u32) -> bool
    ensures { result ≡ good_width l }
{
    (0 < l) & (l <= Table::VARIABLES)
}

// The table of l variables with a count of n and all words 0, or 2 for a bad width.
fn of_zeros(l: u32, n: usize) -> Answered
    ensures { result ≡ cond (good_width l) (accepts (zeros_of l n)) (refuses Refusal.Width zero_table) }
{
    if !good_width(l) {
        return refused(Refusal::Width);
    }
    Answered {
        answer: Ok(()),
        table: Table {
            l: l,
            n: n,
            care: [0; 256],
            value: [0; 256],
        },
    }
}

// A refusal where no table value came in. Inner: not a public call.
pub fn refused(r: Refusal) -> Answered
    ensures { result ≡ refuses r zero_table }
{
    Answered {
        answer: Err(r),
        table: Table::zero(),
    }
}

// Has none of the first n entries a bit above l or a value without care? Both arrays, in step. Inner: not a public call.
pub fn all_clean<'a>(care: &'a [u32; 256], value: &'a [u32; 256], n: usize, l: u32) -> bool
    requires { (n ≤ 256) × (l ≤ 32) }
    ensures { result ≡ all_clean l n care.now value.now }
{
    let full = words::full(l);
    let mut good = true;
    for (&c, &v) in care[..n].iter().zip(&value[..n]) {
        good &= (c <= full) & ((v & c) == v);
    }
    good
}

// Are the entries past the first n zero? What any of their words has, of both arrays in step, is gathered, and asked for
// once.
fn zero_past<'a>(care: &'a [u32; 256], value: &'a [u32; 256], n: usize) -> bool
    requires { n ≤ 256 }
    ensures { result ≡ zero_past n care.now value.now }
{
    let mut some = 0u32;
    for (&c, &v) in care[n..].iter().zip(&value[n..]) {
        some |= c | v;
    }
    some == 0
}

// Does a table value that is lent meet 2, 3 or 4? Inner: not a public call.
pub fn check_parts(t: &Table) -> Result<(), Refusal>
    ensures answer { result ≡ check_table t.now }
    ensures good { (result ≡ Accepted → GoodTable t.now) × (GoodTable t.now → result ≡ Accepted) }
{
    // As slices their length is known.
    let cares: &[u32] = &t.care;
    let values: &[u32] = &t.value;
    if !good_width(t.l) {
        return Err(Refusal::Width);
    }
    if Table::ENTRIES < t.n {
        return Err(Refusal::Entries);
    }
    if !all_clean(&t.care, &t.value, t.n, t.l) {
        return Err(Refusal::Stray);
    }
    if !zero_past(&t.care, &t.value, t.n) {
        return Err(Refusal::Stray);
    }
    Ok(())
}

// Does the table value meet 2, 3 or 4?
pub fn check(t: Table) -> Result<(), Refusal>
    ensures answer { result ≡ check_table t }
    ensures good { (result ≡ Accepted → GoodTable t) × (GoodTable t → result ≡ Accepted) }
{
    check_parts(&t)
}
