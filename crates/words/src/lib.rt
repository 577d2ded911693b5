// A ternary string as one word, and the operations on it. Inner: not a public call.
// The zeros of a string are the high half of its word, its ones the low half; that serves every width from 1 to 32.
// Each contract says what comes out for any words, and for the words of strings of any one length to 32 that it is the
// model's operation.
#![tactic(auto)]

ghost use Rattle.std.specs.Prelude.{◌≡◌, ◌-◌, ◌^◌, ◌<◌, ◌≤◌, true, false, map, length, ◌==◌, bit_or, count_ones, nat_lt};
ghost use Rattle.model.specs.Groups.{Bits, cut as cut_string};
ghost use Rattle.model.specs.Strings.{Trits, subsumes as subsumes_string, matches as matches_string, meet as meet_string};
ghost use Rattle.model.specs.Strings.{or_strings, all_zero, fixed as fixed_string, fixed_count, flipped as flipped_string};
ghost use Rattle.model.specs.Strings.{flip, starred as starred_string, opposed as opposed_string};
ghost use Rattle.model.specs.Stirring.{stirs as stirs_string};
ghost use Rattle.model.specs.Widest.{opposed_count};
ghost use Rattle.words.specs.Words.{entry as entry_string, word as word_string, set_word, word_of, entry_of, fixed_word};
ghost use Rattle.words.specs.Words.{care_of, subsumes_word, matches_word, or_word, zero_word, starless as starless_string};
ghost use Rattle.words.specs.Words.{both as both_halves, flipped_word, starred_word, opposite_word, opposed_word, lacks_word};
ghost use Rattle.words.specs.Words.{lone, near as near_string, openings as openings_string, openings_of, gather, cut_word};
ghost use Rattle.words.specs.Words.{clash_word, shade_word, lone_lack, if_over};

// A half has 32 bits: it is one of so many numbers.
pub const HALF: u64 = 4294967296;

// All 32 bits of the low half.
pub const LOW: u64 = 4294967295;

// As a table has a string: bit i of `care` is 1 where position i is fixed; bit i of `value` is its value there, and 0 where
// it is `*`.
#[derive(Clone, Copy, Debug, PartialEq, Eq)]
pub struct Entry {
    pub care: u32,
    pub value: u32,
}

// The word of the string with this care and value.
impl From<Entry> for u64 {
    ghost from_gives = { λ e a. (a ≡ word_of e) × ((s : Trits) → e ≡ entry_string s → a ≡ word_string s) };

    fn from(e: Entry) -> u64 {
        let z = e.care ^ e.value;
        ((z as u64) << 32) | (e.value as u64)
    }
}

// The care and value of the string with this word.
impl From<u64> for Entry {
    ghost from_gives = { λ a e. (e ≡ entry_of a)
        × ((s : Trits) → length s ≤ 32 → a ≡ word_string s → e ≡ entry_string s) };

    fn from(a: u64) -> Entry {
        let c = fixed(a);
        Entry {
            care: c as u32,
            value: (a % HALF) as u32,
        }
    }
}

// The set of fixed positions.
pub fn fixed(a: u64) -> u64
    ensures words { result ≡ fixed_word a }
    ensures below { result < 2 ^ 32 }
    ensures strings { (s : Trits) → length s ≤ 32 → a ≡ word_string s → result ≡ care_of s }
{
    (a >> 32) | (a % HALF)
}

// Does a cover all that b covers?
pub fn subsumes(a: u64, b: u64) -> bool
    ensures words { result ≡ subsumes_word a b }
    ensures strings { (s t : Trits) → length s ≡ length t → length s ≤ 32 → a ≡ word_string s → b ≡ word_string t
        → result ≡ subsumes_string s t }
{
    ((a & b) ^ a) == 0
}

// Are a and b equal at each position, or is one `*`?
pub fn matches(a: u64, b: u64) -> bool
    ensures words { result ≡ matches_word a b }
    ensures strings { (s t : Trits) → length s ≡ length t → length s ≤ 32 → a ≡ word_string s → b ≡ word_string t → result ≡ matches_string s t }
{
    let m = a | b;
    ((m >> 32) & (m % HALF)) == 0
}

// Are a and b opposed, one 0 and the other 1, at no more than one position?
pub fn opposed_once(a: u64, b: u64) -> bool
    ensures words { result ≡ lone (clash_word a b) }
    ensures strings { (s t : Trits) → length s ≡ length t → length s ≤ 32 → a ≡ word_string s → b ≡ word_string t
        → result ≡ nat_lt (opposed_count s t) 2 }
{
    let m = a | b;
    let d = (m >> 32) & (m % HALF);
    (d & std::num::wrapping_sub_u64(d, 1)) == 0
}

// The meet of strings that match.
pub fn meet(a: u64, b: u64) -> u64
    ensures words { result ≡ bit_or a b }
    ensures strings { (s t : Trits) → length s ≡ length t → length s ≤ 32 → a ≡ word_string s → b ≡ word_string t
        → matches_string s t ≡ true → result ≡ word_string (meet_string s t) }
{
    a | b
}

// "a or b".
pub fn or(a: u64, b: u64) -> u64
    ensures words { result ≡ or_word a b }
    ensures strings { (s t : Trits) → length s ≡ length t → length s ≤ 32 → a ≡ word_string s → b ≡ word_string t
        → result ≡ word_string (or_strings s t) }
{
    (((a >> 32) & (b >> 32)) << 32) | ((a | b) % HALF)
}

// The word of the all-zero string of l positions.
pub fn zero(l: u32) -> u64
    requires { l ≤ 32 }
    ensures words { result ≡ zero_word l }
    ensures strings { (s : Trits) → length s ≡ l → all_zero s ≡ true → result ≡ word_string s }
{
    ((1u64 << l) - 1) << 32
}

// Is a the all-zero string of l positions?
pub fn is_zero(l: u32, a: u64) -> bool
    requires { l ≤ 32 }
    ensures words { result ≡ (a == zero_word l) }
    ensures strings { (s : Trits) → length s ≡ l → a ≡ word_string s → result ≡ all_zero s }
{
    a == zero(l)
}

// Has a, a string of l positions, no `*`?
pub fn starless(l: u32, a: u64) -> bool
    requires { l ≤ 32 }
    ensures words { result ≡ (fixed_word a == 2 ^ l - 1) }
    ensures strings { (s : Trits) → length s ≡ l → a ≡ word_string s → result ≡ starless_string s }
{
    fixed(a) == (1u64 << l) - 1
}

// The word with a 1 at each of l positions.
pub fn full(l: u32) -> u32
    requires { l ≤ 32 }
    ensures { result ≡ 2 ^ l - 1 }
{
    (((1u64 << l) - 1) % HALF) as u32
}

// Bit i in both halves.
fn both(i: u32) -> u64
    requires { i < 32 }
    ensures { result ≡ both_halves i }
{
    let bit = 1u64 << i;
    (bit << 32) | bit
}

// a with the value at the fixed position i flipped.
pub fn flipped(a: u64, i: u32) -> u64
    requires { i < 32 }
    ensures words { result ≡ flipped_word i a }
    ensures strings { (s : Trits) → length s ≤ 32 → a ≡ word_string s → fixed_string i s ≡ true → result ≡ word_string (flipped_string i s) }
{
    a ^ both(i)
}

// a with `*` at position i.
pub fn starred(a: u64, i: u32) -> u64
    requires { i < 32 }
    ensures words { result ≡ starred_word i a }
    ensures strings { (s : Trits) → length s ≤ 32 → a ≡ word_string s → result ≡ word_string (starred_string i s) }
{
    a ^ (a & both(i))
}

// a with the value at each fixed position flipped.
pub fn opposite(a: u64) -> u64
    ensures words { result ≡ opposite_word a }
    ensures strings { (s : Trits) → length s ≤ 32 → a ≡ word_string s → result ≡ word_string (map flip s) }
{
    ((a % HALF) << 32) | (a >> 32)
}

// y with the opposite of v at position i, where y has `*` and v is fixed.
pub fn opposed(y: u64, v: u64, i: u32) -> u64
    requires { i < 32 }
    ensures words { result ≡ opposed_word i v y }
    ensures strings { (s t : Trits) → length s ≡ length t → length s ≤ 32 → y ≡ word_string s → v ≡ word_string t
        → fixed_string i s ≡ false → fixed_string i t ≡ true → result ≡ word_string (opposed_string i t s) }
{
    y | (opposite(v) & both(i))
}

// How many positions are fixed.
pub fn fixed_count(a: u64) -> u32
    ensures words { result ≡ count_ones a }
    ensures strings { (s : Trits) → length s ≤ 32 → a ≡ word_string s → result ≡ fixed_count s }
{
    u64::count_ones(a)
}

// Has y all that e has but for at most one position?
pub fn near(e: u64, y: u64) -> bool
    ensures words { result ≡ lone (lacks_word e y) }
    ensures strings { (s t : Trits) → length s ≡ length t → length s ≤ 32 → e ≡ word_string s → y ≡ word_string t → result ≡ near_string s t }
{
    let w = (e & y) ^ e;
    (w & std::num::wrapping_sub_u64(w, 1)) == 0
}

// The fixed positions of y at which y with that value flipped is subsumed by e: where y has all that e has, those that e
// leaves open; where it lacks one position at which y is fixed, that one.
pub fn openings(e: u64, y: u64) -> u64
    ensures words { result ≡ openings_of (lacks_word e y) e y }
    ensures strings { (s t : Trits) → length s ≡ length t → length s ≤ 32 → e ≡ word_string s → y ≡ word_string t
        → result ≡ set_word (openings_string s t) }
{
    let w = (e & y) ^ e;
    let care = fixed(y);
    if w == 0 {
        return care ^ (care & fixed(e));
    }
    if (w & (w - 1)) == 0 {
        return fixed(w) & care;
    }
    0
}

// The positions at which y is fixed and lacks what e has: what e opens of y, where it is near y and does not subsume it.
pub fn edge(e: u64, y: u64) -> u64
    ensures strings { (s t : Trits) → length s ≡ length t → length s ≤ 32 → e ≡ word_string s → y ≡ word_string t → near_string s t ≡ true
        → subsumes_string s t ≡ false → result ≡ set_word (openings_string s t) }
{
    let w = (e & y) ^ e;
    fixed(w) & fixed(y)
}

// The bit of e that y lacks, where it is one alone; else 0.
pub fn lone_lack(e: u64, y: u64) -> u64
    ensures { result ≡ lone_lack e y }
{
    if near(e, y) {
        return (e & y) ^ e;
    }
    0
}

// e where it subsumes y; else 0, which fixes no position.
pub fn if_over(e: u64, y: u64) -> u64
    ensures { result ≡ if_over e y }
{
    if subsumes(e, y) {
        return e;
    }
    0
}

// What widening y needs of an entry e near y: in the high half the positions that e fixes; in the low half the one that y
// lacks of them, or where it lacks none those that e leaves open.
pub fn shade(e: u64, y: u64) -> u64
    ensures { result ≡ shade_word e y }
{
    let w = (e & y) ^ e;
    let fixes = fixed(e);
    let opens = if w == 0 { fixes ^ LOW } else { fixed(w) };
    (fixes << 32) | opens
}

// The openings of z by the entry e that `shade` is of, where z is y with some positions made `*` and e is near y.
pub fn shade_openings(shade: u64, y: u64, z: u64) -> u64
    ensures below { result < 2 ^ 32 }
    ensures strings { (e s t : Trits) → length e ≡ length s → length t ≡ length s → length s ≤ 32
        → shade ≡ shade_word (word_string e) (word_string s) → y ≡ word_string s → z ≡ word_string t
        → near_string e s ≡ true → subsumes_string t s ≡ true
        → result ≡ set_word (openings_string e t) }
{
    let care = fixed(z);
    if ((shade >> 32) & (fixed(y) ^ care)) == 0 {
        return (shade % HALF) & care;
    }
    0
}

// Does that entry subsume z?
pub fn shade_subsumes(shade: u64, y: u64, z: u64) -> bool
    ensures strings { (e s t : Trits) → length e ≡ length s → length t ≡ length s → length s ≤ 32
        → shade ≡ shade_word (word_string e) (word_string s) → y ≡ word_string s → z ≡ word_string t
        → near_string e s ≡ true → subsumes_string t s ≡ true
        → result ≡ subsumes_string e t }
{
    let opened = fixed(y) ^ fixed(z);
    ((shade >> 32) & (opened | (shade % HALF))) == 0
}

// Does e stir y, whose widening leaves the positions of `kept` fixed? It does where it opens one of these and fixes none of
// the others below it.
pub fn stirs(e: u64, y: u64, kept: u64) -> bool
    ensures strings { (d s t : Trits) → length d ≡ length s → length s ≤ 32 → e ≡ word_string d → y ≡ word_string s → kept ≡ care_of t
        → subsumes_string t s ≡ true → result ≡ stirs_string d s t }
{
    let opens = openings(e, y) & kept;
    if opens == 0 {
        return false;
    }
    let fixes = fixed(e);
    ((opens - 1) & (fixes ^ (fixes & kept))) == 0
}

// The bits of w at the positions of keep, moved together.
fn gathered(keep: u32, w: u32) -> u32
    ensures { result ≡ gather 32 keep w }
{
    let mut out = 0u32;
    let mut at = 0u32;
    for i in 0u32..32 {
        let bit = (w >> i) % 2;
        if (keep >> i) % 2 == 1 {
            out |= bit << at;
            at += 1;
        }
    }
    out
}

// a cut to the positions of keep, in rising order.
pub fn cut(keep: u32, a: u64) -> u64
    ensures words { result ≡ cut_word keep a }
    ensures strings { (k : Bits) (s : Trits) → length k ≡ length s → length s ≤ 32 → keep ≡ set_word k → a ≡ word_string s
        → result ≡ word_string (cut_string k s) }
{
    let z = gathered(keep, (a >> 32) as u32);
    let o = gathered(keep, (a % HALF) as u32);
    ((z as u64) << 32) | (o as u64)
}
