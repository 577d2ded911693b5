// Independence and groundness on working lists. Inner: not a public call.
ghost use Rattle.std.specs.Prelude.{◌≡◌, false, ◌&&◌, ℕ, ◌≤◌, ◌<◌, length, get_or};
ghost use Rattle.model.specs.Groups.{Bits, meets};
ghost use Rattle.model.specs.Strings.{Trits};
ghost use Rattle.model.specs.Growth.{Entries};
ghost use Rattle.model.specs.Tables.{positive, negative};
ghost use Rattle.model.specs.Questions.{ground, independent};
ghost use Rattle.words.specs.Words.{word, set_word};
ghost use Rattle.lists.specs.WorkingLists.{WordsOf, OfWords};
ghost use Rattle.covering.specs.Sets.{greatest, first_string, apart};

// Can one group that e covers meet both sets? It can unless e has 0 at all of one of them.
fn joins(e: u64, a: u32, b: u32) -> bool
    ensures { (s : Trits) (x y : Bits) → length s ≤ 32 → length x ≡ length s → length y ≡ length s → e ≡ word s → a ≡ set_word x
        → b ≡ set_word y → result ≡ (meets x (greatest s) && meets y (greatest s)) }
{
    let zeros = (e >> 32) as u32;
    ((a & zeros) != a) & ((b & zeros) != b)
}

// Of a positive list: does no group meet both sets?
pub fn independent_positive(list: &[u64], a: u32, b: u32) -> bool
    ensures { (l : ℕ) (τ : Entries) (x y : Bits) → WordsOf l list.now τ → length x ≡ l → length y ≡ l → a ≡ set_word x
        → b ≡ set_word y → result ≡ independent positive l τ x y }
{
    for &e in list {
        if joins(e, a, b) {
            return false;
        }
    }
    true
}

// Of a positive list: has no group the variable numbered x?
pub fn ground_positive(list: &[u64], x: u32) -> bool
    requires { (1 ≤ x) × (x ≤ 32) }
    ensures { (l : ℕ) (τ : Entries) → WordsOf l list.now τ → x ≤ l → result ≡ ground positive l τ x }
{
    let bit = 1u32 << (x - 1);
    independent_positive(list, bit, bit)
}

// Of the groups that meet the set, those whose first variable of the set is at position i: the string with 1 there, 0 at the
// variables of the set before it, and `*` elsewhere. These strings are disjoint, and together they cover what meets the set.
fn first_at(set: u32, i: u32) -> u64
    requires { i < 32 }
    ensures { (k : Bits) → i < length k → length k ≤ 32 → set ≡ set_word k → result ≡ word (first_string k i) }
{
    let bit = 1u32 << i;
    (((set & (bit - 1)) as u64) << 32) | (bit as u64)
}

// Is position i in the set?
fn in_set(set: u32, i: u32) -> bool
    requires { i < 32 }
    ensures { (k : Bits) → set ≡ set_word k → result ≡ get_or k i false }
{
    (set >> i) % 2 == 1
}

// Of a negative list: does no group that y covers meet the set?
fn apart_negative(list: &[u64], l: u32, y: u64, set: u32) -> bool
    requires { l ≤ 32 }
    ensures { OfWords l list.now y (λ τ s.
        (k : Bits) → length k ≡ l → set ≡ set_word k → result ≡ apart l τ s k) }
{
    for j in 0..l {
        if in_set(set, j) {
            let z = first_at(set, j);
            if words::matches(y, z) {
                if !crate::cover::covered(list, l, words::meet(y, z)) {
                    return false;
                }
            }
        }
    }
    true
}

// Of a negative list: does no group meet both sets? By disjoint pairs.
pub fn independent_negative(list: &[u64], l: u32, a: u32, b: u32) -> bool
    requires { l ≤ 32 }
    ensures { (τ : Entries) (x y : Bits) → WordsOf l list.now τ → length x ≡ l → length y ≡ l → a ≡ set_word x
        → b ≡ set_word y → result ≡ independent negative l τ x y }
{
    for i in 0..l {
        if in_set(a, i) {
            if !apart_negative(list, l, first_at(a, i), b) {
                return false;
            }
        }
    }
    true
}

// Of a negative list: has no group the variable numbered x?
pub fn ground_negative(list: &[u64], l: u32, x: u32) -> bool
    requires { (1 ≤ x) × (x ≤ l) × (l ≤ 32) }
    ensures { (τ : Entries) → WordsOf l list.now τ → result ≡ ground negative l τ x }
{
    crate::cover::covered(list, l, 1u64 << (x - 1))
}
