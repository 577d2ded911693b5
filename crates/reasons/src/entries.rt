// The entries that cover groups inside a set s of variables. Inner: not a public call.
ghost use Rattle.std.specs.Prelude.{◌≡◌, ℕ, ◌≤◌, ◌<◌, length, IfSome};
ghost use Rattle.model.specs.Groups.{Bits};
ghost use Rattle.model.specs.Strings.{Trits};
ghost use Rattle.model.specs.Reasons.{covers_inside, lowest as lowest_entry, together as together_set};
ghost use Rattle.words.specs.Words.{word, set_word};
ghost use Rattle.reasons.specs.Entries.{largest as largest_inside, largest_word, OfParts, found};

// The largest group inside s that e covers: what of s is not 0 in e. The empty set where e has a 1 outside s.
fn largest(e: u64, s: u32) -> u32
    ensures words { result ≡ largest_word e s }
    ensures strings { (k : Bits) (t : Trits) → length k ≡ length t → length t ≤ 32 → e ≡ word t → s ≡ set_word k
        → result ≡ set_word (largest_inside k t) }
{
    let zeros = (e >> 32) as u32;
    let ones = (e % words::HALF) as u32;
    if ones & s != ones {
        return 0;
    }
    s ^ (s & zeros)
}

// The lowest entry that covers a group inside s with a variable of m, if one does.
pub fn lowest(list: &[u64], s: u32, m: u32) -> Option<usize>
    ensures bound { IfSome result (λ i. i < length list.now) }
    ensures entry { (l : ℕ) → OfParts l list.now s m (λ τ k h. found result ≡ lowest_entry (covers_inside l k h) τ) }
{
    for (i, &e) in list.iter().enumerate() {
        if largest(e, s) & m != 0 {
            return Some(i);
        }
    }
    None
}

// The groups inside s that have a variable of m, together.
pub fn together(list: &[u64], s: u32, m: u32) -> u32
    ensures { (l : ℕ) → OfParts l list.now s m (λ τ k h. result ≡ set_word (together_set l k h τ)) }
{
    let mut set = 0u32;
    for &e in list {
        let g = largest(e, s);
        if g & m != 0 {
            set |= g;
        }
    }
    set
}
