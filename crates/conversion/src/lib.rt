// Converting a row of groups to a working list (01, "Convert groups"). Inner: not a public call.
#![tactic(auto)]

ghost use Rattle.std.specs.Prelude.{◌≡◌, true, map, ◌≤◌};
ghost use Rattle.model.specs.Growth.{convert as convert_list};
ghost use Rattle.words.specs.Words.{set};
ghost use Rattle.lists.specs.WorkingLists.{Within, Makes};
ghost use Rattle.conversion.specs.Conversion.{all_below as all_below_list};

use words::Entry;

// Converts a row of words, each a string of l positions, from the empty list: each is grown, which skips a zero string.
pub fn convert(list: &mut [u64; 256], l: u32, words: &[u32]) -> Option<usize>
    requires { l ≤ 32 }
    ensures within { Within result }
    ensures made { all_below_list l words.now ≡ true
        → Makes l list.new result (convert_list (map (set l) words.now)) }
{
    let full = words::full(l);
    let mut n = 0;
    for &w in words {
        let y = u64::from(Entry {
            care: full,
            value: w,
        });
        n = lists::growth::grow(list, n, l, y)?;
    }
    Some(n)
}

// Has no word a bit above l?
pub fn all_below(l: u32, words: &[u32]) -> bool
    requires { l ≤ 32 }
    ensures { result ≡ all_below_list l words.now }
{
    let full = words::full(l);
    let mut good = true;
    for &w in words {
        good &= w <= full;
    }
    good
}
