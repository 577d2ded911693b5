// The walk of two terms on their rows of tokens. A term stands in prefix order, so two cursors do, with no recursion: equal
// heads move both on by one, and a variable passes over the whole term across. Nothing of the walk is stored. Inner: not a
// public call.
#![tactic(auto)]

ghost use Rattle.std.specs.Prelude.{◌≡◌, ℕ};
ghost use Rattle.model.specs.Walk.{Walked};
ghost use Rattle.walks.specs.Cursors.{Across, Rest, Next, clash};

use terms::Equation;

// The term across: where it ends, and the set of its variables, bit i - 1 for Xi.
#[derive(Clone, Copy, Debug, PartialEq, Eq)]
struct Passed {
    end: usize,
    set: u32,
}

// What the walk finds next: an equation, with the cursors i and j to go on from; or a clash; or the end of both rows.
#[derive(Clone, Copy, Debug, PartialEq, Eq)]
pub enum Found {
    Equation { found: Equation, i: usize, j: usize },
    Clash,
    End,
}

// Passes over the term at `at`, token by token as long as terms are still needed.
fn pass(ts: &[u16], at: usize) -> Passed
    requires { (l : ℕ) × (e : ℕ) × (w : ℕ) × Across l ts.now at 1 e w }
    ensures { (l e w : ℕ) → Across l ts.now at 1 e w → (result.end ≡ e) × (result.set ≡ w) }
{
    let mut i = at;
    let mut need = 1usize;
    let mut set = 0u32;
    // A `while`: the tokens say where no term is needed any more.
    while 0 < need {
        let t = ts[i];
        if t < terms::FIRST_HEAD {
            let x = t as u32;
            set |= 1u32 << (x - 1);
            need -= 1;
        } else {
            need = need - 1 + (t % terms::ARITIES) as usize;
        }
        i += 1;
    }
    Passed { end: i, set: set }
}

// What the walk finds next from the cursors on.
pub fn next(left: &[u16], i: usize, right: &[u16], j: usize) -> Found
    requires { (l : ℕ) × (o : Walked) × Rest l left.now right.now i j o }
    ensures { (l : ℕ) (o : Walked) → Rest l left.now right.now i j o
        → Next l left.now right.now i j o result }
{
    for a in i..left.len() {
        let b = j + (a - i);
        let s = left[a];
        let t = right[b];
        if s < terms::FIRST_HEAD {
            let x = s as u32;
            let across = pass(right, b);
            return Found::Equation {
                found: terms::equation_of(1u32 << (x - 1), across.set, across.end - b),
                i: a + 1,
                j: across.end,
            };
        }
        if t < terms::FIRST_HEAD {
            let x = t as u32;
            let across = pass(left, a);
            return Found::Equation {
                found: terms::equation_of(1u32 << (x - 1), across.set, across.end - a),
                i: across.end,
                j: b + 1,
            };
        }
        if s != t {
            return Found::Clash;
        }
    }
    Found::End
}

// Does the walk of two terms clash?
pub fn clashes(left: &[u16], right: &[u16]) -> bool
    requires { (l : ℕ) × (o : Walked) × Rest l left.now right.now 0 0 o }
    ensures { (l : ℕ) (o : Walked) → Rest l left.now right.now 0 0 o → result ≡ clash o }
{
    let mut at_left = 0;
    let mut at_right = 0;
    // A `loop`: the cursors jump past what was found.
    loop {
        match next(left, at_left, right, at_right) {
            Found::Equation { found: _, i, j } => {
                at_left = i;
                at_right = j;
            }
            Found::Clash => return true,
            Found::End => return false,
        }
    }
}
