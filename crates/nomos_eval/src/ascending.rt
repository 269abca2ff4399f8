//! How the pair of a variable is found among pairs, of which so many first ones ascend.
ghost use Rattle.std.specs.Prelude.{◌≡◌, IsTrue, length};
ghost use Rattle.nomos_eval.specs.mirror.Ascending.{IsHigher, IsPlaceBelow, Rises, StandsNotBelow};

use nomos_ir::ids::VarId;

// Where the pair of a variable would stand if no number were left out behind that of the first pair.
fn guessed<T>(pairs: &[(VarId, T)], v: VarId) -> usize {
    match pairs.first() {
        Some(first) => v.0.saturating_sub(first.0.0) as usize,
        None => 0,
    }
}

// Where the pair of a variable stands, if it is among so many first ones, which ascend: by halving.
fn halved<T>(pairs: &[(VarId, T)], known: usize, v: VarId) -> Option<usize>
    requires { Rises pairs.now known }
    ensures { IsPlaceBelow pairs.now v known result }
{
    let mut from = 0;
    let mut to = known;
    while from < to {
        let middle = from + (to - from) / 2;
        let number = pairs[middle].0.0;
        if number == v.0 {
            return Some(middle);
        }
        if number < v.0 {
            from = middle + 1;
        } else {
            to = middle;
        }
    }
    None
}

/// Where the pair of a variable stands, if it is among so many first ones, which ascend: in one step where no number is
/// left out among them.
pub(crate) fn place_known<T>(pairs: &[(VarId, T)], known: usize, v: VarId) -> Option<usize>
    requires { Rises pairs.now known }
    ensures { IsPlaceBelow pairs.now v known result }
{
    let guess = guessed(pairs, v);
    if guess < known && pairs[guess].0.0 == v.0 {
        return Some(guess);
    }
    halved(pairs, known, v)
}

// Where the first pair of a variable stands, which is not among so many first ones.
fn along<T>(pairs: &[(VarId, T)], from: usize, v: VarId) -> Option<usize>
    requires { StandsNotBelow pairs.now v from }
    ensures { IsPlaceBelow pairs.now v (length pairs.now) result }
{
    for at in from..pairs.len() {
        if pairs[at].0.0 == v.0 {
            return Some(at);
        }
    }
    None
}

/// Where the first pair of a variable stands, where so many first ones are known to ascend.
pub(crate) fn place_of<T>(pairs: &[(VarId, T)], known: usize, v: VarId) -> Option<usize>
    requires { Rises pairs.now known }
    ensures { IsPlaceBelow pairs.now v (length pairs.now) result }
{
    match place_known(pairs, known, v) {
        Some(place) => Some(place),
        None => along(pairs, known, v),
    }
}

/// Of how many first pairs it is known that they ascend, where it was known of so many, and none from the end on is
/// looked at.
pub(crate) fn rising<T>(pairs: &[(VarId, T)], known: usize, end: usize) -> usize
    requires { Rises pairs.now known }
    ensures { Rises pairs.now result }
{
    let mut now = known;
    while now < end && is_higher(pairs, now) {
        now += 1;
    }
    now
}

// Whether there is a pair at the place, and its variable is higher than that of the pair before it, if there is one.
fn is_higher<T>(pairs: &[(VarId, T)], at: usize) -> bool
    ensures { IsTrue result → IsHigher pairs.now at }
{
    if at >= pairs.len() {
        return false;
    }
    at == 0 || pairs[at - 1].0.0 < pairs[at].0.0
}
