// What follows for calls that come one after the other.
ghost use Rattle.std.specs.Prelude.{ℕ, ◌+◌, ◌≤◌, List, [], ◌++◌};
ghost use Rattle.xa_outside.specs.Causes.{Rose};
ghost use Rattle.xa_outside.specs.Numbers.{Numbers, IsMeter, PullsAtMost};
ghost use Rattle.xa_outside.specs.Taken.{Taken, Takes, TakesNone, TakesPrefix};

/// What several writes have a sink take.
pub fn writes_add_up()
    ensures none { (a : Taken) → TakesNone a a }
    ensures nil { (a : Taken) → Takes a a [] }
    ensures both { (a b c : Taken) (x y : List ℕ)
        → Takes a b x → Takes b c y → Takes a c (x ++ y) }
    ensures kept { (a b c : Taken) (x : List ℕ) → Takes a b x → TakesNone b c → Takes a c x }
    ensures prefix_none { (a : Taken) (x : List ℕ) → TakesPrefix a a x }
    ensures prefix_all { (a b : Taken) (x : List ℕ) → Takes a b x → TakesPrefix a b x }
    ensures prefix_after { (a b c : Taken) (x y : List ℕ)
        → Takes a b x → TakesPrefix b c y → TakesPrefix a c (x ++ y) }
    ensures prefix_more { (a b : Taken) (x y : List ℕ)
        → TakesPrefix a b x → TakesPrefix a b (x ++ y) }
{}

/// What several calls that only read have a folder count, and that a count which rose in one of
/// them has risen in all.
pub fn reads_add_up()
    ensures none { (limit : ℕ) (m : Numbers) → IsMeter m → PullsAtMost limit m m }
    ensures more { (limit more : ℕ) (a b : Numbers)
        → limit ≤ more → PullsAtMost limit a b → PullsAtMost more a b }
    ensures both { (first second : ℕ) (a b c : Numbers)
        → PullsAtMost first a b → PullsAtMost second b c → PullsAtMost (first + second) a c }
    ensures rose { (a b c d : ℕ) → a ≤ b → Rose b c → c ≤ d → Rose a d }
{}
