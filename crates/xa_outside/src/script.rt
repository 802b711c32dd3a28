ghost use Rattle.std.specs.Prelude.{◌≡◌, ◌+◌, ◌-◌, ◌^◌, ◌==◌, ◌↔◌, IsTrue, None, Some, if◌then◌else◌};
ghost use Rattle.xa_outside.specs.Numbers.{capped};
ghost use Rattle.xa_outside.specs.Planned.{IsNextListed, after_call, listed_made};

/// Which calls fail, by their numbers from 1, and how many were made.
#[derive(Drop)]
pub(crate) struct Script {
    fails: Vec<u64>,
    made: u64,
}

impl Script {
    ghost use Rattle.xa_outside.specs.Scripts.{plan_of};

    pub(crate) fn new(fails: Vec<u64>) -> Script
        ensures { plan_of result ≡ record { fails = fails.items; made = 0 } }
    {
        Script { fails, made: 0 }
    }

    /// Whether this call fails.
    pub(crate) fn next_fails(&mut self) -> bool
        ensures listed { IsTrue result ↔ IsNextListed (plan_of self.old) }
        ensures plan { plan_of self.new ≡ after_call (plan_of self.old) }
        ensures count { listed_made (plan_of self.new)
            ≡ listed_made (plan_of self.old) + (if result then 1 else 0) }
    {
        match count_up(&mut self.made) {
            Some(number) => self.fails.contains(&number),
            None => false,
        }
    }
}

/// Counts one more call, and answers its number. A call behind the last value has none, and
/// is listed nowhere.
pub(crate) fn count_up(made: &mut u64) -> Option<u64>
    ensures after { made.new ≡ capped (made.old + 1) }
    ensures number { result ≡ (if made.old == 2 ^ 64 - 1 then None else Some (made.old + 1)) }
{
    let number = made.checked_add(1)?;
    *made = number;
    Some(number)
}
