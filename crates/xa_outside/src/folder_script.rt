ghost use Rattle.std.specs.Prelude.{◌≡◌, ◌+◌, ◌-◌, ◌^◌, ◌==◌, ◌↔◌, IsTrue, None, Some, if◌then◌else◌};
ghost use Rattle.xa_outside.specs.FolderPlan.{IsNextListed, after_call, is_call, is_listed, listed_made, made_none, made_of};

use crate::folder_call::{FolderCall, FolderFail};
use crate::script::count_up;

/// Which calls of a folder fail, and how many of each kind were made.
#[derive(Drop)]
pub(crate) struct FolderScript {
    fails: Vec<FolderFail>,
    length: u64,
    read_at: u64,
    begin: u64,
    append: u64,
    commit: u64,
}

impl FolderScript {
    ghost use Rattle.xa_outside.specs.Scripts.{folder_plan_of};

    pub(crate) fn new(fails: Vec<FolderFail>) -> FolderScript
        ensures { folder_plan_of result ≡ record { fails = fails.items; made = made_none } }
    {
        FolderScript {
            fails,
            length: 0,
            read_at: 0,
            begin: 0,
            append: 0,
            commit: 0,
        }
    }

    /// Whether this call of its kind fails.
    pub(crate) fn next_fails(&mut self, call: FolderCall) -> bool
        ensures listed { IsTrue result ↔ IsNextListed (folder_plan_of self.old) call }
        ensures plan { folder_plan_of self.new ≡ after_call (folder_plan_of self.old) call }
        ensures count { listed_made (folder_plan_of self.new)
            ≡ listed_made (folder_plan_of self.old) + (if result then 1 else 0) }
    {
        match self.count(call) {
            Some(number) => lists(&self.fails, call, number),
            None => false,
        }
    }

    fn count(&mut self, call: FolderCall) -> Option<u64>
        ensures plan { folder_plan_of self.new ≡ after_call (folder_plan_of self.old) call }
        ensures number { result
            ≡ (if made_of (folder_plan_of self.old).made call == 2 ^ 64 - 1 then None
            else Some (made_of (folder_plan_of self.old).made call + 1)) }
    {
        match call {
            FolderCall::Length => count_up(&mut self.length),
            FolderCall::ReadAt => count_up(&mut self.read_at),
            FolderCall::Begin => count_up(&mut self.begin),
            FolderCall::Append => count_up(&mut self.append),
            FolderCall::Commit => count_up(&mut self.commit),
        }
    }
}

fn lists(fails: &[FolderFail], call: FolderCall, number: u64) -> bool
    ensures { result ≡ is_listed fails.now call number }
{
    fails
        .iter()
        .any(|fail| same_call(fail.call, call) && fail.number == number)
}

fn same_call(a: FolderCall, b: FolderCall) -> bool
    ensures { result ≡ is_call a b }
{
    a == b
}
