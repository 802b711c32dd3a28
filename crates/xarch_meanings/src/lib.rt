//! What each command comes to: the definitions, which stand in `specs/`, and the laws that go with
//! them.
#![tactic(auto)]

mod laws;

pub use laws::{
    archives_tell_their_texts, archives_tell_their_versions, commands_take_one_step,
    what_should_succeed_is_not_refused,
};
