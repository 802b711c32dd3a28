// What a test comes to.
ghost use Rattle.std.specs.Prelude.{◌≡◌};
ghost use Rattle.node_walk.specs.Walked.{or_damage};

use record_cursor::CursorFault;

/// What is not right is damage.
pub(crate) fn or_damage(right: bool) -> Result<(), CursorFault>
    ensures { result ≡ or_damage right }
{
    if right {
        Ok(())
    } else {
        Err(CursorFault::Damage)
    }
}
