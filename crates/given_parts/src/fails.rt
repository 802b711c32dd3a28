ghost use Rattle.std.specs.Prelude.{◌≡◌, is_ok};

use std::test::Fail;

/// Fails with the name of what does not hold.
pub fn told(holds: bool, name: &str) -> Result<(), Fail>
    ensures { is_ok result ≡ holds }
{
    if holds { Ok(()) } else { Err(Fail::new(name)) }
}

/// Fails with the name of the first that does not hold.
pub fn all_told(cases: &[(&str, bool)]) -> Result<(), Fail> {
    for (name, holds) in cases {
        told(*holds, name)?;
    }
    Ok(())
}
