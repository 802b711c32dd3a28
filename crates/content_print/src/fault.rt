// Why no content is printed.
use thiserror::Error;
use xa_outside::Failed;

/// Why a content was not printed to its end: the bytes are no content, or the output failed.
#[derive(Clone, Copy, Debug, Drop, PartialEq, Eq, Error)]
pub enum PrintFault {
    #[error("Damage")]
    Damage,
    #[error("Out")]
    Out,
}

impl From<Failed> for PrintFault {
    ghost use Rattle.std.specs.Prelude.{◌≡◌};
    ghost use Rattle.content_print.specs.declared.fault.PrintFault.TheVariants.{Out};

    ghost from_gives = { λ _ e. e ≡ Out };

    fn from(_failed: Failed) -> PrintFault {
        PrintFault::Out
    }
}
