ghost use Rattle.std.specs.Prelude.{◌≡◌, IfOk};
ghost use Rattle.key_spec.specs.View.{spec_view};
ghost use Rattle.key_spec.specs.Canonical.{canonical};
ghost use Rattle.xarch_gen.specs.Company.{company_rules, company_text};

use key_spec::{Spec, SpecFault};
use std::alloc::{AllocError, Global};

/// The company specification, as it is written.
const COMPANY: &[u8] = b"(/, (db, {}))
(/db, (dept, {name}))
(/db/dept, (emp, {fn, ln}))
(/db/dept, (name, {}))
(/db/dept/emp, (fn, {}))
(/db/dept/emp, (ln, {}))
(/db/dept/emp, (sal, {}))
(/db/dept/emp, (tel, {.}))
";

/// The company specification, which is parsed anew at each call.
pub fn company_spec(alloc: Global) -> Result<Spec, AllocError>
    ensures rules { IfOk result (λ s. spec_view s ≡ company_rules) }

    // Its canonical text.
    ensures text { IfOk result (λ s. canonical (spec_view s) ≡ company_text) }
{
    match Spec::parse(alloc, COMPANY) {
        Ok(spec) => Ok(spec),
        Err(SpecFault::Memory) => Err(AllocError),
        Err(SpecFault::Bad { .. }) => unreachable!(),
    }
}
