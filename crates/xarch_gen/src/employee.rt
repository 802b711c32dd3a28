// Employees as the generator draws them.
ghost use Rattle.std.specs.Prelude.{◌≡◌, ◌<◌, ◌≤◌, ◌+◌, ◌*◌, ◌^◌, ◌++◌, IfOk, codes, decimal, string_bytes};
ghost use Rattle.jsonml_tree.specs.View.{tree_view};
ghost use Rattle.xarch_gen.specs.Sample.{next, draw, phase, is_present, salary, has_telephone, employee_of};

use crate::elements::{element, field, numbered};
use jsonml_tree::Tree;
use std::alloc::{AllocError, Global};

/// The numbers of the generator are below 2^31.
const MODULUS: u64 = 2_147_483_648;

/// Departments are so many numbers apart.
const STRIDE: u32 = 64;

/// The telephone of the first employee of the first department.
const FIRST_TELEPHONE: u32 = 5_550_000;

/// The number that follows.
fn next(number: u64) -> u64
    requires { number < 2 ^ 31 }
    ensures next { result ≡ next number }
    ensures below { result < 2 ^ 31 }
{
    (1_103_515_245 * number + 12_345) % MODULUS
}

/// The number that is drawn for an employee of a department.
#[tactic(auto, unfolding(crate::specs::Sample::draw))]
pub(crate) fn draw(seed: u32, department: u32, employee: u32) -> u32
    requires department { department < 4 }
    requires employee { employee < 16 }
    ensures draw { result ≡ draw seed department employee }
    ensures below { result < 2 ^ 31 }
{
    let first = seed as u64 + (STRIDE * department + employee) as u64;
    next(next(first % MODULUS)) as u32
}

fn phase(drawn: u32) -> u32
    ensures phase { result ≡ phase drawn }
    ensures below { result < 8 }
{
    drawn / 65_536 % 8
}

/// Whether the employee for whom this number is drawn is in the document.
pub(crate) fn is_present(document: u32, drawn: u32) -> bool
    requires { document ≤ 1000 }
    ensures { result ≡ is_present document drawn }
{
    (document + phase(drawn)) % 8 != 0
}

fn salary(document: u32, drawn: u32) -> u32
    requires { document ≤ 1000 }
    ensures { result ≡ salary document drawn }
{
    30 + drawn / 1024 % 20 + (document + phase(drawn)) / 16
}

fn salary_text(alloc: Global, document: u32, drawn: u32) -> Result<String, AllocError>
    requires { document ≤ 1000 }
    ensures { IfOk result (λ s. string_bytes s ≡ decimal (salary document drawn) ++ codes "K") }
{
    let mut text = numbered(alloc, "", salary(document, drawn))?;
    text.push_str("K")?;
    Ok(text)
}

fn has_telephone(drawn: u32) -> bool
    ensures { result ≡ has_telephone drawn }
{
    phase(drawn) % 2 == 0
}

/// The element of an employee of a department, for whom this number is drawn.
pub(crate) fn employee_of(
    alloc: Global,
    document: u32,
    drawn: u32,
    department: u32,
    employee: u32,
) -> Result<Tree, AllocError>
    requires document { document ≤ 1000 }
    requires department { department < 4 }
    requires employee { employee < 16 }
    ensures { IfOk result (λ t. tree_view t ≡ employee_of document drawn department employee) }
{
    let first = numbered(alloc, "F", employee)?;
    let last = numbered(alloc, "L", employee)?;
    let salary = salary_text(alloc, document, drawn)?;
    let mut items = vec![in alloc;
        field(alloc, "fn", first)?,
        field(alloc, "ln", last)?,
        field(alloc, "sal", salary)?,
    ]?;
    if has_telephone(drawn) {
        let number = FIRST_TELEPHONE + STRIDE * department + employee;
        items.push(field(alloc, "tel", numbered(alloc, "", number)?)?)?;
    }
    element(alloc, "emp", items)
}
