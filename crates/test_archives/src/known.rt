// Nodes and documents by name: a table that names them holds none of their parts.
use archive_tree::Archive;
use given_parts::shapes::{
    COMPANY, COMPANY_OF_90, COMPANY_OF_95, COMPANY_OF_NONE, DATABASE, EMPLOYEE, FINANCE,
    FIRST_NAME, LAST_NAME, NAME, Named, SALARIES, SALARY_90, Shape, TELEPHONE, Value, has_version,
};
use std::alloc::Global;

/// The nodes of an archive, or the document of a version.
#[derive(Clone, Copy)]
pub(crate) enum Known {
    Company,
    /// The employee is away in version 2.
    Returning,
    /// The alternatives of the salary exchanged.
    Exchanged,
    CompanyOf90,
    CompanyOf95,
    CompanyOfNone,
    Salaries,
    /// A salary with a set of its own.
    Stored,
    TwoBodies,
    SharedVersion,
    VersionLeftOut,
    LastLeftOut,
    OneTooMany,
    Tiny,
    Anvil10Bell,
    BellCord12,
    Anvil10BellCord10,
    Anvil12Bell,
    BellCord10,
    Anvil12BellCord12,
}

/// The alternatives of the salary exchanged.
const EXCHANGED: Shape = Shape::Inner(
    DATABASE,
    &[],
    &[Shape::Inner(
        FINANCE,
        &[],
        &[
            Shape::Inner(
                EMPLOYEE,
                &[],
                &[
                    FIRST_NAME,
                    LAST_NAME,
                    Shape::Leaf(
                        Named("sal", &[]),
                        &[],
                        &[
                            (&[(2, 2)], Value::Text("95K")),
                            (&[(1, 1), (3, 3)], Value::Text("90K")),
                        ],
                    ),
                    TELEPHONE,
                ],
            ),
            NAME,
        ],
    )],
);

/// The employee is away in version 2.
const RETURNING: Shape = Shape::Inner(
    DATABASE,
    &[],
    &[Shape::Inner(
        FINANCE,
        &[],
        &[
            Shape::Inner(
                EMPLOYEE,
                &[(1, 1), (3, 3)],
                &[FIRST_NAME, LAST_NAME, SALARY_90, TELEPHONE],
            ),
            NAME,
        ],
    )],
);

pub(crate) const SALARY: Named = Named("sal", &[]);

const TWO_BODIES: Shape = Shape::Leaf(
    SALARY,
    &[],
    &[
        (&[(1, 1), (3, 4)], Value::Text("90K")),
        (&[(2, 2), (5, 5)], Value::Text("95K")),
    ],
);

const SHARED_VERSION: Shape = Shape::Leaf(
    SALARY,
    &[],
    &[
        (&[(1, 1), (3, 4)], Value::Text("90K")),
        (&[(2, 3), (5, 5)], Value::Text("95K")),
    ],
);

const VERSION_LEFT_OUT: Shape = Shape::Leaf(
    SALARY,
    &[],
    &[
        (&[(1, 1), (3, 3)], Value::Text("90K")),
        (&[(2, 2), (5, 5)], Value::Text("95K")),
    ],
);

const LAST_LEFT_OUT: Shape = Shape::Leaf(
    SALARY,
    &[],
    &[
        (&[(1, 1), (3, 4)], Value::Text("90K")),
        (&[(2, 2)], Value::Text("95K")),
    ],
);

const ONE_TOO_MANY: Shape = Shape::Leaf(
    SALARY,
    &[],
    &[
        (&[(1, 1), (3, 4)], Value::Text("90K")),
        (&[(2, 2), (5, 6)], Value::Text("95K")),
    ],
);

const STORED: Shape = Shape::Leaf(SALARY, &[(1, 1), (3, 3)], &[]);

/// The tiny document: an element without attributes and items.
const TINY: Shape = Shape::Leaf(Named("db", &[]), &[], &[(&[], Value::Nothing)]);

const ANVIL_10: Shape = Shape::Leaf(
    Named("item", &[Value::Text("anvil")]),
    &[],
    &[(&[], Value::Text("10"))],
);

const ANVIL_12: Shape = Shape::Leaf(
    Named("item", &[Value::Text("anvil")]),
    &[],
    &[(&[], Value::Text("12"))],
);

const BELL: Shape = Shape::Leaf(
    Named("item", &[Value::Text("bell")]),
    &[],
    &[(&[], Value::Text("7"))],
);

const CORD_10: Shape = Shape::Leaf(
    Named("item", &[Value::Text("cord")]),
    &[],
    &[(&[], Value::Text("10"))],
);

const CORD_12: Shape = Shape::Leaf(
    Named("item", &[Value::Text("cord")]),
    &[],
    &[(&[], Value::Text("12"))],
);

const CATALOGUE: Named = Named("catalogue", &[]);

const THE_COMPANY: &[Shape] = &[COMPANY];

const THE_RETURNING: &[Shape] = &[RETURNING];

const THE_EXCHANGED: &[Shape] = &[EXCHANGED];

const THE_COMPANY_OF_90: &[Shape] = &[COMPANY_OF_90];

const THE_COMPANY_OF_95: &[Shape] = &[COMPANY_OF_95];

const THE_COMPANY_OF_NONE: &[Shape] = &[COMPANY_OF_NONE];

const THE_SALARIES: &[Shape] = &[SALARIES];

const THE_STORED: &[Shape] = &[STORED];

const THE_TWO_BODIES: &[Shape] = &[TWO_BODIES];

const THE_SHARED_VERSION: &[Shape] = &[SHARED_VERSION];

const THE_VERSION_LEFT_OUT: &[Shape] = &[VERSION_LEFT_OUT];

const THE_LAST_LEFT_OUT: &[Shape] = &[LAST_LEFT_OUT];

const THE_ONE_TOO_MANY: &[Shape] = &[ONE_TOO_MANY];

const THE_ANVIL_10_BELL: &[Shape] = &[Shape::Inner(CATALOGUE, &[], &[ANVIL_10, BELL])];

const THE_BELL_CORD_12: &[Shape] = &[Shape::Inner(CATALOGUE, &[], &[BELL, CORD_12])];

const THE_ANVIL_10_BELL_CORD_10: &[Shape] = &[Shape::Inner(
    CATALOGUE,
    &[],
    &[ANVIL_10, BELL, CORD_10],
)];

const THE_ANVIL_12_BELL: &[Shape] = &[Shape::Inner(CATALOGUE, &[], &[ANVIL_12, BELL])];

const THE_BELL_CORD_10: &[Shape] = &[Shape::Inner(CATALOGUE, &[], &[BELL, CORD_10])];

const THE_ANVIL_12_BELL_CORD_12: &[Shape] = &[Shape::Inner(
    CATALOGUE,
    &[],
    &[ANVIL_12, BELL, CORD_12],
)];

const THE_TINY: &[Shape] = &[TINY];

/// These nodes, or this document alone.
pub(crate) fn shapes(known: Known) -> &'static [Shape] {
    match known {
        Known::Company => THE_COMPANY,
        Known::Returning => THE_RETURNING,
        Known::Exchanged => THE_EXCHANGED,
        Known::CompanyOf90 => THE_COMPANY_OF_90,
        Known::CompanyOf95 => THE_COMPANY_OF_95,
        Known::CompanyOfNone => THE_COMPANY_OF_NONE,
        Known::Salaries => THE_SALARIES,
        Known::Stored => THE_STORED,
        Known::TwoBodies => THE_TWO_BODIES,
        Known::SharedVersion => THE_SHARED_VERSION,
        Known::VersionLeftOut => THE_VERSION_LEFT_OUT,
        Known::LastLeftOut => THE_LAST_LEFT_OUT,
        Known::OneTooMany => THE_ONE_TOO_MANY,
        _ => catalogue(known),
    }
}

/// Versions of a catalogue, or the tiny document.
fn catalogue(known: Known) -> &'static [Shape] {
    match known {
        Known::Anvil10Bell => THE_ANVIL_10_BELL,
        Known::BellCord12 => THE_BELL_CORD_12,
        Known::Anvil10BellCord10 => THE_ANVIL_10_BELL_CORD_10,
        Known::Anvil12Bell => THE_ANVIL_12_BELL,
        Known::BellCord10 => THE_BELL_CORD_10,
        Known::Anvil12BellCord12 => THE_ANVIL_12_BELL_CORD_12,
        _ => THE_TINY,
    }
}

/// Whether the archive has this version.
pub(crate) fn has_known(alloc: Global, archive: &Archive, i: u32, known: Known) -> bool {
    match shapes(known) {
        [shape] => has_version(alloc, archive, i, shape),
        _ => false,
    }
}
