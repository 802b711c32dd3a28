// A column of a table.
ghost use Rattle.std.specs.Prelude.{◌≡◌};

use std::cmp::Ordering;

/// A column of a table: its name, and its number from 0. Columns are ordered by their names.
#[derive(Clone, Copy)]
pub(crate) struct Column<'a> {
    pub name: &'a str,
    pub at: usize,
}

impl Column<'_> {
    ghost use Rattle.csv_tables.specs.Columns.{column_view, column_cmp};

    fn order(&self, other: &Column<'_>) -> Ordering
        ensures { result ≡ column_cmp (column_view self.now) (column_view other.now) }
    {
        self.name.cmp(other.name)
    }
}

impl PartialEq for Column<'_> {
    ghost use Rattle.std.specs.Ordering.{eq_by_cmp, on};
    ghost use Rattle.std.specs.Cmp.{on_total, eq_by_cmp_equiv, partial_equiv_from_equiv};
    ghost use Rattle.csv_tables.specs.Columns.{column_view, column_cmp, column_cmp_total};

    ghost eq = { eq_by_cmp (on column_view column_cmp) };

    ghost laws = { partial_equiv_from_equiv (eq_by_cmp_equiv (on_total column_view column_cmp_total)) };

    fn eq(&self, other: &Column<'_>) -> bool {
        self.order(other).is_eq()
    }
}

impl Eq for Column<'_> {
    ghost use Rattle.std.specs.Cmp.{on_total, eq_by_cmp_equiv};
    ghost use Rattle.csv_tables.specs.Columns.{column_view, column_cmp_total};

    ghost laws = { eq_by_cmp_equiv (on_total column_view column_cmp_total) };
}

impl PartialOrd for Column<'_> {
    ghost use Rattle.std.specs.Ordering.{on, as_partial_cmp};
    ghost use Rattle.std.specs.Cmp.{on_total, partial_order_from_total};
    ghost use Rattle.csv_tables.specs.Columns.{column_view, column_cmp, column_cmp_total};

    ghost partial_cmp = { as_partial_cmp (on column_view column_cmp) };

    ghost laws = { partial_order_from_total (on_total column_view column_cmp_total) };

    fn partial_cmp(&self, other: &Column<'_>) -> Option<Ordering> {
        Some(self.order(other))
    }
}

impl Ord for Column<'_> {
    ghost use Rattle.std.proofs.Common.{refl};
    ghost use Rattle.std.specs.Ordering.{on};
    ghost use Rattle.std.specs.Cmp.{on_total};
    ghost use Rattle.csv_tables.specs.Columns.{column_view, column_cmp, column_cmp_total};

    ghost cmp = { on column_view column_cmp };

    ghost total = { on_total column_view column_cmp_total };

    ghost matches_partial_cmp = { λ x y. refl };

    ghost matches_eq = { λ x y. refl };

    fn cmp(&self, other: &Column<'_>) -> Ordering {
        self.order(other)
    }
}
