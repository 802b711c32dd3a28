// What follows from the definitions.
ghost use Rattle.keyed_tree.specs.Data.{PlainKey};
ghost use Rattle.jsonml_lines.specs.Lines.{PlainLine};
ghost use Rattle.jsonml_lines.specs.RoundTrip.{CellReadsBack, IsLine, ReadsBack};

/// What is printed for a line has no line feed before its end and reads back as it, and is UTF-8 where its texts are. A scalar or
/// a content on its own reads back too.
pub fn printed_lines_read_back()
    ensures line { (l : PlainLine) → IsLine l → ReadsBack l }
    ensures cell { (k : PlainKey) → CellReadsBack k }
{}
