ghost use Rattle.jsonml_tree.specs.Data.{PlainTree};
ghost use Rattle.jsonml_print.specs.Laws.{CallsPrint, CallsMayCome};

/// A printer that is led through a whole element prints its text, and each of the calls may be made.
pub fn calls_print_the_tree()
    ensures text { (t : PlainTree) → CallsPrint t }
    ensures may_come { (t : PlainTree) → CallsMayCome t }
{}
