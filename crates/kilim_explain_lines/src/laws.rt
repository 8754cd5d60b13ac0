//! Laws, and no work.

ghost use Rattle.kilim_explain_lines.specs.Laws.{TablesAreSpelled};

/// A law, and no work: what is read as a table is spelled so and has a text, and what is spelled is read again, whatever follows.
pub fn tables_are_spelled()
    ensures { TablesAreSpelled }
{}
