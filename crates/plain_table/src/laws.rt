//! What is proved of tables. The function does nothing; its contract is the law.
ghost use Rattle.plain_table.specs.Laws.{CalledTablesAreInline};

/// A table that was called by all operations of a plan, in merged order, has the journals of the plan's inline run.
pub fn called_tables_are_inline()
    ensures { CalledTablesAreInline }
{}
