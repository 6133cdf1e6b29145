//! What holds of the two statements, whatever the texts are.

ghost use Rattle.index_stmt.specs.Laws.{Comes, IndexesArePrinted, OnlyTokensCount, TablesArePrinted};
ghost use Rattle.index_stmt.specs.IndexStatement.{index_statement};
ghost use Rattle.index_stmt.specs.TableStatement.{table_statement};
ghost use Rattle.index_stmt.specs.Faults.{index_of, table_of};
ghost use Rattle.opclass.specs.declared.table.Table.{Table};

/// A text has a table or a fault, and one of them.
pub fn a_text_is_one_table()
    ensures { Comes table_of }
{}

/// A text has an index over a table or a fault, and one of them.
pub fn a_text_is_one_index()
    ensures { (table : Table) → Comes (index_of table) }
{}

/// Of a text the tokens count alone: texts of the same tokens have the same table, or faults of one
/// cause at which equally many tokens are left.
pub fn only_tokens_count_for_a_table()
    ensures { OnlyTokensCount 1 table_statement }
{}

/// Of a text the tokens count alone: texts of the same tokens have the same index, or faults of one
/// cause at which equally many tokens are left.
pub fn only_tokens_count_for_an_index()
    ensures { (table : Table) → OnlyTokensCount 2 (index_statement table) }
{}

/// A table whose names can be quoted is what its printed statement is read as. So nothing that the
/// grammar has is refused.
pub fn tables_are_printed()
    ensures { TablesArePrinted }
{}

/// An index over a table whose names can be quoted is what its printed statement is read as. So
/// `read_index` gives each index that the rules of its meaning allow, and no other.
pub fn indexes_are_printed()
    ensures { IndexesArePrinted }
{}
