//! What holds of the data of tuples, whatever the values are.

ghost use Rattle.tuple_data.specs.Laws.{ColumnsBehindFollow, DataTakeTheirRoom, FrontColumnsHaveTheFront, ValuesAreToldApart};

/// The data of columns and of those behind them are the data of them all.
pub fn columns_behind_follow()
    ensures { ColumnsBehindFollow }
{}

/// The columns in front have the data in front, so a tuple that keeps some of the columns is the
/// whole one cut off.
pub fn front_columns_have_the_front()
    ensures { FrontColumnsHaveTheFront }
{}

/// The data take at most 15 bytes for each number, and for other bytes their own and 11 more. So
/// who knows the lengths of the values knows that the data's size has its limits.
pub fn data_take_their_room()
    ensures { DataTakeTheirRoom }
{}

/// Bytes begin with the data of one list of values at most, once the types and the null bits are
/// known. The bytes are fewer than 2^30, above which a header of four bytes has no room for a
/// length (`varatt.h`).
pub fn values_are_told_apart()
    ensures { ValuesAreToldApart }
{}
