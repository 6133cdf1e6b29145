//! What holds of relations in segments, whatever their bytes are.

ghost use Rattle.segments.specs.Laws.{RelationsAreOne, WrittenIsRead};

/// Files have one relation of a name at most, and its segments one fault at most.
pub fn relations_are_one()
    ensures { RelationsAreOne }
{}

/// What was written in segments is read as the relation of its name, whatever stood there before.
pub fn written_is_read()
    ensures { WrittenIsRead }
{}
