// What holds of the two kinds, beyond the laws of a group.
ghost use Rattle.kinds.specs.Promises.{CountedAttained, FramedAttained, TableCounts, OneFrameCounts, TablesSound};

// No smaller demand would cover: for each number of jobs and each rank some succession asks for all of it.
pub fn demands_are_attained()
    ensures counted { CountedAttained }
    ensures framed { FramedAttained }
{}

// The tasks of a miss-counted table, and those of a single frame, are miss-counted by their classes and moves.
pub fn counts_misses()
    ensures counted { TableCounts }
    ensures framed { OneFrameCounts }
{}

// No table ever holds a row that breaks the rules of its kind, or more than 16 rows.
pub fn tables_are_sound()
    ensures { TablesSound }
{}
