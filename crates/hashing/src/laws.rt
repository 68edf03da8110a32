ghost use Rattle.hashing.specs.Laws.{TablesHoldTheDraws, DrawsStayInRange};

/// Each number of the tables is the draw of its function, place and byte, and none is 0 or
/// above 2,147,483,646.
pub fn tables_hold_the_draws()
    ensures placed { TablesHoldTheDraws }
    ensures in_range { DrawsStayInRange }
{}
