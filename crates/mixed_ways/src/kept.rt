use ways::list::ListWay;

/// The way that reads its rotations from a list of its own, the same for every level.
pub type KeptList = ListWay<Vec<u16>>;
