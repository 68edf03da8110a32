/// A call as the stages see it; a fit says whether its level is the last.
#[derive(Clone, Copy)]
pub enum Event {
    Enter,
    Map,
    Order,
    Fit(bool),
    Seal,
    Reopen,
}
