/// What a run tells of its items, from each of its threads: it is called round each item, and a gate
/// that waits there decides which items overlap. Neither call changes anything that a contract sees.
pub trait Gate: Sync {
    /// Called before `participant` begins its item of number `item`.
    fn before(&self, participant: u32, item: u32);

    /// Called after `participant` has ended its item of number `item`.
    fn after(&self, participant: u32, item: u32);
}

/// A gate that does nothing.
#[derive(Clone, Copy, Debug, PartialEq, Eq)]
pub struct OpenGate;

impl Gate for OpenGate {
    fn before(&self, _participant: u32, _item: u32) {}

    fn after(&self, _participant: u32, _item: u32) {}
}
