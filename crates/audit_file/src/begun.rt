use feed_events::set_core::SetState;

/// The set of a place, from 0, that is replayed now.
#[derive(Drop)]
pub(crate) struct Begun {
    pub place: u32,
    pub set: SetState,
}
