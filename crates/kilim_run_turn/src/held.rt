//! The value while it is lent.
use crate::kept::Chair;

/// The value, lent to one worker. It can't be dropped: it goes back by `Turn::leave`.
pub struct Held<B> {
    /// The value itself. The worker may change its own seat's cell.
    pub value: B,
    pub(crate) seat: Chair<B>,
}
