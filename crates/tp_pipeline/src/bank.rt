//! The bank, which is outside: what it answers is heard, and nothing records it.

/// Whom the charger asks. Nothing is known of what it answers.
pub trait Bank: Drop {
    /// A receipt for this amount, or `None` where the bank is closed. The charge itself is booked when its
    /// unit of work is committed.
    fn authorise(&mut self, amount: u64) -> Option<u64>;
}

/// A bank that is closed for the last two calls of each 100.
#[derive(Drop)]
pub struct Terminal {
    pub calls: u64,
}

impl Bank for Terminal {
    fn authorise(&mut self, _amount: u64) -> Option<u64> {
        let call = self.calls;
        self.calls = call.wrapping_add(1);
        if call % 100 >= 98 { None } else { Some(call) }
    }
}
