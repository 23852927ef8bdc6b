/// What becomes of a packet that meets the switch.
#[derive(Clone, Copy, Debug, PartialEq, Eq)]
pub enum Fate {
    /// Its number is above the expected one.
    Dropped,
    /// It is the expected row, and the verdict is to prune it.
    Pruned,
    /// It is the expected row or Fin, and goes on.
    Forwarded,
    /// Its number is below the expected one, and it goes on unprocessed.
    Passed,
}

/// What becomes of an event.
#[derive(Clone, Copy, Debug, PartialEq, Eq)]
pub enum NoteFate {
    /// A worker has nothing to send, or no packet is at the place.
    Nothing,
    /// A worker put a packet on the link up.
    Sent,
    /// The switch dropped the packet.
    Dropped,
    /// The switch pruned the row.
    Pruned,
    /// The switch sent the expected packet on.
    Forwarded,
    /// The switch sent the packet on unprocessed.
    Passed,
    /// The master received the name for the first time.
    New,
    /// The master had received it before.
    Old,
    /// The worker took the acknowledgement.
    Taken,
    /// The acknowledgement is of another pass or epoch.
    Ignored,
    /// The packet was removed and not delivered.
    Lost,
    /// Bytes that are no packet arrived.
    Injected,
    /// The switch restarted.
    Restarted,
}
