use cloud_trait::lease::Lease;
use recover_run::home::Home;

/// What one machine leaves in hand.
#[derive(Drop)]
pub enum Left<M> {
    /// It goes on.
    Goes(M),
    /// It is over.
    Rests(Rest),
}

/// What is in hand where nothing is at work.
#[derive(Drop)]
pub enum Rest {
    /// No client is open.
    Closed,
    /// An open client.
    Idle(Home),
    /// The lease of a client that was left in doubt.
    Broken(Lease),
}
