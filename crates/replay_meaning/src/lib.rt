//! What a replay means by its lines and replies alone: how sessions stand, what they committed, which puts and sends they may make, and
//! when a report is right.
#![tactic(auto)]
