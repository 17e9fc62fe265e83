//! What holds of every store, and that each call that lands keeps it: the book of what was sent, taken and held, the chains of pages, the numbers of
//! queues, the order, and what a session owes for its calls.
#![tactic(auto)]
