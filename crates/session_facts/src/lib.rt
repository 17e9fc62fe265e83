//! What each machine of a session knows of a cloud at each of its calls, that it survives what others do, and that every call of every session keeps it.
#![tactic(auto)]
