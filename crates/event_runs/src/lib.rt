//! Runs as lists of events, and what it means that one run follows another.
#![tactic(auto)]
