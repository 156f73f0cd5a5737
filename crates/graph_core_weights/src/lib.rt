//! What the way from a point of a graph to the next marker costs, in whatever is counted: no more than the whole graph does, if each cycle has a marker.
#![tactic(auto)]
