//! The definitions on which everything else stands: messages, the synod, one node, and the cluster. They are in `specs/`; there
//! is no code here.
#![tactic(auto)]
