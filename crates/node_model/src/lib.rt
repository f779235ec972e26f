//! The node by what it keeps: the definitions are in `specs/`; there is no code here.
#![tactic(auto)]
