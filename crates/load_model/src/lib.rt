//! What the open pages of a loader stand for, with what it put: definitions and laws, and no code.
#![tactic(auto)]
