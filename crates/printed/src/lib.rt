//! What a run prints is a text that an audit finds sound: the law, and its proof.
#![tactic(auto)]
