//! Worked runs of whole boards, computed from the definitions of the board book: no code, and nothing stands on it.
#![tactic(auto)]
