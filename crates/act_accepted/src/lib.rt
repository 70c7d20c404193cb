//! What an accepted portfolio is: its contracts by number, their names and their order. Definitions alone.
#![tactic(auto)]
