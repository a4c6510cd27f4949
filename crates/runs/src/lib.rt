// Runs of successive hours in a list: definitions and laws alone.
#![tactic(auto)]
