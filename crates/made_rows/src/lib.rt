// What an operation on one list makes of its rows: definitions and laws alone, for the walks above.
#![tactic(auto)]
