// Specs only: document 01's rows, one table with one statement.
#![tactic(auto)]
