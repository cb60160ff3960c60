// Document 01's table of refusals, row by row, its examples and the marked cases: the theory, over the definitions of readers and operations.
#![tactic(auto)]
