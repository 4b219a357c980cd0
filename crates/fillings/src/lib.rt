// Definitions and laws alone: fillings of a sheet over any lists, and the first that passes any test.
#![tactic(auto)]
