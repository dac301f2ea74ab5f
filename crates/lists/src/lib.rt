// Lists: tests, searches and places, and laws of all of them, whatever the entries. The meaning stands in specs/; there is no code.
#![tactic(auto)]
