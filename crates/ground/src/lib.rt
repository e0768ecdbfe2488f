#![tactic(auto)]

// What belongs to no layer: the table of refusals, tests, tables and totals, parts of lists. Definitions and laws; no code.
