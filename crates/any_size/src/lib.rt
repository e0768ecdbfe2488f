#![tactic(auto)]

// The demands where each store says its own page size, proved of the tables that the calls promise. No function stands here.
