#![tactic(auto)]

// The customer's demands, proved of the tables that the calls promise, and the wrong programs that these turn away. No function stands here.
