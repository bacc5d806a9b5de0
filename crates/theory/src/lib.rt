// What follows from the rules: demands 2 and 3, proved of the definitions before and apart from any code. It stands on rules
// and basics; the crates with code cite its laws.
#![tactic(auto)]
