// What the checks of a table give: its facts as numbers, its rows in ascending id, and that the order of the rows changes
// nothing. Laws over rules alone; the crate table proves its code by them, and every crate above may use them.
#![tactic(auto)]
