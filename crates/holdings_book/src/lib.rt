//! Where the copies of a record are held: the holdings in its fields 852 (MARC 21, 852, Location).
//!
//! Guarantee: `holdings::holdings_of` answers exactly the list that `specs/Holdings.antt` defines, a holding for each field
//! 852, in the order of the fields. Cost: one pass to count them and one to copy their texts; room for the list is taken
//! once.
#![tactic(auto)]

pub mod holdings;
