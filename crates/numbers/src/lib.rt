#![tactic(auto)]

// The number rules of the equaliser: cuts, bit lengths, products and scale counts.
pub mod bit_length;
pub mod cut;
pub mod product;
pub mod scale_count;
