// What the listing program prints, and the lines of a store in a lent buffer: each function's promise is an equation with a part of `listingText`.
#![tactic(auto)]

pub mod inner;
