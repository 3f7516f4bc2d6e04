// What the lister lists: each event of a bundle's lexicon with its support.
#![tactic(auto)]

pub mod list;
