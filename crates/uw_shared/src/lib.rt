//! The caches and the areas of a site as regions: a desk whose asks outlive a death at any word write. Whatever asks lead
//! it on, its words stand for the plain lists that the same asks lead to, and each ask is one turn of the region that it
//! asks, behind the repair where a death has left one.
#![tactic(auto)]

mod local_desk;

pub use local_desk::LocalDesk;
