//! The types of the variables that a clause's normal goal makes: the laws that tie them to the types along the clause's
//! walk.
#![tactic(auto)]

mod laws;

pub use laws::{
    constructors_take, picks_are_known, traces_are_typed, typed_are_traced, types_are_general,
    walks_are_picked, walks_have_traces,
};
