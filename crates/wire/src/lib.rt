//! What crosses the cable: containers, strings and arrays.
#![tactic(auto)]

pub mod command;
pub mod container;
pub mod data;
pub mod fault;
pub mod operation;
pub mod put;
pub mod read;
pub mod response;
pub mod samples;
pub mod string;
