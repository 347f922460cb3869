//! What a graph keeps.
use crate::Placed;
use indexmap::IndexMap;
use par_base::{List, Name};

/// An edge with what follows of it and the older ones, so that no look-up goes the way up: the
/// numbers of its source tables, the tables of its working set, and the number of the oldest edge
/// of its tree. By the last table number that was given before it, the node of a table is found by
/// halving.
#[derive(Drop)]
pub struct Node<O> {
    pub placed: Placed<O>,
    pub sources: List<u32>,
    pub set: List<u32>,
    pub tree: u32,
    pub last_before: u32,
}

/// The last operator number and the last table number given.
#[derive(Clone, Copy, Drop)]
pub struct Last {
    pub operator: u32,
    pub table: u32,
}

/// All that a graph keeps: ascending nodes, the versions in order of creation with their working
/// sets, and the last numbers given.
#[derive(Drop)]
pub struct Parts<O> {
    pub nodes: Vec<Node<O>>,
    pub versions: IndexMap<Name, u32>,
    pub last: Last,
}
