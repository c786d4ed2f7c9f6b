//! What the diagrams of a graph may take.

/// What the diagrams of a node may take.
#[derive(Clone, Copy, PartialEq, Eq, Debug)]
pub struct Room {
    /// How many steps they may take.
    pub steps: u32,
    /// With more nodes, all sixteen of a word together, the node stands for itself in the diagrams of later nodes.
    pub nodes: u32,
}

/// What the diagrams of a graph may take, all together and those of each node. Past it a node stands for itself; so what
/// may be taken decides which equal functions are found, and never what a node means.
#[derive(Clone, Copy, PartialEq, Eq, Debug)]
pub struct Rooms {
    /// How many nodes all of them may have, both constants with them: from 2 to 2^22, and what is past that is taken as
    /// the nearer end.
    pub nodes: u32,
    /// How many steps all of them may take.
    pub steps: u32,
    /// How many choices between diagrams are kept, at least one.
    pub memo: u32,
    /// What those of a choice, a look-up or anything else may take.
    pub choice: Room,
    /// What those of a sum, a difference, a carry, a borrow or an exclusive or may take, which grow faster.
    pub sum: Room,
}

impl Default for Rooms {
    fn default() -> Self {
        Rooms {
            nodes: 1 << 22,
            steps: 1_000_000,
            memo: 1 << 16,
            choice: Room {
                steps: 100_000,
                nodes: 10_000,
            },
            sum: Room {
                steps: 10_000,
                nodes: 3_000,
            },
        }
    }
}

impl Rooms {
    /// No room: only constants have diagrams, and only equal nodes are one.
    pub fn none() -> Self {
        let room = Room { steps: 0, nodes: 0 };
        Rooms {
            nodes: 2,
            steps: 0,
            memo: 1,
            choice: room,
            sum: room,
        }
    }
}
