//! What the diagrams of a formula may take.
ghost use Rattle.std.specs.Prelude.{◌≤◌};

use wb_gate::Gate;

/// How many nodes the diagrams of a formula may have at most.
const MOST_NODES: u32 = 1 << 22;

/// What the diagram of a gate may take.
#[derive(Clone, Copy, PartialEq, Eq, Debug)]
pub struct Room {
    /// How many steps it may take.
    pub steps: u32,
    /// With fewer nodes it stands for its variable in the diagrams of later gates.
    pub nodes: u32,
}

/// What the diagrams of a formula may take, all together and each alone. Past it a gate has no diagram, or stands for
/// itself in the diagrams of later gates; so what may be taken decides which equal gates are found, and never what an
/// entry means.
#[derive(Clone, Copy, PartialEq, Eq, Debug)]
pub struct Rooms {
    /// How many nodes all of them may have, both constants with them. More than 2^22 are as 2^22.
    pub nodes: u32,
    /// How many steps all of them may take.
    pub steps: u32,
    /// What that of a conjunction or a choice may take.
    pub choice: Room,
    /// What that of an exclusive or or a majority may take. Sums of unknown words and their carries grow faster than
    /// choices, so they get less.
    pub sum: Room,
    /// What any may take where gates are plain. Products of unknown words grow without end, so their gates stand for
    /// themselves at once.
    pub plain: Room,
}

impl Default for Rooms {
    fn default() -> Self {
        Rooms {
            nodes: MOST_NODES,
            steps: 20_000_000,
            choice: Room {
                steps: 200_000,
                nodes: 100_000,
            },
            sum: Room {
                steps: 100_000,
                nodes: 20_000,
            },
            plain: Room {
                steps: 50,
                nodes: 3,
            },
        }
    }
}

impl Rooms {
    /// How many nodes all diagrams may have.
    pub(crate) fn all_nodes(&self) -> u32
        ensures some { 2 ≤ result }
        ensures most { result ≤ 4194304 }
    {
        self.nodes.clamp(2, MOST_NODES)
    }

    /// What the diagram of a gate may take.
    pub(crate) fn room_of(&self, gate: Gate, plain: bool) -> Room {
        match gate {
            _ if plain => self.plain,
            Gate::And(..) | Gate::Mux(..) => self.choice,
            Gate::Xor(..) | Gate::Maj(..) => self.sum,
        }
    }
}
