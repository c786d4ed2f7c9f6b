ghost use Rattle.std.specs.Prelude.{◌≡◌, IfOk};

use std::alloc::Global;
use std::marker::Model;
use wb_port::{Access, Dialogue, Point};
use wb_word::OutOfMemory;

/// A point, and a dialogue whose held run passes it.
#[derive(Drop)]
pub struct ReachedPoint {
    pub point: Point,
    pub dialogue: Dialogue,
}

/// Points that were reached, in order.
#[derive(Drop)]
pub struct Reached {
    items: Vec<ReachedPoint>,
}

impl Model for Reached {
    ghost use Rattle.std.specs.Prelude.{List};
    ghost use Rattle.wb_explore.specs.declared.reached.ReachedPoint.{ReachedPoint};

    ghost Value = { List ReachedPoint };

    ghost view = { λ r. r.items.items };
}

impl Reached {
    ghost use Rattle.std.specs.Prelude.{◌≡◌, ◌<◌, [], ◌∷◌, ◌++◌, IfOk, OnOk, OnErr, Some, length, slice_get, take};

    /// No points.
    pub fn new(alloc: Global) -> Self
        ensures { result ≡ [] }
    {
        Reached {
            items: Vec::new(alloc),
        }
    }

    /// One more point at the end.
    pub fn push(&mut self, reached: ReachedPoint) -> Result<(), OutOfMemory>
        ensures ok { OnOk result (self.new ≡ self.old ++ reached ∷ []) }
        ensures err { OnErr result (self.new ≡ self.old) }
    {
        self.items.push(reached)?;
        Ok(())
    }

    pub fn len(&self) -> usize
        ensures { result ≡ length self.now }
    {
        self.items.len()
    }

    /// The point at a place, with its dialogue.
    pub fn at(&self, place: usize) -> &ReachedPoint
        requires { place < length self.now }
        ensures { slice_get self.now place ≡ Some result.now }
    {
        &self.items[place]
    }

    /// An equal list.
    pub(crate) fn copy(&self, alloc: Global) -> Result<Self, OutOfMemory>
        ensures { IfOk result (λ reached. reached ≡ self.now) }
    {
        let mut items = Vec::with_capacity(alloc, self.items.len())?;
        for place in 0..self.items.len() {
            let here = &self.items[place];
            items.push(copy_reached(alloc, here)?)?;
        }
        Ok(Reached { items })
    }
}

/// An equal point with an equal dialogue.
fn copy_reached(alloc: Global, reached: &ReachedPoint) -> Result<ReachedPoint, OutOfMemory>
    ensures { IfOk result (λ r. r ≡ reached.now) }
{
    Ok(ReachedPoint {
        point: reached.point.copy(alloc)?,
        dialogue: copy_dialogue(alloc, &reached.dialogue)?,
    })
}

/// An equal dialogue.
pub(crate) fn copy_dialogue(alloc: Global, dialogue: &Dialogue) -> Result<Dialogue, OutOfMemory>
    ensures { IfOk result (λ d. d ≡ dialogue.now) }
{
    let accesses: Vec<Access> = dialogue.list().to_vec(alloc)?;
    let mut copy = Dialogue::from_vec(accesses);
    copy.set_start(dialogue.start());
    Ok(copy)
}
